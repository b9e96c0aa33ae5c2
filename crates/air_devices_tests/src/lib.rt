//! Tests of the mast and the ear over real sockets of this machine. Tests of the devices that are tables of data are in
//! `device_cases`.
#![tactic(auto)]

#[cfg(test)]
mod udp_tests;
