//! What is cast and heard over sockets of this machine and by ears that a test makes, which no file of cases can tell.
//!
//! `sockets` has a cast and a listener at once, over real sockets. `ears` has an ear that would answer again after its end, and one with a datagram
//! that is longer than the room for it.
#![tactic(auto)]

#[cfg(test)]
mod ears;
#[cfg(test)]
mod sockets;
