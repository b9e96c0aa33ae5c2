//! Tests of the station: calls one after another with answers by hand, and a conductor and two updaters in threads on one history.
//!
//! `workers` has an updater and a conductor that work through their passes. `crews` has all of them on a station, side by side, and the end, when
//! their passes come back. `replays` plays the closed history once more, on a core, and compares the answers of both.
#![tactic(auto)]

#[cfg(test)]
mod crews;
#[cfg(test)]
mod replays;
#[cfg(test)]
mod tests;
#[cfg(test)]
mod workers;
