//! Pins of the libraries that read and audit reports: each is one call on a small deck and a short text or a small report, and says the
//! answer, or what every answer must keep.
//!
//! A pin is proved from the contract of its call alone, so a contract or a definition that lets another answer through fails it. It is
//! named for the blunder that it refuses, and its comment says what else it refuses.
#![tactic(auto)]

pub mod audits;
pub mod faults;
pub mod laws;
pub mod reads;
pub mod replays;
