//! Pins of the libraries of texts and bytes: each is one call on small values, and gives the answer, or what holds of every
//! answer.
//!
//! A pin is proved from the contract of its call only, so it fails if a contract or a definition lets another answer through.
//! It is named for the mistake that it refuses, and its comment says what else it refuses.
#![tactic(auto)]

pub mod buckets;
pub mod decks;
pub mod drills;
pub mod records;
pub mod reports;
pub mod rooms;
pub mod update_lists;
