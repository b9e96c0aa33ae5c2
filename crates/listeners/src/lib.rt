//! Receivers that hand out their verdict lines: one reader's, and those of all readers of a deck.
//!
//! A listener's state is always that of the session over all that it heard so far. So a whole list, heard at once or in pieces one after
//! another, leaves the same state. All readers of a deck hear what is aired cycle by cycle, each cycle from its board, together or each through
//! its own ether (`hearers`); or they hear one tape side by side (`together`). Their sessions give lines of a report. Over a history on the air
//! these are what the history judges (`histories`).
#![tactic(auto)]

mod cycles;
mod deck_cycles;
mod hearers;
mod histories;
mod judged;
mod last_buckets;
pub mod laws;
mod listener;
mod pieces;
mod place_hearers;
mod place_listeners;
mod places;
mod readers;
mod sources;
mod together;
mod verdicts;

pub use hearers::Hearers;
pub use histories::history_sessions;
pub use listener::Listener;
pub use readers::{Sessions, all_hear, end_all, listeners_of};
pub use sources::fill_groups;
pub use together::Together;
