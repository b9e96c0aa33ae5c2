//! How many items each disk of a deck takes at best.
//!
//! `best_split` finds the sizes for which the rates times the gaps sum to the least, among programs of at most 16,384 slots.
//! It goes over a table of least weights, by disk, by the items before it, and by the slots of a minor cycle.
//! The frequencies stay the deck's.
#![tactic(auto)]

mod costs;
pub mod laws;
mod lengths;
mod numbers;
mod rates;
mod search;
mod sizes;
pub mod splits;
mod tables;

pub use laws::{best_law, cost_law, some_split_law};
pub use splits::{MOST_SPLIT, Split, SplitFault, best_split, check_size};
