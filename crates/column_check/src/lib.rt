//! The held reads of F-Matrix: whether a new read is consistent with those that an attempt holds.
//!
//! Each read has the control column that was heard with it. Two reads clash if either's column has the other's item at the
//! other's cycle or later. `ColumnCheck` names the clash with the least item number, and `Held` is the held reads under it.
#![tactic(auto)]

pub mod held;
pub mod laws;

pub use held::{ColumnCheck, Held};
pub use held_reads::ROOM;
