//! The held reads of Datacycle and R-Matrix: whether a new read may join those that an attempt holds.
//!
//! Each read has the vector of last write cycles that was heard with it. `DatacycleCheck` tests whether the held reads are
//! current at the newest cycle with the new one; `RMatrixCheck` takes reads in the order of cycles. Both name the clash with
//! the least item number. `DataHeld` and `RHeld` are the held reads under them.
#![tactic(auto)]

pub mod datacycle;
pub mod laws;
pub mod r_matrix;

pub use datacycle::{DataHeld, DatacycleCheck};
pub use r_matrix::{RHeld, RMatrixCheck};
