//! The core: one history that only grows, with its current values, on one thread.
//!
//! `cores` has the core, which adds commits and starts one by one, and `receipts` what a commit answers. Each step of a core is
//! a step of `air_history`'s definitions; the values and counts that it keeps with the events follow them. The station puts the
//! core into a lock.
#![tactic(auto)]

mod cores;
mod receipts;

pub use air_base::NoMemory;
pub use cores::Core;
pub use receipts::Receipt;
