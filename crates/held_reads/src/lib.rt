//! The reads that an attempt holds, in order, each with the entries that were heard with it, under any policy.
//!
//! `HeldEntries` keeps them, with an array of the cycles in which items are held. Its searches name held reads by a test, and
//! each gives the one with the least item number. The checks of the policies use it, each as a `PolicyCheck`; `CheckedReads`
//! are the held reads under one of them.
#![tactic(auto)]

pub mod checked;
pub mod checks;
mod cycles;
pub mod held;
mod reads;

pub use checked::CheckedReads;
pub use checks::PolicyCheck;
pub use cycles::NOT_HELD;
pub use held::{HeldEntries, ROOM};
pub use reads::lesser_clash;
