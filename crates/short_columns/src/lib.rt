//! Short columns: the entries above 0 alone, each with its item, and their bytes.
//!
//! `specs/` defines which entries are listed, their spelling and the reading of bytes, and `laws` says how these are related.
//! `writing` writes a short column from a history's entries, and `reading` tests one in its bytes and reads it. No call takes
//! memory.
#![tactic(auto)]

pub mod laws;
pub mod reading;
pub mod writing;

pub use reading::{count_at, entry_of, fill_entries, has_listing};
pub use writing::{count_listed, is_short, put_short};
