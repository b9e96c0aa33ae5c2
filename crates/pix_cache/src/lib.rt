//! The copies that a receiver keeps: those with the greatest PIX numbers, as many as it has room for.
//!
//! Contracts see a cache as its room, the PIX numbers and the copies by rising item. `PixCache::keep` puts a newcomer in place
//! of its item's copy, or of the least one; a tree over the copy slots has the least at its root. No copy is moved, and only
//! `new` takes memory.
#![tactic(auto)]

pub mod cache;
mod leaf;
mod nodes;
mod store;
mod tree;

pub use cache::{KeepAnswer, PixCache};
pub use store::Kept;
