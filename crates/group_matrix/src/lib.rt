//! The board by groups: the greatest entries of each group's columns, computed from a board at the start of a cycle.
//!
//! A group has the items from a multiple of its size on. Its column is coarser than the columns of its items: a read that it lets
//! pass each of them lets pass. The board stays as it is, since a group's columns don't suffice for the next commit.
#![tactic(auto)]

pub mod groups;
pub mod laws;
mod rows;

pub use groups::GroupBoard;
