//! Kernels over lists of control information: the greater of two lists, a stamp where there is a mark, and the first place at
//! which a column isn't below what is held.
//!
//! Each kernel goes over blocks of eight lanes, and over the remaining places by a plain loop; `first_not_below` first skips
//! groups of thirty-two. Each gives what its definition in `specs/Kernels` says, for lists of any length, and takes no memory.
//! The board and the held reads use them.
#![tactic(auto)]

mod greater;
mod search;
mod stamps;

pub use greater::max_into;
pub use search::first_not_below;
pub use stamps::stamp;
