//! The devices in memory: each tells all that it holds, and fails at the calls that it is told to fail at.

pub(crate) mod calls;
pub mod ear;
pub mod mast;
pub mod shelf;
