//! How much a replay may be.

/// The most that an audit does: the product of a history's commits and the lines that are replayed over it.
pub const MOST_REPLAYED: u64 = 50_000_000;
