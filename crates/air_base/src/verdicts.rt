//! What a receiver decides and counts: policies, reads, clashes, verdicts.
//!
//! Plain data with public fields. An item is given by its number in the catalog; cycles are counted from 1.

/// How a receiver judges the reads of a query.
#[derive(Clone, Copy, Debug, PartialEq, Eq)]
pub enum Policy {
    /// Each two reads are judged by the control columns that came with them.
    FMatrix,
    /// All reads have the values of the newest cycle read.
    Datacycle,
    /// A read has the values of its own cycle, or of the first one read.
    RMatrix,
}

/// How a deck's buckets are made: the policy by which receivers judge them, which decides the entries, and the version in which
/// they are spelled.
#[derive(Clone, Copy, Debug, PartialEq, Eq)]
pub struct Form {
    pub policy: Policy,
    /// 1 or 2.
    pub version: u8,
}

/// A read as a verdict line shows it.
#[derive(Clone, Copy, Debug, PartialEq, Eq)]
pub struct ReadOf {
    pub item: u16,
    pub cycle: u32,
    pub value: u64,
}

/// The held read with which a new one clashes.
#[derive(Clone, Copy, Debug, PartialEq, Eq)]
pub struct Clash {
    pub item: u16,
    pub cycle: u32,
}

/// How an attempt of a query ended.
#[derive(Clone, Copy, Debug, PartialEq, Eq)]
pub enum VerdictKind {
    /// All items of the query were read.
    Accept,
    /// The read of this item in this cycle clashes with the held read of the item `clash`.
    Abort { item: u16, cycle: u32, clash: u16 },
    /// The cycles of the new read and of the held ones are too far apart to be judged by ages.
    Aged { item: u16, cycle: u32 },
    /// What the receiver heard ended before the query did.
    Unfinished,
}

/// The verdict on an attempt: queries count from 0, attempts from 1.
#[derive(Clone, Copy, Debug, PartialEq, Eq)]
pub struct Verdict {
    pub query: u32,
    pub attempt: u32,
    pub kind: VerdictKind,
}

/// What a receiver did with what it heard.
#[derive(Clone, Copy, Debug, PartialEq, Eq)]
pub struct Counts {
    /// Buckets whose item was wanted and was read.
    pub opened: u64,
    /// Buckets that were not wanted, or idle.
    pub dozed: u64,
    /// Buckets of an older cycle than the last read, if the policy takes none of these.
    pub late: u64,
    /// Bytes that are no bucket.
    pub refused: u64,
    /// Buckets that do not fit the deck.
    pub foreign: u64,
    /// Reads that were taken from a kept copy.
    pub copied: u64,
}
