//! The lines of a report apart from its history: verdicts, counts, and what monitors saw.
//!
//! Plain data with public fields. Each line has the number of its reader or its monitor, so it can be understood alone.
//! `specs/Reports.antt` has the row of each, and what the sessions of readers tell as such lines.

use air_base::{Counts, Reads, Verdict};

/// A verdict on an attempt of a reader, with the reads of the attempt in the order of reading.
#[derive(Debug, Drop)]
pub struct VerdictLine {
    pub reader: u32,
    pub verdict: Verdict,
    pub reads: Reads,
}

/// What a reader did with what it heard.
#[derive(Clone, Copy, Debug, PartialEq, Eq)]
pub struct CountsLine {
    pub reader: u32,
    pub counts: Counts,
}

/// What a monitor saw: a cycle, and the total of the values at its start.
#[derive(Clone, Copy, Debug, PartialEq, Eq)]
pub struct LookLine {
    pub monitor: u32,
    pub cycle: u32,
    pub total: u64,
}
