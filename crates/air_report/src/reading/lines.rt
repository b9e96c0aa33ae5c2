//! The lines of a report, as their records spell them.

use air_model::reports::{CountsLine, LookLine, VerdictLine};

/// A line of a history: a commit, named by its updater and the updater's number for it, or the start of a cycle.
#[derive(Clone, Copy, Debug, PartialEq, Eq)]
pub enum EventLine {
    Commit { by: u32, seq: u32 },
    Start,
}

/// A line of a report.
#[derive(Debug, Drop)]
pub enum ReportLine {
    Event(EventLine),
    Verdict(VerdictLine),
    Counts(CountsLine),
    Glance(LookLine),
    Look(LookLine),
}
