//! Replans that begin no later than the one before, or whose lists aren't equally long.

use crate::records::Record;
use crate::records::before::RecordsBefore;
use crate::records::lists::parts_in;
use crate::words::sentences::Sentence;

/// A note that a replan's cycle isn't above that of the replan before, or `None`.
pub fn early_note(before: &RecordsBefore, record: &Record) -> Option<Sentence<'static>> {
    let cycle = record.number(1);
    if before.last_cycle < cycle {
        return None;
    }
    let wording =
        "has the cycle #first#, and the replan before it #second#: each begins after the one before";
    Some(Sentence::numbers(wording, cycle, before.last_cycle, 0))
}

/// A note that a replan has another number of sizes than of frequencies.
pub fn lengths_note(record: &Record) -> Sentence<'static> {
    let sizes = parts_in(record.field(2));
    let freqs = parts_in(record.field(3));
    let wording =
        "the number of sizes is #first#, and that of frequencies #second#: each disk has both";
    Sentence::numbers(wording, sizes, freqs, 0)
}
