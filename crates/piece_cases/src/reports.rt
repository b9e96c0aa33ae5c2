//! The lines of reports, pieces and tapes.
//!
//! A report is written out. For a piece and for a tape there are only numbers: their lengths, and a tape's sum.

use air_base::NoMemory;
use air_base::limits::MOST_EVENTS;
use air_history::{Event, History};
use air_report::{Report, write_report};
use case_lines::{add_line, sum_of};
use listeners::Sessions;
use std::alloc::Global;

/// Adds the lines of these events and sessions.
#[tactic(auto, using(air_history::proofs::ScanLemmas::starts_within))]
pub fn add_report(
    alloc: Global,
    events: Vec<Event>,
    sessions: Sessions,
    came: &mut Vec<u8>,
) -> Result<(), NoMemory> {
    if events.len() > MOST_EVENTS {
        return add_line(b"too many events", &[], came);
    }
    let report = Report {
        history: History::from_events(events),
        verdicts: sessions.verdicts,
        counts: sessions.counts,
        glances: Vec::new(alloc),
        looks: Vec::new(alloc),
    };
    write_report(alloc, &report, came)
}

/// Adds a piece to the tape so far, and its line: the number of starts among the events from number `first` on, the number of bytes of the piece, and
/// the number of events.
pub fn add_piece(
    events: &[Event],
    first: usize,
    piece: &[u8],
    tape: &mut Vec<u8>,
    came: &mut Vec<u8>,
) -> Result<(), NoMemory> {
    tape.extend_from_slice(piece)?;
    let mut starts = 0u64;
    for (place, event) in events.iter().enumerate() {
        if first <= place && event.is_start() {
            starts = starts.saturating_add(1);
        }
    }
    let numbers = [starts, piece.len() as u64, events.len() as u64];
    add_line(b"piece", &numbers, came)
}

/// Adds the number of bytes of the tape, and their sum.
pub fn add_tape(tape: &[u8], came: &mut Vec<u8>) -> Result<(), NoMemory> {
    add_line(b"tape", &[tape.len() as u64, sum_of(tape)], came)
}
