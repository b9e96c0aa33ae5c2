//! What a run is expected to leave, and the check of it.

ghost use Rattle.std.specs.Prelude.{◌≤◌, length};
ghost use Rattle.air_base.specs.declared.limits.TheConstants.{MOST_DECK_BYTES};

use crate::decks::{BucketRow, EditionRow, tape_of, tape_of_three};
use crate::plays::{RunAndMast, play};
use air_devices::Gate;
use air_history::{Event, History};
use air_model::reports::LookLine;
use deck_runs::{Run, RunFault};
use std::alloc::{AllocError, Global};
use std::sync::Wait;
use std::test::Fail;
use std::thread::Threads;

/// What a line may show: the first cycle and the last, and the total if there is only one.
pub type LineSpan = (u32, u32, Option<u64>);

/// An event: the updater of a commit and its number for it, or `None` for a start.
pub type EventName = Option<(u32, u32)>;

/// What is expected of a history.
#[derive(Clone, Copy)]
pub enum Events<'a> {
    /// Its events.
    Listed(&'a [EventName]),
    /// The number of its commits, and of its starts.
    Counted(usize, usize),
}

/// What is expected of a run.
#[derive(Clone, Copy)]
pub struct RunLines<'a> {
    pub events: Events<'a>,
    pub glances: &'a [LineSpan],
    pub looks: &'a [LineSpan],
}

/// What is expected of a tape.
#[derive(Clone, Copy)]
pub enum Tape<'a> {
    /// Its buckets.
    Buckets(&'a [BucketRow]),
    /// Its buckets, with the edition of each.
    Editions(&'a [EditionRow]),
    /// The number of its bytes.
    Bytes(usize),
}

/// A deck, the number of bytes that its tape has room for, and what is left: the run, or why it wasn't done, and the tape.
#[derive(Clone, Copy)]
pub struct Case<'a> {
    pub deck: &'a [u8],
    pub room: u64,
    pub run: Result<RunLines<'a>, RunFault>,
    pub tape: Tape<'a>,
}

/// A part that isn't as expected, with its actual value.
#[derive(Clone, Copy, Debug, PartialEq, Eq)]
pub enum Other {
    /// The run was done.
    Done,
    /// The run wasn't done.
    Fault(RunFault),
    /// The number of commits and of starts.
    Events(usize, usize),
    /// The event at this place.
    Event(usize, EventName),
    /// The number of lines.
    Lines(usize),
    /// The line at this place.
    Line(usize, LookLine),
    /// The number of bytes of the tape.
    Bytes(usize),
    /// The byte at this place of the tape.
    Byte(usize, u8),
}

/// The event by its numbers.
fn name_of(event: &Event) -> EventName {
    match event {
        Event::Commit { by, seq, .. } => Some((*by, *seq)),
        Event::Start => None,
    }
}

/// The number of starts among events.
fn starts_in(events: &[Event]) -> usize {
    events.iter().filter(|event| event.is_start()).count()
}

/// The first part of a history that isn't as expected, or `None`.
fn other_event(history: &History, told: Events<'_>) -> Option<Other> {
    let events = history.events();
    let starts = starts_in(events);
    let commits = events.iter().filter(|event| !event.is_start()).count();
    let listed = match told {
        Events::Counted(all, cycles) if all == commits && cycles == starts => return None,
        Events::Listed(listed) if listed.len() == events.len() => listed,
        _ => return Some(Other::Events(commits, starts)),
    };
    for (place, (event, told)) in events.iter().zip(listed).enumerate() {
        if name_of(event) != *told {
            return Some(Other::Event(place, name_of(event)));
        }
    }
    None
}

/// Whether a line shows what it may, and has the number of its place.
fn shows(line: LookLine, place: usize, told: LineSpan) -> bool {
    let (first, last, total) = told;
    let in_time = first <= line.cycle && line.cycle <= last;
    line.monitor as usize == place && in_time && total.is_none_or(|total| line.total == total)
}

/// The first line that isn't as expected, or `None`.
fn other_line(lines: &[LookLine], told: &[LineSpan]) -> Option<Other> {
    if lines.len() != told.len() {
        return Some(Other::Lines(lines.len()));
    }
    for (place, (line, told)) in lines.iter().zip(told).enumerate() {
        if !shows(*line, place, *told) {
            return Some(Other::Line(place, *line));
        }
    }
    None
}

/// The first part of a run that isn't as expected, or `None`.
fn other_in(run: &Run, told: &RunLines<'_>) -> Option<Other> {
    if let Some(other) = other_event(&run.history, told.events) {
        return Some(other);
    }
    if let Some(other) = other_line(&run.glances, told.glances) {
        return Some(other);
    }
    other_line(&run.looks, told.looks)
}

/// The first part of the end of a run that isn't as expected, or `None`.
fn other_end(run: &Result<Run, RunFault>, told: &Result<RunLines<'_>, RunFault>) -> Option<Other> {
    match (run, told) {
        (Ok(run), Ok(told)) => other_in(run, told),
        (Ok(_), Err(_)) => Some(Other::Done),
        (Err(fault), Err(told)) if fault == told => None,
        (Err(fault), _) => Some(Other::Fault(*fault)),
    }
}

/// The first byte that isn't as expected, or `None`.
fn other_byte(tape: &[u8], told: &[u8]) -> Option<Other> {
    if tape.len() != told.len() {
        return Some(Other::Bytes(tape.len()));
    }
    for (place, (byte, told)) in tape.iter().zip(told).enumerate() {
        if byte != told {
            return Some(Other::Byte(place, *byte));
        }
    }
    None
}

/// The first part of a tape that isn't as expected, or `None`.
fn other_on(alloc: Global, tape: &[u8], told: Tape<'_>) -> Result<Option<Other>, AllocError> {
    match told {
        Tape::Buckets(buckets) => {
            let told = tape_of(alloc, buckets)?;
            Ok(other_byte(tape, &told))
        }
        Tape::Editions(buckets) => {
            let told = tape_of_three(alloc, buckets)?;
            Ok(other_byte(tape, &told))
        }
        Tape::Bytes(bytes) if tape.len() == bytes => Ok(None),
        Tape::Bytes(_) => Ok(Some(Other::Bytes(tape.len()))),
    }
}

/// The first part of what was left that isn't as expected, or `None`.
fn other_left(
    alloc: Global,
    left: &RunAndMast,
    case: &Case<'_>,
) -> Result<Option<Other>, AllocError> {
    if let Some(other) = other_end(&left.run, &case.run) {
        return Ok(Some(other));
    }
    other_on(alloc, left.mast.tape(), case.tape)
}

/// Runs the case's deck with this gate, and answers the first part of what was left that isn't as expected, or `None`.
pub fn first_other<R: Threads + Wait + Sync, G: Gate + Sync>(
    rt: &R,
    alloc: Global,
    case: &Case<'_>,
    gate: &G,
) -> Result<Option<Other>, Fail>
    requires { length case.now.deck.now ≤ MOST_DECK_BYTES }
{
    let left = play(rt, alloc, case.deck, case.room, gate)?;
    Ok(other_left(alloc, &left, case)?)
}
