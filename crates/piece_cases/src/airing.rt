//! Scripts that are aired by pieces, and how long their tapes and pieces are.
//!
//! After each piece the transcript has its number of starts, its number of bytes, and the number of events that were run; at the end the tape's sum,
//! and the report.

ghost use Rattle.std.specs.Prelude.{◌≤◌, length};
ghost use Rattle.air_base.specs.declared.limits.TheConstants.{MOST_TAPE_BYTES};
ghost use Rattle.air_model.specs.Outputs.{script_tape};

use crate::decks::planned_deck;
use crate::reports::{add_piece, add_report, add_tape};
use air_base::NoMemory;
use air_base::limits::MOST_TAPE_BYTES;
use air_sender::{TapeMast, tape_len};
use case_lines::{Parts, add_line};
use chunk_program::Planned;
use listeners::Sessions;
use scripts::{PieceRun, ScriptAiring, hear_script, piece_cycles};
use std::alloc::Global;

/// The greatest number of pieces of a script: one for each of its events.
const MOST_PIECES: u32 = 110_000;

/// Adds the number of bytes of the tape of the script with a number of further starts, and the number of cycles of a piece.
pub fn sizes(
    alloc: Global,
    deck: &[u8],
    parts: &mut Parts<'_>,
    came: &mut Vec<u8>,
) -> Result<(), NoMemory> {
    let mut text = Vec::from_slice(alloc, deck)?;
    for _ in 0..parts.number() {
        text.extend_from_slice(b"script,s\n")?;
    }
    let Some(planned) = planned_deck(alloc, &text) else {
        return add_line(b"no deck", &[], came);
    };
    let cycles = u64::from(piece_cycles(&planned));
    add_line(b"bytes and cycles", &[tape_len(&planned), cycles], came)
}

/// Airs the deck's script to all its readers, in pieces of a number of cycles.
pub fn air(
    alloc: Global,
    text: &[u8],
    parts: &mut Parts<'_>,
    came: &mut Vec<u8>,
) -> Result<(), NoMemory> {
    let cycles = parts.narrow().max(1);
    let Some(planned) = planned_deck(alloc, text) else {
        return add_line(b"no deck", &[], came);
    };
    if tape_len(&planned) > MOST_TAPE_BYTES as u64 {
        return add_line(b"too long", &[], came);
    }
    air_pieces(alloc, &planned, cycles, came)
}

/// The same for a deck with its plans.
fn air_pieces(
    alloc: Global,
    planned: &Planned,
    cycles: u32,
    came: &mut Vec<u8>,
) -> Result<(), NoMemory>
    requires few { length (script_tape planned.now) ≤ MOST_TAPE_BYTES }
    requires some { 1 ≤ cycles }
{
    let mut tape = Vec::new(alloc);
    let mut aired = ScriptAiring::new(alloc, planned, cycles)?;
    for _ in 0..MOST_PIECES {
        if aired.is_done(planned) {
            break;
        }
        let first = aired.run.events.len();
        aired.next_piece(alloc, planned)?;
        add_piece(&aired.run.events, first, aired.piece(), &mut tape, came)?;
    }
    if !aired.is_done(planned) {
        return add_line(b"not done", &[], came);
    }
    let (events, sessions) = aired.end(alloc, planned)?;
    add_tape(&tape, came)?;
    add_report(alloc, events, sessions, came)
}

/// Lets all readers hear the deck's script without its tape.
pub fn script(alloc: Global, text: &[u8], came: &mut Vec<u8>) -> Result<(), NoMemory> {
    let Some(planned) = planned_deck(alloc, text) else {
        return add_line(b"no deck", &[], came);
    };
    if tape_len(&planned) > MOST_TAPE_BYTES as u64 {
        return add_line(b"too long", &[], came);
    }
    let heard = hear_script(alloc, &planned)?;
    add_report(alloc, heard.events, heard.sessions, came)
}

/// Runs the deck's script to a mast of limited room. The numbers are this room, and then the number of cycles of each piece.
pub fn run(
    alloc: Global,
    text: &[u8],
    parts: &mut Parts<'_>,
    came: &mut Vec<u8>,
) -> Result<(), NoMemory> {
    let room = parts.number();
    let pieces = parts.entries(alloc)?;
    let Some(planned) = planned_deck(alloc, text) else {
        return add_line(b"no deck", &[], came);
    };
    run_pieces(alloc, &planned, room, &pieces, came)
}

/// The same for a deck with its plans. After each piece it adds whether all events were run.
fn run_pieces(
    alloc: Global,
    planned: &Planned,
    room: u64,
    pieces: &[u32],
    came: &mut Vec<u8>,
) -> Result<(), NoMemory> {
    let mut tape = Vec::new(alloc);
    let mut mast = TapeMast::new(alloc, room)?;
    let mut run = PieceRun::new(alloc, planned)?;
    for cycles in pieces {
        let cycles = (*cycles).max(1);
        let first = run.events.len();
        let Ok(()) = run.next_piece(alloc, planned, cycles, &mut mast) else {
            return add_line(b"no room", &[], came);
        };
        add_piece(&run.events, first, mast.tape(), &mut tape, came)?;
        if run.is_done(planned) {
            add_line(b"done", &[], came)?;
        }
    }
    add_tape(&tape, came)?;
    let nothing_heard = Sessions {
        verdicts: Vec::new(alloc),
        counts: Vec::new(alloc),
    };
    add_report(alloc, run.events, nothing_heard, came)
}
