//! Scripts that are beamed by pieces. After each piece the transcript has the same numbers as after one that is aired; at the end the indexed tape's sum.

ghost use Rattle.std.specs.Prelude.{◌≤◌};

use crate::decks::planned_deck;
use crate::reports::{add_piece, add_tape};
use air_base::NoMemory;
use case_lines::{Parts, add_line};
use chunk_program::Planned;
use scripts::ScriptBeaming;
use std::alloc::Global;

/// The greatest number of pieces of a script: one for each of its events.
const MOST_PIECES: u32 = 110_000;

/// Beams the deck's script in pieces of a number of cycles.
pub fn beam(
    alloc: Global,
    text: &[u8],
    parts: &mut Parts<'_>,
    came: &mut Vec<u8>,
) -> Result<(), NoMemory> {
    let cycles = parts.narrow().max(1);
    let Some(planned) = planned_deck(alloc, text) else {
        return add_line(b"no deck", &[], came);
    };
    beam_pieces(alloc, &planned, cycles, came)
}

/// The same for a deck with its plans.
fn beam_pieces(
    alloc: Global,
    planned: &Planned,
    cycles: u32,
    came: &mut Vec<u8>,
) -> Result<(), NoMemory>
    requires { 1 ≤ cycles }
{
    let mut tape = Vec::new(alloc);
    let mut beaming = ScriptBeaming::new(alloc, planned, cycles)?;
    for _ in 0..MOST_PIECES {
        if beaming.is_done(planned) {
            break;
        }
        let first = beaming.run.events.len();
        beaming.next_piece(alloc, planned)?;
        add_piece(&beaming.run.events, first, beaming.piece(), &mut tape, came)?;
    }
    if !beaming.is_done(planned) {
        return add_line(b"not done", &[], came);
    }
    add_tape(&tape, came)
}
