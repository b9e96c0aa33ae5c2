//! Plays cases of scripts that are aired in pieces, and of tapes that are heard in pieces.
//!
//! `deck` and `tape` begin a file, and `more` and `repeat` continue the deck. `sizes` takes a number of further starts, and adds the length of the
//! script's tape and the number of cycles of a piece of it. `air` takes the number of cycles of a piece, and airs the script to all readers; `run`
//! airs it to a mast alone, `beam` beams it, and `script` lets all readers hear it without a tape. `hear` and `fronts` let the deck's readers hear the tape.
#![tactic(auto)]

mod airing;
mod beaming;
mod decks;
mod hearing;
mod reports;

ghost use Rattle.std.specs.Thread.{IsSync};

use crate::airing::{air, run, script, sizes};
use crate::beaming::beam;
use crate::hearing::{fronts, hear};
use air_base::NoMemory;
use case_lines::{BadCase, Parts, Player, play_stdin};
use std::alloc::Global;
use std::io;
use std::thread::Threads;

/// The text of the deck and the tape, and the threads on which readers hear.
#[derive(Drop)]
struct Pieces<'r, R> {
    rt: &'r R,
    deck: Vec<u8>,
    tape: Vec<u8>,
}

impl<R: Threads + Sync> Player for Pieces<'_, R> {
    ghost needs = { IsSync R.row };

    fn play(
        &mut self,
        alloc: Global,
        word: &[u8],
        parts: &mut Parts<'_>,
        came: &mut Vec<u8>,
    ) -> Result<(), NoMemory> {
        match word {
            b"deck" => self.deck = parts.text(alloc)?,
            b"more" => self.deck.extend_from_slice(&parts.text(alloc)?)?,
            b"repeat" => self.deck.extend_from_slice(&parts.rows(alloc)?)?,
            b"tape" => self.tape = parts.bytes(alloc)?,
            b"sizes" => sizes(alloc, &self.deck, parts, came)?,
            b"air" => air(alloc, &self.deck, parts, came)?,
            b"beam" => beam(alloc, &self.deck, parts, came)?,
            b"run" => run(alloc, &self.deck, parts, came)?,
            b"script" => script(alloc, &self.deck, came)?,
            b"hear" => hear(self.rt, alloc, &self.deck, &self.tape, parts, came)?,
            b"fronts" => fronts(self.rt, alloc, &self.deck, &self.tape, parts, came)?,
            _ => parts.refuse(BadCase::NoSuchWord),
        }
        Ok(())
    }
}

fn main(rt: HostRuntime) -> io::Result<()> {
    let mut pieces = Pieces {
        rt: &rt,
        deck: Vec::new(rt.alloc()),
        tape: Vec::new(rt.alloc()),
    };
    play_stdin(&rt, &mut pieces)
}
