//! Plays cases of decks' cuts and programs, of the cycles that are aired from a deck's board, of the mast that gathers a tape, and of indexed tapes.
//!
//! `items` and `disks` spell the text of a deck, `repeat` continues the items, and each question after them reads it again. `slots`, `plan`, `cut`
//! and `wait` ask for the program of the edition that `edition` names, `in-force` for the edition of a cycle, `length`, `air` and `memory` for what
//! is aired. The board is that of the deck's script and one more start. `mast` makes the mast of a room, which `air`, `aim`, `send`, `finish`, `tape`
//! and `clear` are about. `index` puts the cycle that the mast has at the end of an indexed tape that is kept, `seek` seeks on that tape, and `keep`
//! makes it anew from the bytes that it spells. `indexed-length` asks how long such a tape is.
#![tactic(auto)]

mod airing;
mod boards;
mod indexes;
mod plans;
mod tapes;

use air_base::NoMemory;
use air_base::limits::MOST_DECK_BYTES;
use air_sender::TapeMast;
use case_lines::{BadCase, Parts, Player, add_line, play_stdin};
use chunk_program::{PlanFault, Planned};
use item_catalog::read_deck;
use std::alloc::Global;
use std::io;

/// The deck's text in two parts, the edition that is asked about, the mast that gathers a tape, and the indexed tape that is kept.
#[derive(Drop)]
struct ProgramPlayer {
    items: Vec<u8>,
    disks: Vec<u8>,
    edition: u32,
    mast: TapeMast,
    kept: Vec<u8>,
}

impl ProgramPlayer {
    /// Answers a question about the deck.
    fn ask(
        &mut self,
        alloc: Global,
        word: &[u8],
        parts: &mut Parts<'_>,
        came: &mut Vec<u8>,
    ) -> Result<(), NoMemory> {
        let mut text = self.items.clone()?;
        text.extend_from_slice(&self.disks)?;
        if text.len() > MOST_DECK_BYTES {
            parts.refuse(BadCase::NoCall);
            return Ok(());
        }
        let Ok(deck) = read_deck(alloc, &text) else {
            return add_line(b"no deck", &[], came);
        };
        let planned = match Planned::new(alloc, deck) {
            Ok(planned) => planned,
            Err(fault) => return plans::tell_fault(alloc, &fault, came),
        };
        match word {
            b"slots" | b"plan" | b"cut" | b"wait" => {
                plans::tell_edition(alloc, &planned, self.edition, word, parts, came)
            }
            b"in-force" => plans::tell_in_force(&planned, parts, came),
            b"index" => {
                indexes::tell_index(&planned, parts, self.mast.tape(), &mut self.kept, came)
            }
            b"indexed-length" => indexes::tell_indexed_length(&planned, parts, came),
            _ => match boards::started_board(alloc, planned.deck())? {
                Some(board) if planned.deck().items() == board.n() => {
                    airing::tell_aired(alloc, &planned, &board, word, parts, &mut self.mast, came)
                }
                _ => add_line(b"no board", &[], came),
            },
        }
    }
}

impl Player for ProgramPlayer {
    fn play(
        &mut self,
        alloc: Global,
        word: &[u8],
        parts: &mut Parts<'_>,
        came: &mut Vec<u8>,
    ) -> Result<(), NoMemory> {
        match word {
            b"items" => self.items = parts.text(alloc)?,
            b"repeat" => self.items.extend_from_slice(&parts.rows(alloc)?)?,
            b"disks" => self.disks = parts.text(alloc)?,
            b"edition" => self.edition = parts.narrow(),
            b"mast" => self.mast = TapeMast::new(alloc, parts.number())?,
            b"tape" => tapes::add_records(self.mast.tape(), came)?,
            b"clear" => self.mast.clear(),
            b"aim" | b"send" | b"finish" => {
                airing::tell_call(alloc, &mut self.mast, word, parts, came)?;
            }
            b"memory-fault" => plans::tell_fault(alloc, &PlanFault::NoMemory, came)?,
            b"slots" | b"plan" | b"cut" | b"wait" | b"in-force" => {
                self.ask(alloc, word, parts, came)?;
            }
            b"length" | b"air" | b"memory" | b"index" | b"indexed-length" => {
                self.ask(alloc, word, parts, came)?;
            }
            b"keep" => self.kept = parts.bytes(alloc)?,
            b"seek" => indexes::tell_seek(parts, &self.kept, came)?,
            _ => parts.refuse(BadCase::NoSuchWord),
        }
        Ok(())
    }
}

fn main(rt: HostRuntime) -> io::Result<()> {
    let Ok(mast) = TapeMast::new(rt.alloc(), 0) else {
        return Err(io::Error::from(io::ErrorKind::OutOfMemory));
    };
    let mut player = ProgramPlayer {
        items: Vec::new(rt.alloc()),
        disks: Vec::new(rt.alloc()),
        edition: 0,
        mast,
        kept: Vec::new(rt.alloc()),
    };
    play_stdin(&rt, &mut player)
}
