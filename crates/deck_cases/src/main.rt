//! Plays cases of decks as texts, of the parts of a deck, and of the texts of numbers and lists.
//!
//! `front` begins the text of each deck after it, and `repeat` continues it. `deck` reads that text with another at its end, and `drill` draws a deck
//! from a seed and a size. The questions after that are about parts of this deck. `number`, `list` and `push` take a text, and `write` takes numbers.
#![tactic(auto)]

mod questions;
mod texts;

use air_base::NoMemory;
use air_base::limits::MOST_DECK_BYTES;
use case_lines::{Parts, Player, add_line, play_stdin};
use item_catalog::{Deck, DeckError, MOST_DRILL_SIZE, drill_deck, read_deck};
use std::alloc::Global;
use std::io;

/// The beginning of the text of a deck, and the deck that was read last.
#[derive(Drop)]
struct DeckPlayer {
    front: Vec<u8>,
    deck: Option<Deck>,
}

impl DeckPlayer {
    /// Reads the front with the text after it, and keeps the deck.
    fn read(
        &mut self,
        alloc: Global,
        parts: &mut Parts<'_>,
        came: &mut Vec<u8>,
    ) -> Result<(), NoMemory> {
        let mut text = self.front.clone()?;
        text.extend_from_slice(&parts.text(alloc)?)?;
        self.deck = None;
        if text.len() > MOST_DECK_BYTES {
            return add_line(b"too long", &[], came);
        }
        match read_deck(alloc, &text) {
            Ok(deck) => self.deck = Some(deck),
            Err(DeckError::Fault(fault)) => {
                let numbers = [u64::from(fault.row), u64::from(fault.kind)];
                return add_line(b"fault", &numbers, came);
            }
            Err(DeckError::NoMemory) => return Err(NoMemory),
        }
        add_line(b"deck", &[], came)
    }

    /// Draws the deck of a drill, and keeps it.
    fn drill(
        &mut self,
        alloc: Global,
        parts: &mut Parts<'_>,
        came: &mut Vec<u8>,
    ) -> Result<(), NoMemory> {
        let seed = parts.number();
        let size = parts.number();
        if size < 1 || u64::from(MOST_DRILL_SIZE) < size {
            return add_line(b"not a call", &[], came);
        }
        self.deck = Some(drill_deck(alloc, seed, size as u32)?);
        add_line(b"deck", &[], came)
    }
}

impl Player for DeckPlayer {
    fn play(
        &mut self,
        alloc: Global,
        word: &[u8],
        parts: &mut Parts<'_>,
        came: &mut Vec<u8>,
    ) -> Result<(), NoMemory> {
        match word {
            b"front" => self.front = parts.text(alloc)?,
            b"repeat" => self.front.extend_from_slice(&parts.rows(alloc)?)?,
            b"deck" => self.read(alloc, parts, came)?,
            b"drill" => self.drill(alloc, parts, came)?,
            b"number" => texts::number(&parts.text(alloc)?, came)?,
            b"write" => texts::write(&parts.numbers(alloc)?, came)?,
            b"list" => texts::list(alloc, parts, came)?,
            b"push" => texts::push(alloc, parts.rest(), came)?,
            b"memory" => texts::memory(alloc, came)?,
            _ => {
                let question = questions::question(word, parts);
                match &self.deck {
                    Some(deck) => questions::answer(deck, word, question, came)?,
                    None => add_line(b"no deck", &[], came)?,
                }
            }
        }
        Ok(())
    }
}

fn main(rt: HostRuntime) -> io::Result<()> {
    let mut player = DeckPlayer {
        front: Vec::new(rt.alloc()),
        deck: None,
    };
    play_stdin(&rt, &mut player)
}
