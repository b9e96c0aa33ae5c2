//! Plays cases of reports: read against a deck, written, and audited.
//!
//! `front` begins each text after it, and `repeat` continues it. `deck` reads that text with another at its end as a deck; `report`, `lines`, `rows`
//! and the audits read it as a report of this deck. `line` replaces the line of a number with another text. `put` adds a line to a report, a tag and
//! its numbers, and `write` writes these lines after a text.
#![tactic(auto)]

mod audits;
mod drafts;
mod lines;
mod reports;
mod texts;

use crate::drafts::CaseReport;
use crate::reports::ask;
use air_base::NoMemory;
use air_base::limits::MOST_DECK_BYTES;
use case_lines::{BadCase, Parts, Player, add_line, play_stdin};
use item_catalog::{Deck, DeckError, read_deck};
use std::alloc::Global;
use std::io;

/// The beginning of a text, the deck that was read last, and the lines that are put into a report.
#[derive(Drop)]
struct ReportPlayer {
    front: Vec<u8>,
    deck: Option<Deck>,
    draft: CaseReport,
}

impl ReportPlayer {
    /// The front with a text after it.
    fn text(&self, alloc: Global, parts: &mut Parts<'_>) -> Result<Vec<u8>, NoMemory> {
        let mut text = self.front.clone()?;
        text.extend_from_slice(&parts.text(alloc)?)?;
        Ok(text)
    }

    /// Reads a deck, and keeps it.
    fn read_deck(
        &mut self,
        alloc: Global,
        text: &[u8],
        came: &mut Vec<u8>,
    ) -> Result<(), NoMemory> {
        self.deck = None;
        if text.len() > MOST_DECK_BYTES {
            return add_line(b"too long", &[], came);
        }
        match read_deck(alloc, text) {
            Ok(deck) => self.deck = Some(deck),
            Err(DeckError::Fault(_fault)) => return add_line(b"no deck", &[], came),
            Err(DeckError::NoMemory) => return Err(NoMemory),
        }
        add_line(b"deck", &[], came)
    }

    /// Asks for a report of the deck.
    fn ask(
        &self,
        alloc: Global,
        word: &[u8],
        text: &[u8],
        came: &mut Vec<u8>,
    ) -> Result<(), NoMemory> {
        match &self.deck {
            Some(deck) => ask(alloc, deck, word, text, came),
            None => add_line(b"no deck", &[], came),
        }
    }
}

impl Player for ReportPlayer {
    fn play(
        &mut self,
        alloc: Global,
        word: &[u8],
        parts: &mut Parts<'_>,
        came: &mut Vec<u8>,
    ) -> Result<(), NoMemory> {
        match word {
            b"front" => self.front = parts.text(alloc)?,
            b"repeat" => self.front.extend_from_slice(&parts.rows(alloc)?)?,
            b"put" => self.draft.put(alloc, parts)?,
            b"write" => self.draft.write(alloc, parts, came)?,
            b"deck" => {
                let text = self.text(alloc, parts)?;
                self.read_deck(alloc, &text, came)?;
            }
            b"line" => {
                let line = parts.number();
                let other = parts.text(alloc)?;
                let text = texts::with_line(alloc, &self.front, line, &other)?;
                self.ask(alloc, b"report", &text, came)?;
            }
            b"report" | b"lines" | b"rows" | b"audit" | b"letters" | b"sums" => {
                let text = self.text(alloc, parts)?;
                self.ask(alloc, word, &text, came)?;
            }
            _ => parts.refuse(BadCase::NoSuchWord),
        }
        Ok(())
    }
}

fn main(rt: HostRuntime) -> io::Result<()> {
    let mut player = ReportPlayer {
        front: Vec::new(rt.alloc()),
        deck: None,
        draft: CaseReport::new(rt.alloc()),
    };
    play_stdin(&rt, &mut player)
}
