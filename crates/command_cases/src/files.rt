//! The files of the cases: a deck, and a tape or a report.
//!
//! `deck` and `report` take a text, `tape` its bytes in hexadecimal digits. `more`, `bytes` and `repeat` continue the file that was begun last, and
//! `name` sets the name by which notes call it.

use crate::settings::Settings;
use air_base::NoMemory;
use air_devices::MemShelf;
use case_lines::{Parts, first_part};
use std::alloc::Global;

/// The files of the shelf, and the name by which notes call them. The second is a tape or a report; its name on the shelf is `tape`, and so is that
/// of the one output.
#[derive(Drop)]
pub struct Files {
    pub deck: Vec<u8>,
    pub tape: Vec<u8>,
    pub name: Vec<u8>,
    to_deck: bool,
}

impl Files {
    /// Two empty files.
    pub fn new(alloc: Global) -> Files {
        Files {
            deck: Vec::new(alloc),
            tape: Vec::new(alloc),
            name: Vec::new(alloc),
            to_deck: true,
        }
    }

    /// Begins a file anew with these bytes: the deck, or the tape.
    pub fn begin(&mut self, to_deck: bool, bytes: Vec<u8>) {
        self.to_deck = to_deck;
        if to_deck {
            self.deck = bytes;
        } else {
            self.tape = bytes;
        }
    }

    /// Adds the bytes to the file that was begun last.
    fn add(&mut self, bytes: &[u8]) -> Result<(), NoMemory> {
        let file = if self.to_deck {
            &mut self.deck
        } else {
            &mut self.tape
        };
        file.extend_from_slice(bytes)?;
        Ok(())
    }

    /// Begins or continues a file, if the word says so, and returns whether it does.
    pub fn put(
        &mut self,
        alloc: Global,
        word: &[u8],
        parts: &mut Parts<'_>,
    ) -> Result<bool, NoMemory> {
        match word {
            b"deck" => self.begin(true, parts.text(alloc)?),
            b"report" => self.begin(false, parts.text(alloc)?),
            b"tape" => self.begin(false, parts.bytes(alloc)?),
            b"name" => self.name = parts.text(alloc)?,
            b"more" => self.add(&parts.text(alloc)?)?,
            b"bytes" => self.add(&parts.bytes(alloc)?)?,
            b"repeat" => self.add(&parts.rows(alloc)?)?,
            _ => return Ok(false),
        }
        Ok(true)
    }

    /// The tape, cut and changed as it is set, or the report without a line.
    fn tape_for(&self, alloc: Global, settings: &Settings) -> Result<Vec<u8>, NoMemory> {
        let mut tape = match settings.line {
            Some(line) => without_line(alloc, &self.tape, line)?,
            None => self.tape.clone()?,
        };
        if let Some(length) = settings.cut {
            tape.truncate(length);
        }
        if let Some(at) = settings.flip
            && at < tape.len()
        {
            tape[at] ^= 128;
        }
        Ok(tape)
    }

    /// A shelf with the files, as it is set.
    pub fn shelf(&self, alloc: Global, settings: &Settings) -> Result<MemShelf, NoMemory> {
        let mut files = Vec::new(alloc);
        files.push((String::from_str(alloc, "deck")?, self.deck.clone()?))?;
        files.push((
            String::from_str(alloc, "tape")?,
            self.tape_for(alloc, settings)?,
        ))?;
        let mut outputs = Vec::new(alloc);
        outputs.push(String::from_str(alloc, "tape")?)?;
        MemShelf::new(alloc, files, outputs, settings.room, settings.fail.clone()?)
    }
}

/// The text without the line of this number; the first is 1.
fn without_line(alloc: Global, text: &[u8], number: u64) -> Result<Vec<u8>, NoMemory> {
    let mut kept = Vec::new(alloc);
    let mut rest = text;
    let mut at = 0u64;
    for _ in 0..text.len() {
        if rest.is_empty() {
            break;
        }
        let (line, more) = first_part(rest, b'\n');
        at = at.saturating_add(1);
        if at != number {
            kept.extend_from_slice(line)?;
            kept.push(b'\n')?;
        }
        rest = more;
    }
    Ok(kept)
}
