//! Tapes that are heard by pieces.
//!
//! `hear` takes the name of a file, its limit and the size of a piece, each `own` for those of the program, and the calls that fail. `fronts` takes
//! the size of a piece.

use crate::decks::planned_deck;
use crate::reports::add_report;
use air_base::NoMemory;
use air_cli::{PieceSizes, file_sessions, piece_sessions};
use air_devices::{MemShelf, Shelf};
use case_lines::{Parts, add_line};
use std::alloc::Global;
use std::thread::Threads;

/// A shelf whose file `tape` has these bytes, and whose calls of these numbers fail.
fn shelf_of(alloc: Global, tape: &[u8], fail: Vec<u64>) -> Result<MemShelf, NoMemory> {
    let mut files = Vec::new(alloc);
    files.push((
        String::from_str(alloc, "tape")?,
        Vec::from_slice(alloc, tape)?,
    ))?;
    MemShelf::new(alloc, files, Vec::new(alloc), 0, fail)
}

/// The report of the deck's readers who hear a named file of the shelf, or why there is none; with pieces of these sizes, or of those of the program.
fn heard<R: Threads + Sync>(
    rt: &R,
    alloc: Global,
    deck: &[u8],
    shelf: &mut MemShelf,
    name: &str,
    sizes: Option<PieceSizes>,
) -> Result<Vec<u8>, NoMemory> {
    let mut came = Vec::new(alloc);
    let Some(planned) = planned_deck(alloc, deck) else {
        add_line(b"no deck", &[], &mut came)?;
        return Ok(came);
    };
    let sessions = match sizes {
        Some(sizes) => piece_sessions(rt, alloc, shelf, name, &planned, sizes),
        None => file_sessions(rt, alloc, shelf, name, &planned),
    };
    match sessions {
        Ok(sessions) => add_report(alloc, Vec::new(alloc), sessions, &mut came)?,
        Err(status) => {
            let line = format!(in alloc; "{status:?}\n")?;
            came.extend_from_slice(line.as_bytes())?;
        }
    }
    Ok(came)
}

/// Lets the readers hear a file, and also adds the number of bytes of the tape that are left.
pub fn hear<R: Threads + Sync>(
    rt: &R,
    alloc: Global,
    deck: &[u8],
    tape: &[u8],
    parts: &mut Parts<'_>,
    came: &mut Vec<u8>,
) -> Result<(), NoMemory> {
    let name = String::from_utf8_lossy(alloc, parts.next())?;
    let is_own = parts.takes(b"own") && parts.takes(b"own");
    let sizes = if is_own {
        None
    } else {
        Some(PieceSizes {
            tape: parts.number() as usize,
            piece: parts.number() as usize,
        })
    };
    let mut shelf = shelf_of(alloc, tape, parts.numbers(alloc)?)?;
    let report = heard(rt, alloc, deck, &mut shelf, &name, sizes)?;
    came.extend_from_slice(&report)?;
    let mut rest = [0; 128];
    match shelf.read("tape", &mut rest) {
        Ok(left) => add_line(b"left", &[left as u64], came),
        Err(_) => add_line(b"left unread", &[], came),
    }
}

/// Lets the readers hear each front of the tape, and adds the lengths at which the result changes, with that result.
pub fn fronts<R: Threads + Sync>(
    rt: &R,
    alloc: Global,
    deck: &[u8],
    tape: &[u8],
    parts: &mut Parts<'_>,
    came: &mut Vec<u8>,
) -> Result<(), NoMemory> {
    let sizes = PieceSizes {
        tape: tape.len(),
        piece: parts.number() as usize,
    };
    let mut last = Vec::new(alloc);
    for length in 0..=tape.len() {
        let front = tape.get(..length).unwrap_or(tape);
        let mut shelf = shelf_of(alloc, front, Vec::new(alloc))?;
        let report = heard(rt, alloc, deck, &mut shelf, "tape", Some(sizes))?;
        if report.as_slice() != last.as_slice() {
            add_line(b"from", &[length as u64], came)?;
            came.extend_from_slice(&report)?;
            last = report;
        }
    }
    Ok(())
}
