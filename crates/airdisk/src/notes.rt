//! Notes on standard error on a command that was refused, or that gives no verdict: one line for a person, and for words that aren't a valid command
//! also the usage.
//!
//! A note is made after the command has answered, from the same words and files. It changes neither the status nor what was printed. Only a plain
//! file is read again, by `ReadsAgain`: no note has the runtime's files or the shelf, so none can write an output. If a note can't be made, there is
//! none.

mod audits;
mod plans;
mod silences;
mod systems;

use crate::notes::audits::audit_note;
use crate::notes::plans::plan_note;
use crate::notes::silences::deck_silence_note;
use crate::notes::systems::{air_failure_note, failure_note};
use crate::plain_files::ReadsAgain;
use air_base::NoMemory;
use air_base::limits::{MOST_DECK_BYTES, MOST_SLOTS, MOST_TAPE_BYTES};
use air_cli::words::HELP;
use air_devices::NetFailure;
use air_report::Status;
use air_report::reading::limits::MOST_REPORT_BYTES;
use disk_split::MOST_SPLIT;
use fault_notes::{ShownText, deck_note, words_note};
use item_catalog::DeckFault;
use std::alloc::Global;

/// The word at a place; empty if there is none.
pub fn word(words: &[String], place: usize) -> &str {
    match words.get(place) {
        Some(word) => word.as_str(),
        None => "",
    }
}

/// The tape that a command reads: of `seek` the first word after it, of another command the second.
fn tape_word(words: &[String]) -> &str {
    if word(words, 0) == "seek" {
        word(words, 1)
    } else {
        word(words, 2)
    }
}

/// What is wrong with a deck.
fn fault_note<F: ReadsAgain>(
    alloc: Global,
    files: &mut F,
    name: &str,
    fault: DeckFault,
) -> Result<Option<String>, NoMemory> {
    match files.bytes(alloc, name, MOST_DECK_BYTES) {
        Some(bytes) => Ok(Some(deck_note(alloc, name, &bytes, fault)?)),
        None => {
            let name = ShownText::whole(name);
            Ok(Some(format!(in alloc; "{name}: {fault}")?))
        }
    }
}

/// Where a tape is cut.
fn cut_note<F: ReadsAgain>(
    alloc: Global,
    files: &mut F,
    name: &str,
    at: u64,
) -> Result<Option<String>, NoMemory> {
    match files.tape(alloc, name) {
        Some(tape) => Ok(Some(tape.note(alloc, name, at)?)),
        None => {
            let name = ShownText::whole(name);
            Ok(Some(format!(in alloc; "{name}: the record that begins at byte {at} is cut")?))
        }
    }
}

/// How much larger a file is than allowed.
fn size_note<F: ReadsAgain>(
    alloc: Global,
    words: &[String],
    files: &F,
    limit: u64,
) -> Result<Option<String>, NoMemory> {
    let (name, what) = if limit == MOST_DECK_BYTES as u64 {
        (word(words, 1), "deck")
    } else if limit == MOST_REPORT_BYTES as u64 {
        (word(words, 2), "report")
    } else {
        (tape_word(words), "tape")
    };
    let size = files.size(name);
    let name = ShownText::whole(name);
    match size {
        Some(size) => Ok(Some(format!(in alloc;
            "{name}: it has {size} bytes, and a {what} may have {limit}"
        )?)),
        None => Ok(Some(format!(in alloc;
            "{name}: it has more than the {limit} bytes that a {what} may have"
        )?)),
    }
}

/// How long a deck's tape would be; that of `beam` is an indexed one.
fn length_note(alloc: Global, words: &[String], bytes: u64) -> Result<Option<String>, NoMemory> {
    let deck = ShownText::whole(word(words, 1));
    let tape = if word(words, 0) == "beam" {
        "indexed tape"
    } else {
        "tape"
    };
    Ok(Some(format!(in alloc;
        "{deck}: its {tape} would have {bytes} bytes, and a tape may have {MOST_TAPE_BYTES}"
    )?))
}

/// A note on a deck for which no best split is given, or `None` for another status.
fn split_note(alloc: Global, words: &[String], status: Status) -> Result<Option<String>, NoMemory> {
    let deck = ShownText::whole(word(words, 1));
    match status {
        Status::TooMuch { product } => Ok(Some(format!(in alloc;
            "{deck}: the search for its split would have the size {product}, which is its items times its items times its disks, and it may have {MOST_SPLIT}"
        )?)),
        Status::PlanTooLong { slots } => Ok(Some(format!(in alloc;
            "{deck}: its shortest split has {slots} slots, which are its minor cycles times the slots of each, and a program may have {MOST_SLOTS}"
        )?)),
        _ => Ok(None),
    }
}

/// The note on a status, or `None` if there is none.
fn text_of<F: ReadsAgain>(
    alloc: Global,
    words: &[String],
    files: &mut F,
    air: Option<&NetFailure>,
    status: Status,
) -> Result<Option<String>, NoMemory> {
    match status {
        Status::Ok => deck_silence_note(alloc, words, files),
        Status::Words => Ok(Some(words_note(alloc, HELP, words)?)),
        Status::TooMuch { .. } | Status::PlanTooLong { .. } if word(words, 0) == "split" => {
            split_note(alloc, words, status)
        }
        Status::Deck { row, kind } => {
            fault_note(alloc, files, word(words, 1), DeckFault { row, kind })
        }
        Status::ReadFault | Status::WriteFault => failure_note(alloc, words, files, status),
        Status::AirFault { at } => air_failure_note(alloc, air, at),
        Status::TapeCut { at } => cut_note(alloc, files, tape_word(words), at),
        Status::TooLarge { limit } => size_note(alloc, words, files, limit),
        Status::TooLong { bytes } => length_note(alloc, words, bytes),
        Status::PlanTooLong { slots } => plan_note(alloc, words, files, slots),
        _ => audit_note(alloc, words, files, status),
    }
}

/// Writes a note to standard error; a failed write is ignored.
pub fn say<R: Eprint>(rt: &R, note: &str) {
    let _ = eprintln!(rt; "{note}");
}

/// Says that the program is out of memory.
pub fn explain_no_memory<R: Eprint>(rt: &R) {
    let _ = eprintln!(rt; "airdisk: out of memory");
}

/// Writes a note on a command to standard error, if there is one; a failed write is ignored. `air` is what the system said of a mast or an
/// ear.
pub fn explain<R: Eprint, F: ReadsAgain>(
    rt: &R,
    alloc: Global,
    words: &[String],
    files: &mut F,
    air: Option<&NetFailure>,
    status: Status,
) {
    if status == Status::NoMemory {
        explain_no_memory(rt);
        return;
    }
    if let Ok(Some(note)) = text_of(alloc, words, files, air, status) {
        say(rt, note.as_str());
    }
}
