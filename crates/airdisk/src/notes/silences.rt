//! Notes on a deck without a fault that gives no verdict.

use crate::notes::word;
use crate::plain_files::ReadsAgain;
use air_base::NoMemory;
use fault_notes::silence_note;
use std::alloc::Global;

/// The greatest size of a deck that is read again after status 0, in bytes, so that this takes little time.
const QUICK_BYTES: usize = 1_000_000;

/// Whether a line is a record of the script that has a start.
fn has_start(line: &[u8]) -> bool {
    line.starts_with(b"script,") && line.iter().filter(|byte| **byte == b's').count() > 1
}

/// Whether the text of a deck without a fault shows that it gives verdicts: it has a query, and a start if its script decides which cycles start.
/// The text of a deck that gives verdicts may also not show it.
fn asks_plainly(text: &[u8], by_script: bool) -> bool {
    let mut asks = false;
    let mut starts = !by_script;
    for line in text.split(|byte| *byte == b'\n') {
        asks = asks || line.starts_with(b"query,");
        starts = starts || has_start(line);
    }
    asks && starts
}

/// A note that the deck of a command with readers gives no verdict, or `None`; also `None` if the deck is large. The deck is read as a deck only
/// if its text doesn't show that it gives verdicts.
pub fn deck_silence_note<F: ReadsAgain>(
    alloc: Global,
    words: &[String],
    files: &mut F,
) -> Result<Option<String>, NoMemory> {
    let command = word(words, 0);
    let by_script = command == "script";
    if !by_script && command != "tune" && command != "run" && command != "listen" {
        return Ok(None);
    }
    let name = word(words, 1);
    match files.size(name) {
        Some(size) if size <= QUICK_BYTES as u64 => {}
        _ => return Ok(None),
    }
    match files.bytes(alloc, name, QUICK_BYTES) {
        Some(text) if !asks_plainly(&text, by_script) => {}
        _ => return Ok(None),
    }
    match files.deck(alloc, name) {
        Some(deck) => silence_note(alloc, name, &deck, by_script),
        None => Ok(None),
    }
}
