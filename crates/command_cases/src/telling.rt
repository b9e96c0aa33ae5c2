//! The result of a command, in lines: its status and the status's number, then what it printed, wrote and sent.
//!
//! For a long text or output, its length and its sum are written instead.

use air_base::NoMemory;
use air_devices::{Ear, Heard, MemEar, MemMast, MemShelf};
use air_report::Status;
use case_lines::{add_hex_words, add_line, add_lines, first_part, sum_of};
use std::alloc::Global;

/// The greatest length of a text or an output that is written out. For a longer one the length and the checksum are written.
const MOST_WRITTEN_OUT: usize = 4_000;

/// Adds a word and then the bytes, if there are some; for many bytes the length and the sum.
pub fn add_bytes(word: &[u8], bytes: &[u8], came: &mut Vec<u8>) -> Result<(), NoMemory> {
    if bytes.is_empty() {
        return Ok(());
    }
    if bytes.len() > MOST_WRITTEN_OUT {
        return add_line(word, &[bytes.len() as u64, sum_of(bytes)], came);
    }
    came.extend_from_slice(word)?;
    add_hex_words(bytes, came)?;
    came.push(b'\n')?;
    Ok(())
}

/// Adds the lines of a text, and a line that says so if the last one has no line feed.
fn add_printed(text: &[u8], came: &mut Vec<u8>) -> Result<(), NoMemory> {
    if text.len() > MOST_WRITTEN_OUT {
        return add_bytes(b"prints", text, came);
    }
    add_lines(b"prints ", text, came)?;
    if !text.is_empty() && !text.ends_with(b"\n") {
        add_line(b"no line feed", &[], came)?;
    }
    Ok(())
}

/// Adds the status and its number.
pub fn add_status(alloc: Global, status: Status, came: &mut Vec<u8>) -> Result<(), NoMemory> {
    let number = status.code();
    let line = format!(in alloc; "status {number} {status:?}\n")?;
    came.extend_from_slice(line.as_bytes())?;
    Ok(())
}

/// Adds the status, and what was printed and written; in brief only the status and how long the output is.
pub fn add_end(
    alloc: Global,
    brief: bool,
    status: Status,
    shelf: &MemShelf,
    came: &mut Vec<u8>,
) -> Result<(), NoMemory> {
    add_status(alloc, status, came)?;
    let written = shelf.output("tape").unwrap_or(&[]);
    if brief {
        return add_line(b"writes", &[written.len() as u64], came);
    }
    add_printed(shelf.printed(), came)?;
    add_bytes(b"writes", written, came)
}

/// The number of datagrams that the ear has taken, of `datagrams`: it hears those that are left.
fn taken(ear: &mut MemEar, datagrams: u64) -> u64 {
    let mut left = 0u64;
    for _ in 0..datagrams.saturating_add(2) {
        if let Ok(Heard::Bucket(_)) = ear.hear(&mut [0]) {
            left = left.saturating_add(1);
        }
    }
    datagrams.saturating_sub(left)
}

/// Adds what was sent, with the end, and how many of `datagrams` were taken, if there are any.
pub fn add_air(
    mast: &MemMast,
    ear: &mut MemEar,
    datagrams: u64,
    came: &mut Vec<u8>,
) -> Result<(), NoMemory> {
    add_bytes(b"sends", mast.sent(), came)?;
    if mast.ended() {
        add_line(b"sends the end", &[], came)?;
    }
    if datagrams > 0 {
        add_line(b"takes", &[taken(ear, datagrams)], came)?;
    }
    Ok(())
}

/// The number of lines of the text that begin with this text.
pub fn count_lines(text: &[u8], leading: &[u8]) -> u64 {
    let mut count = 0u64;
    let mut rest = text;
    for _ in 0..text.len() {
        let (line, more) = first_part(rest, b'\n');
        if line.starts_with(leading) {
            count = count.saturating_add(1);
        }
        rest = more;
    }
    count
}

/// Adds the number of each status, also of those that no case ends with.
pub fn add_numbers(alloc: Global, came: &mut Vec<u8>) -> Result<(), NoMemory> {
    let all = [
        Status::Ok,
        Status::Words,
        Status::Deck { row: 1, kind: 1 },
        Status::ReadFault,
        Status::WriteFault,
        Status::NoMemory,
        Status::TapeCut { at: 0 },
        Status::TooLarge { limit: 0 },
        Status::Report { row: 1, kind: 1 },
        Status::Differs,
        Status::AirFault { at: 0 },
        Status::TooMuch { product: 0 },
        Status::TooLong { bytes: 0 },
        Status::PlanTooLong { slots: 0 },
    ];
    for status in all {
        add_status(alloc, status, came)?;
    }
    Ok(())
}
