//! The quotes of a text, and its encoding.

use crate::records::{Kind, find, line_at};
use air_base::NoMemory;
use std::alloc::Global;

/// The byte order mark of UTF-8, which a deck may begin with.
const MARK: &[u8] = &[0xef, 0xbb, 0xbf];

/// The byte order marks of UTF-16.
const MARKS_16: [&[u8]; 2] = [&[0xff, 0xfe], &[0xfe, 0xff]];

/// The state of a csv reader at a place of a text: at the start of a field, in a field without quotes, within quotes, or after a quote within quotes.
#[derive(Clone, Copy, PartialEq, Eq)]
enum CsvState {
    Start,
    Plain,
    Quoted,
    Quote,
}

impl CsvState {
    /// The state after a byte.
    fn after(self, byte: u8) -> CsvState {
        match self {
            CsvState::Quoted if byte == b'"' => CsvState::Quote,
            CsvState::Quoted => CsvState::Quoted,
            CsvState::Start | CsvState::Quote if byte == b'"' => CsvState::Quoted,
            _ if byte == b',' || byte == b'\n' || byte == b'\r' => CsvState::Start,
            _ => CsvState::Plain,
        }
    }
}

/// Whether a text is UTF-16: by its byte order mark, or since one of its first two bytes is 0.
pub fn is_utf_16(bytes: &[u8]) -> bool {
    for mark in MARKS_16 {
        if bytes.starts_with(mark) {
            return true;
        }
    }
    match bytes {
        [first, second, ..] => (*first == 0) != (*second == 0),
        _ => false,
    }
}

/// The text without its byte order mark, if it has one.
fn without_mark(bytes: &[u8]) -> &[u8] {
    match bytes.strip_prefix(MARK) {
        Some(rest) => rest,
        None => bytes,
    }
}

/// The place of an opening quote that never closes, or `None`.
fn open_quote(bytes: &[u8]) -> Option<u64> {
    let mut state = CsvState::Start;
    let mut opened = 0;
    for (at, byte) in bytes.iter().enumerate() {
        let next = state.after(*byte);
        if state == CsvState::Start && next == CsvState::Quoted {
            opened = at as u64;
        }
        state = next;
    }
    if state == CsvState::Quoted {
        Some(opened)
    } else {
        None
    }
}

/// The line of an opening quote that never closes, if it is in the record of this row number.
pub fn open_quote_line(alloc: Global, bytes: &[u8], row: u32) -> Result<Option<u64>, NoMemory> {
    let text = without_mark(bytes);
    let Some(opened) = open_quote(text) else {
        return Ok(None);
    };
    // a record with such a quote is the last one
    match find(alloc, bytes, row.saturating_add(1))?.kind {
        Kind::End => Ok(Some(line_at(text, opened))),
        _ => Ok(None),
    }
}
