//! Bytes and texts as a case spells them: in hexadecimal digits, or in one line with escapes.
//!
//! `bytes`, `text` and `rows` take all that is left of the case.

use crate::reading::{BadCase, Parts, first_part};
use air_base::{NoMemory, write_u64};
use std::alloc::Global;

/// The value of a hexadecimal digit.
fn digit(byte: u8) -> Option<u8> {
    match byte {
        b'0'..=b'9' => Some(byte - b'0'),
        b'a'..=b'f' => Some(byte - b'a' + 10),
        _ => None,
    }
}

/// The byte of two hexadecimal digits.
fn byte_of(high: u8, low: u8) -> Option<u8> {
    Some(digit(high)? << 4 | digit(low)?)
}

/// The byte that a letter after a backslash stands for.
fn escaped(letter: u8) -> Option<u8> {
    match letter {
        b'n' => Some(b'\n'),
        b'r' => Some(b'\r'),
        b't' => Some(b'\t'),
        b's' => Some(b' '),
        b'\\' => Some(b'\\'),
        _ => None,
    }
}

/// Adds a row: the text, in which each `#` is the row's number.
fn add_row(text: &[u8], row: u64, rows: &mut Vec<u8>) -> Result<(), NoMemory> {
    let mut rest = text;
    for _ in 0..text.len() {
        let (part, more) = first_part(rest, b'#');
        rows.extend_from_slice(part)?;
        if part.len() == rest.len() {
            break;
        }
        write_u64(row, rows)?;
        rest = more;
    }
    Ok(())
}

impl Parts<'_> {
    /// Adds the byte, or notes that there is none.
    fn add_byte(&mut self, byte: Option<u8>, bytes: &mut Vec<u8>) -> Result<(), NoMemory> {
        match byte {
            Some(byte) => bytes.push(byte)?,
            None => self.refuse(BadCase::NoByte),
        }
        Ok(())
    }

    /// The bytes that pairs of hexadecimal digits spell; spaces between pairs are skipped.
    pub fn decode(&mut self, alloc: Global, spelled: &[u8]) -> Result<Vec<u8>, NoMemory> {
        let mut bytes = Vec::new(alloc);
        let mut rest = spelled;
        for _ in 0..spelled.len() {
            rest = match rest {
                [b' ', more @ ..] => more,
                [high, low, more @ ..] => {
                    self.add_byte(byte_of(*high, *low), &mut bytes)?;
                    more
                }
                [_] => {
                    self.refuse(BadCase::NoByte);
                    &[]
                }
                [] => break,
            };
        }
        Ok(bytes)
    }

    /// The bytes that what is left spells.
    pub fn bytes(&mut self, alloc: Global) -> Result<Vec<u8>, NoMemory> {
        let spelled = self.rest();
        self.decode(alloc, spelled)
    }

    /// The text that the rest spells in one line. ` | ` is a line feed, and so is ` |` at the end. `\n`, `\r`, `\t`, `\s` (a space) and `\\` are
    /// these bytes, and `\xff` is the byte of these two digits.
    pub fn text(&mut self, alloc: Global) -> Result<Vec<u8>, NoMemory> {
        let spelled = self.rest();
        let mut text = Vec::new(alloc);
        let mut rest = spelled;
        for _ in 0..spelled.len() {
            rest = match rest {
                [b' ', b'|', b' ', more @ ..] | [b' ', b'|', more @ ..] => {
                    text.push(b'\n')?;
                    more
                }
                [b'\\', b'x', high, low, more @ ..] => {
                    self.add_byte(byte_of(*high, *low), &mut text)?;
                    more
                }
                [b'\\', letter, more @ ..] => {
                    self.add_byte(escaped(*letter), &mut text)?;
                    more
                }
                [byte, more @ ..] => {
                    text.push(*byte)?;
                    more
                }
                [] => break,
            };
        }
        Ok(text)
    }

    /// Rows of a text: their number comes before it, and each `#` is the row's number.
    pub fn rows(&mut self, alloc: Global) -> Result<Vec<u8>, NoMemory> {
        let count = self.number();
        let text = self.text(alloc)?;
        let mut rows = Vec::new(alloc);
        for row in 0..count {
            add_row(&text, row, &mut rows)?;
        }
        Ok(rows)
    }
}
