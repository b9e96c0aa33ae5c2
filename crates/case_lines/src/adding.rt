//! Lines of the results of cases: words with numbers, bytes in hexadecimal digits, and a checksum of what is too long to be written out.
//!
//! A caller ends each line with a line feed; the last one may be left out.

use crate::reading::first_part;
use air_base::{NoMemory, write_u64};

/// The hexadecimal digits.
const DIGITS: &[u8; 16] = b"0123456789abcdef";

/// Adds a line: the word, and after it each number with a space before it.
pub fn add_line(word: &[u8], numbers: &[u64], out: &mut Vec<u8>) -> Result<(), NoMemory> {
    out.extend_from_slice(word)?;
    for number in numbers {
        out.push(b' ')?;
        write_u64(*number, out)?;
    }
    out.push(b'\n')?;
    Ok(())
}

/// Adds a line: the word, and after it each entry with a space before it.
pub fn add_entries(word: &[u8], entries: &[u32], out: &mut Vec<u8>) -> Result<(), NoMemory> {
    out.extend_from_slice(word)?;
    for entry in entries {
        out.push(b' ')?;
        write_u64(u64::from(*entry), out)?;
    }
    out.push(b'\n')?;
    Ok(())
}

/// Adds each line of the text that isn't empty, with a leading text before it.
pub fn add_lines(leading: &[u8], text: &[u8], out: &mut Vec<u8>) -> Result<(), NoMemory> {
    let mut rest = text;
    for _ in 0..text.len() {
        let (line, more) = first_part(rest, b'\n');
        if !line.is_empty() {
            out.extend_from_slice(leading)?;
            out.extend_from_slice(line)?;
            out.push(b'\n')?;
        }
        rest = more;
    }
    Ok(())
}

/// Adds two hexadecimal digits for each byte.
pub fn add_hex(bytes: &[u8], out: &mut Vec<u8>) -> Result<(), NoMemory> {
    for byte in bytes {
        out.push(DIGITS[usize::from(*byte / 16)])?;
        out.push(DIGITS[usize::from(*byte % 16)])?;
    }
    Ok(())
}

/// The same, with a space before every four bytes.
pub fn add_hex_words(bytes: &[u8], out: &mut Vec<u8>) -> Result<(), NoMemory> {
    for word in bytes.chunks(4) {
        out.push(b' ')?;
        add_hex(word, out)?;
    }
    Ok(())
}

/// The FNV-1a sum of 64 bits of the bytes.
pub fn sum_of(bytes: &[u8]) -> u64 {
    let mut sum = 0xcbf2_9ce4_8422_2325u64;
    for byte in bytes {
        sum = (sum ^ u64::from(*byte)).wrapping_mul(0x0100_0000_01b3);
    }
    sum
}
