//! A tape written with a line for each record, as hexadecimal digits, four bytes to a word.
//!
//! The first word is the record's length.

use air_base::NoMemory;
use case_lines::add_hex_words;

/// Adds a line for each record: its length in four bytes, and that number of bytes. What is left when no record begins there is a line too.
pub fn add_records(tape: &[u8], out: &mut Vec<u8>) -> Result<(), NoMemory> {
    let mut rest = tape;
    for _ in 0..tape.len() {
        let long = match rest {
            [a, b, c, d, ..] => u32::from_be_bytes([*a, *b, *c, *d]) as usize + 4,
            _ => rest.len(),
        };
        if rest.is_empty() {
            break;
        }
        let (record, more) = rest.split_at(long.min(rest.len()));
        out.extend_from_slice(b"record")?;
        add_hex_words(record, out)?;
        out.push(b'\n')?;
        rest = more;
    }
    Ok(())
}
