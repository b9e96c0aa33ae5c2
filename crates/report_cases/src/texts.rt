//! A text in which one line is replaced, and a text written in one line.
//!
//! Lines are counted from 1; each ends with a line feed.

use air_base::NoMemory;
use std::alloc::Global;

/// The lines of the text, one of them replaced by another.
pub fn with_line(alloc: Global, text: &[u8], line: u64, other: &[u8]) -> Result<Vec<u8>, NoMemory> {
    let mut out = Vec::new(alloc);
    let mut at = 1_u64;
    for byte in text {
        if *byte == b'\n' {
            if at == line {
                out.extend_from_slice(other)?;
            }
            at = at.saturating_add(1);
            out.push(b'\n')?;
        } else if at != line {
            out.push(*byte)?;
        }
    }
    Ok(out)
}

/// Adds the text in one line, with a bar for each line feed.
pub fn tell(text: &[u8], came: &mut Vec<u8>) -> Result<(), NoMemory> {
    for byte in text {
        came.push(if *byte == b'\n' { b'|' } else { *byte })?;
    }
    came.push(b'\n')?;
    Ok(())
}
