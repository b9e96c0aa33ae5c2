//! Tapes written record by record, and read from each of their fronts.
//!
//! A tape and a record are spelled in hexadecimal digits. `fronts` tells what a reader of each front of the last tape answers.

use air_base::{NoMemory, write_u64};
use bucket_codec::{TapeFault, TapeReader, check_tape, tape_record};
use case_lines::{Parts, add_hex, add_line};
use std::alloc::Global;

/// What a slice has at each place before anything is written.
const UNWRITTEN: u8 = 0xee;

/// The record as a tape has it, with this many bytes after it that nothing is written to.
fn on_tape(alloc: Global, record: &[u8], more: u8) -> Result<Vec<u8>, NoMemory> {
    if record.len() > 2000 {
        return Ok(Vec::new(alloc));
    }
    let mut room = vec![in alloc; UNWRITTEN; record.len() + 4 + more as usize]?;
    let len = tape_record(record, &mut room);
    if len != record.len() + 4 {
        room.clear();
    }
    Ok(room)
}

/// Writes the record to the end of the tape, and adds the tape. Adds the record also as it is written to a longer slice.
pub fn write_record(
    alloc: Global,
    parts: &mut Parts<'_>,
    tape: &mut Vec<u8>,
    came: &mut Vec<u8>,
) -> Result<(), NoMemory> {
    let record = parts.bytes(alloc)?;
    tape.extend_from_slice(&on_tape(alloc, &record, 0)?)?;
    came.extend_from_slice(b"tape ")?;
    add_hex(tape, came)?;
    came.extend_from_slice(b"\nlonger ")?;
    add_hex(&on_tape(alloc, &record, 36)?, came)
}

/// Adds four answers of a reader of the tape, and whether the tape is whole.
pub fn read_tape(alloc: Global, tape: &[u8], came: &mut Vec<u8>) -> Result<(), NoMemory> {
    let mut reader = TapeReader::new(tape);
    for _ in 0..4 {
        match reader.next() {
            Ok(Some(record)) => {
                came.extend_from_slice(b" record ")?;
                add_hex(record, came)?;
            }
            Ok(None) => came.extend_from_slice(b" end")?,
            Err(TapeFault::Cut { at }) => {
                came.extend_from_slice(b" cut at ")?;
                write_u64(at, came)?;
            }
        }
    }
    match check_tape(tape) {
        Ok(()) => came.extend_from_slice(b"; whole\n")?,
        Err(fault) => {
            came.extend_from_slice(b"; ")?;
            add_line(fault.to_string(alloc)?.as_bytes(), &[], came)?;
        }
    }
    Ok(())
}

/// Reads each front of the tape.
pub fn read_fronts(alloc: Global, tape: &[u8], came: &mut Vec<u8>) -> Result<(), NoMemory> {
    for len in 0..=tape.len() {
        write_u64(len as u64, came)?;
        read_tape(alloc, &tape[..len], came)?;
    }
    Ok(())
}
