//! Shelves: their calls, through the trait alone, and what the one in memory holds.
//!
//! The shelf in memory has the file `deck` of seven bytes, and the outputs `tape` and `report`.

use air_base::NoMemory;
use air_devices::{Failed, MemShelf, ReadFileError, Shelf, read_file};
use case_lines::{Parts, add_line};
use std::alloc::Global;

/// A shelf in memory: its room, and the calls that fail.
pub fn new_shelf(alloc: Global, parts: &mut Parts<'_>) -> Result<MemShelf, NoMemory> {
    let room = parts.number() as usize;
    let fail = parts.numbers(alloc)?;
    let mut files = Vec::new(alloc);
    let bytes = Vec::from_slice(alloc, b"item,0\n")?;
    files.push((String::from_str(alloc, "deck")?, bytes))?;
    let mut outputs = Vec::new(alloc);
    outputs.push(String::from_str(alloc, "tape")?)?;
    outputs.push(String::from_str(alloc, "report")?)?;
    MemShelf::new(alloc, files, outputs, room, fail)
}

/// Adds bytes of text in one line: a line feed is `\n`.
pub fn add_text(text: &[u8], came: &mut Vec<u8>) -> Result<(), NoMemory> {
    for byte in text {
        if *byte == b'\n' {
            came.extend_from_slice(b"\\n")?;
        } else {
            came.push(*byte)?;
        }
    }
    came.push(b'\n')?;
    Ok(())
}

/// Adds what a read gave.
fn add_read(answer: Result<&[u8], ReadFileError>, came: &mut Vec<u8>) -> Result<(), NoMemory> {
    match answer {
        Ok(bytes) => {
            came.extend_from_slice(b"bytes ")?;
            add_text(bytes, came)
        }
        Err(ReadFileError::Failed) => add_text(b"failed", came),
        Err(ReadFileError::TooLarge) => add_text(b"too large", came),
        Err(ReadFileError::NoMemory) => Err(NoMemory),
    }
}

/// Adds whether a call was done.
pub fn add_done(answer: Result<(), Failed>, came: &mut Vec<u8>) -> Result<(), NoMemory> {
    match answer {
        Ok(()) => add_text(b"done", came),
        Err(_) => add_text(b"failed", came),
    }
}

/// Reads at most four bytes.
fn read_four<S: Shelf>(shelf: &mut S, name: &str, came: &mut Vec<u8>) -> Result<(), NoMemory> {
    let mut buf = [0; 4];
    match shelf.read(name, &mut buf) {
        Ok(count) => add_read(Ok(&buf[..count]), came),
        Err(_) => add_read(Err(ReadFileError::Failed), came),
    }
}

/// Makes a call of any shelf, and adds what it answered.
pub fn play_call<S: Shelf>(
    alloc: Global,
    shelf: &mut S,
    call: &[u8],
    name: &str,
    parts: &mut Parts<'_>,
    came: &mut Vec<u8>,
) -> Result<(), NoMemory> {
    match call {
        b"pick" => add_done(shelf.pick(name), came),
        b"read" => read_four(shelf, name, came),
        b"create" => add_done(shelf.create(name), came),
        b"append" => add_done(shelf.append(name, &parts.text(alloc)?), came),
        b"print" => add_done(shelf.print(&parts.text(alloc)?), came),
        _ => match read_file(alloc, shelf, name, parts.number() as usize) {
            Ok(whole) => add_read(Ok(&whole), came),
            Err(error) => add_read(Err(error), came),
        },
    }
}

/// Adds what an output holds, if there is such an output.
fn add_output(shelf: &MemShelf, name: &str, came: &mut Vec<u8>) -> Result<(), NoMemory> {
    came.extend_from_slice(name.as_bytes())?;
    came.push(b' ')?;
    match shelf.output(name) {
        Some(bytes) => add_text(bytes, came),
        None => add_text(b"is no output", came),
    }
}

/// Adds what the shelf in memory holds.
pub fn add_held(shelf: &MemShelf, came: &mut Vec<u8>) -> Result<(), NoMemory> {
    add_output(shelf, "tape", came)?;
    add_output(shelf, "report", came)?;
    add_output(shelf, "deck", came)?;
    came.extend_from_slice(b"printed ")?;
    add_text(shelf.printed(), came)
}

/// Adds what the refusals of the devices print.
pub fn add_refusals(alloc: Global, came: &mut Vec<u8>) -> Result<(), NoMemory> {
    add_line(Failed.to_string(alloc)?.as_bytes(), &[], came)?;
    let failed = ReadFileError::Failed.to_string(alloc)?;
    add_line(failed.as_bytes(), &[], came)?;
    let too_large = ReadFileError::TooLarge.to_string(alloc)?;
    add_line(too_large.as_bytes(), &[], came)?;
    let no_memory = ReadFileError::NoMemory.to_string(alloc)?;
    add_line(no_memory.as_bytes(), &[], came)
}
