//! Cases of numbers and lists as texts, of the texts of faults, and of a list of texts.
//!
//! They are of calls of `air_base` alone, and of `Vec`.

use air_base::{ListFault, NoMemory, read_list, read_u64, write_u64};
use case_lines::{BadCase, Parts, add_line};
use std::alloc::Global;

/// Adds the number that the text spells.
pub fn number(text: &[u8], came: &mut Vec<u8>) -> Result<(), NoMemory> {
    match read_u64(text) {
        Some(number) => add_line(b"is", &[number], came),
        None => add_line(b"is none", &[], came),
    }
}

/// Adds the list that a text spells, or the text of its fault.
pub fn list(alloc: Global, parts: &mut Parts<'_>, came: &mut Vec<u8>) -> Result<(), NoMemory> {
    let text = parts.text(alloc)?;
    if text.len() >= 1000 {
        parts.refuse(BadCase::NoCall);
        return Ok(());
    }
    match read_list(alloc, &text) {
        Ok(numbers) => add_line(b"numbers", &numbers, came),
        Err(ListFault::NoMemory) => Err(NoMemory),
        Err(fault) => add_line(fault.to_string(alloc)?.as_bytes(), &[], came),
    }
}

/// Writes the numbers one after another.
pub fn write(numbers: &[u64], came: &mut Vec<u8>) -> Result<(), NoMemory> {
    for number in numbers {
        write_u64(*number, came)?;
    }
    Ok(())
}

/// Pushes the text to a list of texts, and adds what the list then has.
pub fn push(alloc: Global, text: &[u8], came: &mut Vec<u8>) -> Result<(), NoMemory> {
    let mut texts = Vec::new(alloc);
    texts.push(Vec::from_slice(alloc, text)?)?;
    add_line(b"texts", &[texts.len() as u64], came)?;
    for text in &texts {
        came.extend_from_slice(text)?;
    }
    Ok(())
}

/// Adds the texts of the two faults for out of memory.
pub fn memory(alloc: Global, came: &mut Vec<u8>) -> Result<(), NoMemory> {
    add_line(NoMemory.to_string(alloc)?.as_bytes(), &[], came)?;
    add_line(ListFault::NoMemory.to_string(alloc)?.as_bytes(), &[], came)
}
