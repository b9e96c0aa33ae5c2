//! Cases of the slow calls: what they find in a history.
//!
//! A column is written as its entries that aren't 0, each with its item: ` 3=7`.

use air_base::{NoMemory, write_u64};
use air_history::{History, column_scan, descends, table_of, writer_at};
use case_lines::{BadCase, Parts, add_line};
use std::alloc::Global;

/// Adds each entry that is not 0, with the item whose place it is.
pub fn add_entries(entries: &[u32], out: &mut Vec<u8>) -> Result<(), NoMemory> {
    for (item, entry) in entries.iter().enumerate() {
        if *entry > 0 {
            out.push(b' ')?;
            write_u64(item as u64, out)?;
            out.push(b'=')?;
            write_u64(u64::from(*entry), out)?;
        }
    }
    out.push(b'\n')?;
    Ok(())
}

/// Adds the places that are marked.
fn add_marked(marks: &[bool], out: &mut Vec<u8>) -> Result<(), NoMemory> {
    for (place, marked) in marks.iter().enumerate() {
        if *marked {
            out.push(b' ')?;
            write_u64(place as u64, out)?;
        }
    }
    out.push(b'\n')?;
    Ok(())
}

/// The numbers of events and of starts, and the places of the starts.
pub fn tell_history(history: &History, came: &mut Vec<u8>) -> Result<(), NoMemory> {
    add_line(b"events", &[history.len()], came)?;
    add_line(b"starts", &[u64::from(history.starts())], came)?;
    for place in 0..history.len() {
        if history.event(place).is_start() {
            add_line(b"a start at", &[place], came)?;
        }
    }
    Ok(())
}

/// For each place, the places from which its event descends.
pub fn tell_descents(alloc: Global, history: &History, came: &mut Vec<u8>) -> Result<(), NoMemory> {
    for place in 0..history.len() {
        write_u64(place, came)?;
        came.extend_from_slice(b" descends from")?;
        add_marked(&descends(alloc, history, place)?, came)?;
    }
    Ok(())
}

/// The values after the first events.
pub fn tell_table(
    alloc: Global,
    history: &History,
    first: &[u64],
    parts: &mut Parts<'_>,
    came: &mut Vec<u8>,
) -> Result<(), NoMemory> {
    let upto = parts.number();
    if first.len() > 1000 || !history.fits(first.len() as u16) || upto > history.len() {
        parts.refuse(BadCase::NoCall);
        return Ok(());
    }
    let mut values = first.to_vec(alloc)?;
    table_of(history, upto, &mut values);
    add_line(b"values", &values, came)
}

/// For each item, its last writer before the cycle and its control column then.
pub fn tell_scan(
    alloc: Global,
    history: &History,
    first: &[u64],
    parts: &mut Parts<'_>,
    came: &mut Vec<u8>,
) -> Result<(), NoMemory> {
    let cycle = parts.narrow();
    if first.len() > 1000 || !history.fits(first.len() as u16) || cycle > history.starts() {
        parts.refuse(BadCase::NoCall);
        return Ok(());
    }
    for item in 0..first.len() as u16 {
        write_u64(u64::from(item), came)?;
        match writer_at(history, cycle, item) {
            Some(place) => {
                came.extend_from_slice(b" last written at ")?;
                write_u64(place, came)?;
            }
            None => came.extend_from_slice(b" not written")?,
        }
        let mut column = vec![in alloc; 7; first.len()]?;
        column_scan(alloc, history, cycle, item, &mut column)?;
        came.extend_from_slice(b", column")?;
        add_entries(&column, came)?;
    }
    Ok(())
}
