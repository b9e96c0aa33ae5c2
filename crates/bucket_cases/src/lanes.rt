//! The kernels over rows, each compared with a plain loop.
//!
//! They are called with `row` and `other`, which must have the same length. `stamped` takes a cycle, and its marks are `other`.

use air_base::NoMemory;
use air_lanes::{first_not_below, max_into, stamp};
use case_lines::{BadCase, Parts, add_entries, add_line};
use std::alloc::Global;

/// Adds the row if it is short, and whether it is the one that a plain loop leaves.
fn add_row(row: &[u32], plain: &[u32], came: &mut Vec<u8>) -> Result<(), NoMemory> {
    if row.len() < 40 {
        add_entries(b"row", row, came)?;
    }
    if row == plain {
        add_line(b"as by a plain loop, entries", &[row.len() as u64], came)
    } else {
        add_line(b"otherwise than by a plain loop", &[], came)
    }
}

/// The greater of two rows.
pub fn greater(
    alloc: Global,
    dst: &[u32],
    src: &[u32],
    parts: &mut Parts<'_>,
    came: &mut Vec<u8>,
) -> Result<(), NoMemory> {
    let mut left = dst.to_vec(alloc)?;
    if left.len() != src.len() {
        parts.refuse(BadCase::NoCall);
        return Ok(());
    }
    max_into(&mut left, src);
    let mut plain = Vec::new(alloc);
    for (x, y) in dst.iter().zip(src) {
        plain.push(if *x < *y { *y } else { *x })?;
    }
    add_row(&left, &plain, came)
}

/// A row with a cycle stamped into it where a mark isn't 0.
pub fn stamped(
    alloc: Global,
    dst: &[u32],
    marks: &[u32],
    parts: &mut Parts<'_>,
    came: &mut Vec<u8>,
) -> Result<(), NoMemory> {
    let cycle = parts.narrow();
    let mut left = dst.to_vec(alloc)?;
    if left.len() != marks.len() {
        parts.refuse(BadCase::NoCall);
        return Ok(());
    }
    stamp(&mut left, marks, cycle);
    let mut plain = Vec::new(alloc);
    for (x, mark) in dst.iter().zip(marks) {
        plain.push(if *mark == 0 { *x } else { cycle })?;
    }
    add_row(&left, &plain, came)
}

/// The first place at which a column isn't below what is held.
pub fn find(
    column: &[u32],
    held: &[u32],
    parts: &mut Parts<'_>,
    came: &mut Vec<u8>,
) -> Result<(), NoMemory> {
    if column.len() != held.len() {
        parts.refuse(BadCase::NoCall);
        return Ok(());
    }
    let mut plain = None;
    for (place, (entry, cycle)) in column.iter().zip(held).enumerate() {
        if plain.is_none() && *entry >= *cycle {
            plain = Some(place);
        }
    }
    let found = first_not_below(column, held);
    if found != plain {
        return add_line(b"otherwise than by a plain loop", &[], came);
    }
    match found {
        Some(place) => add_line(b"place", &[place as u64], came),
        None => add_line(b"none", &[], came),
    }
}

/// Whether the place is found if the column is as great as what is held at that place too. The column is left as it was.
fn is_found(column: &mut [u32], held: &[u32], place: usize) -> bool {
    if column.len() != held.len() || place >= column.len() {
        return false;
    }
    let before = column[place];
    column[place] = held[place];
    let found = first_not_below(column, held);
    column[place] = before;
    found == Some(place)
}

/// Raises a column that is below what is held to the held entry at one place after another: up to the 300th, and the last. Adds the places that
/// aren't found.
pub fn find_all(column: &mut [u32], held: &[u32], came: &mut Vec<u8>) -> Result<(), NoMemory> {
    for place in 0..column.len() {
        if place >= 300 && place + 1 != column.len() {
            continue;
        }
        if !is_found(column, held, place) {
            add_line(b"not found", &[place as u64], came)?;
        }
    }
    add_line(b"tried", &[column.len() as u64], came)
}
