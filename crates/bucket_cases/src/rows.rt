//! The rows that the kernels go over: spelled entry by entry, or made.
//!
//! `drawn LENGTH SEED FROM` draws the entries from a place on, and `rising LENGTH FIRST PERIOD` counts up.

use air_base::NoMemory;
use case_lines::Parts;
use std::alloc::Global;

/// A row of that many entries by a linear congruence, half of them from 2^31 on; those before a place are 0.
fn drawn(alloc: Global, length: u64, seed: u32, from: u64) -> Result<Vec<u32>, NoMemory> {
    let mut row = Vec::new(alloc);
    let mut state = seed;
    for place in 0..length {
        state = state.wrapping_mul(1664525).wrapping_add(1013904223);
        row.push(if place < from { 0 } else { state })?;
    }
    Ok(row)
}

/// A row of that many entries that go up by one from the first, and begin again after a period.
fn rising(alloc: Global, length: u64, first: u32, period: u32) -> Result<Vec<u32>, NoMemory> {
    let mut row = Vec::new(alloc);
    let mut step = 0u32;
    for _ in 0..length {
        row.push(first.wrapping_add(step))?;
        step = step.wrapping_add(1);
        if step >= period {
            step = 0;
        }
    }
    Ok(row)
}

/// The row that a case spells.
pub fn row(alloc: Global, parts: &mut Parts<'_>) -> Result<Vec<u32>, NoMemory> {
    if parts.takes(b"drawn") {
        return drawn(alloc, parts.number(), parts.narrow(), parts.number());
    }
    if parts.takes(b"rising") {
        return rising(alloc, parts.number(), parts.narrow(), parts.narrow());
    }
    parts.entries(alloc)
}
