//! Attempts of drawn reads.
//!
//! An attempt tries twenty reads, and holds those that clash with none while there is room. The first `seed` modulo 17 reads are quiet: their entries
//! are below 3, so that they go together. The entries of the others are below their cycle.

use crate::attempts::Attempt;
use air_base::{NoMemory, Policy};
use case_lines::{Parts, add_line, sum_of};
use std::alloc::Global;

/// A row of `n` entries below the limit.
fn drawn(alloc: Global, n: u16, limit: u32, dice: u32) -> Result<Vec<u32>, NoMemory> {
    let mut row = Vec::new(alloc);
    let mut state = dice;
    for _ in 0..n {
        state = state.wrapping_mul(1664525).wrapping_add(1013904223);
        row.push((state >> 8) % limit.max(1))?;
    }
    Ok(row)
}

/// The cycle of a read of a number: from 3 to 9. Under R-Matrix it increases with the number, so that the quiet reads are never late, and most of the
/// others aren't.
fn cycle_of(policy: Policy, number: u32, is_quiet: bool, dice: u32) -> u32 {
    match policy {
        Policy::RMatrix if is_quiet => (number / 2).wrapping_add(3),
        Policy::RMatrix => (3 + (dice >> 16) % 3).wrapping_add(number / 2),
        _ => 3 + (dice >> 16) % 7,
    }
}

/// Plays the attempt of a seed, and adds the result of each read, what is held then, and what is held after all was dropped.
fn play_seed(
    alloc: Global,
    attempt: &mut Attempt,
    policy: Policy,
    n: u16,
    seed: u32,
    came: &mut Vec<u8>,
) -> Result<(), NoMemory> {
    for number in 0..20u32 {
        let dice = seed
            .wrapping_mul(2654435761)
            .wrapping_add(number.wrapping_mul(40503));
        let item = seed.wrapping_add(number.wrapping_mul(5)) % u32::from(n).max(1);
        let is_quiet = number < seed % 17;
        let cycle = cycle_of(policy, number, is_quiet, dice);
        let entries = drawn(alloc, n, if is_quiet { 3 } else { cycle }, dice)?;
        let item = u16::try_from(item).unwrap_or(0);
        attempt.read(item, cycle, &entries, true, came)?;
    }
    attempt.show(came)?;
    attempt.clear();
    attempt.show(came)
}

/// Plays the attempts of a range of seeds: the case has the policy, the number of items, the first seed, and the one after the last. Adds their lines
/// if these are few, or else their number of bytes and their sum.
pub fn play_seeds(
    alloc: Global,
    parts: &mut Parts<'_>,
    came: &mut Vec<u8>,
) -> Result<(), NoMemory> {
    let policy = parts.policy();
    let n = parts.small();
    let from = parts.narrow();
    let to = parts.narrow();
    let mut attempt = Attempt::new(alloc, policy, n)?;
    let mut lines = Vec::new(alloc);
    for seed in from..to {
        play_seed(alloc, &mut attempt, policy, n, seed, &mut lines)?;
    }
    if lines.len() < 1000 {
        came.extend_from_slice(&lines)?;
        return Ok(());
    }
    add_line(b"bytes, sum", &[lines.len() as u64, sum_of(&lines)], came)
}
