//! The first place at which a column isn't below what is held.
//!
//! Groups of four blocks are skipped as a whole, with one test each. From the first group that isn't skipped on, blocks of
//! eight are tested, then the places after the last whole block. `held_reads` finds the read that clashes with this call.

ghost use Rattle.std.specs.Prelude.{◌≡◌, ◌≤◌, ◌<◌, ◌+◌, ℕ, length, slice_index};
ghost use Rattle.air_lanes.specs.Kernels.{IsSearchAnswer};

use std::simd::prelude::*;
use std::simd::{u32x8, u32x32};

/// Bits that are 0 only if the column is below what is held at all thirty-two places from `at` on.
fn group_bits(column: &[u32], held: &[u32], at: usize) -> u64
    requires room { at + 32 ≤ length column.now }
    requires same { length held.now ≡ length column.now }
    ensures { result ≡ 0 → (k : ℕ) → k < 32 → slice_index column.now (at + k) < slice_index held.now (at + k) }
{
    let entries = u32x32::from_slice(&column[at..]);
    let cycles = u32x32::from_slice(&held[at..]);
    entries.simd_ge(cycles).to_bitmask()
}

/// How many of the eight places from `at` on come before the first at which the column isn't below what is held.
fn first_in_block(column: &[u32], held: &[u32], at: usize) -> u32
    requires room { at + 8 ≤ length column.now }
    requires same { length held.now ≡ length column.now }
    ensures within { result ≤ 8 }
    ensures reached { result < 8 → slice_index held.now (at + result) ≤ slice_index column.now (at + result) }
    ensures before { (k : ℕ) → k < result → slice_index column.now (at + k) < slice_index held.now (at + k) }
{
    let x = u32x8::from_slice(&column[at..]);
    let y = u32x8::from_slice(&held[at..]);
    let bits = x.simd_ge(y).to_bitmask();
    if bits == 0 { 8 } else { bits.trailing_zeros() }
}

/// The first place from `from` on at which the column isn't below what is held.
fn first_in_rest(column: &[u32], held: &[u32], from: usize) -> Option<usize>
    requires same { length held.now ≡ length column.now }
    requires below { (k : ℕ) → k < from → slice_index column.now k < slice_index held.now k }
    ensures { IsSearchAnswer column.now held.now result }
{
    for place in from..column.len() {
        if column[place] >= held[place] {
            return Some(place);
        }
    }
    None
}

/// The first place at which the column isn't below what is held, if it is below at all places before `from`.
fn first_from(column: &[u32], held: &[u32], from: usize) -> Option<usize>
    requires same { length held.now ≡ length column.now }
    requires within { from ≤ length column.now }
    requires below { (k : ℕ) → k < from → slice_index column.now k < slice_index held.now k }
    ensures { IsSearchAnswer column.now held.now result }
{
    let blocks = (column.len() - from) / 8;
    for block in 0..blocks {
        let before = first_in_block(column, held, from + 8 * block);
        if before < 8 {
            return Some(from + 8 * block + before as usize);
        }
    }
    first_in_rest(column, held, from + 8 * blocks)
}

/// The first place at which the column isn't below what is held; None if and only if there is no such place.
pub fn first_not_below(column: &[u32], held: &[u32]) -> Option<usize>
    requires { length held.now ≡ length column.now }
    ensures { IsSearchAnswer column.now held.now result }
{
    let groups = column.len() / 32;
    for group in 0..groups {
        if group_bits(column, held, 32 * group) != 0 {
            return first_from(column, held, 32 * group);
        }
    }
    first_from(column, held, 32 * groups)
}
