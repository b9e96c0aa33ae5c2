//! A cycle stamped into a list at each place where another list has a mark.
//!
//! The three calls are for one block of eight, for the places after the last whole block, and for the whole list.
//! `control_matrix` marks with the last what a commit wrote.

ghost use Rattle.std.specs.Prelude.{◌≡◌, ◌≤◌, ◌<◌, ◌+◌, ◌⊎◌, ◌==◌, ℕ, length, slice_index, if◌then◌else◌};
ghost use Rattle.air_lanes.specs.Kernels.{stamp_each};

use std::simd::prelude::*;
use std::simd::u32x8;

/// Puts the cycle into each of the eight places from `at` on whose mark isn't 0.
fn stamp_block(dst: &mut [u32], marks: &[u32], cycle: u32, at: usize)
    requires room { at + 8 ≤ length dst.old }
    requires same { length marks.now ≡ length dst.old }
    ensures inside { (k : ℕ) → k < 8 →
        slice_index dst.new (at + k) ≡ (if slice_index marks.now (at + k) == 0 then slice_index dst.old (at + k) else cycle) }
    ensures outside { (k : ℕ) → (k < at) ⊎ (at + 8 ≤ k) → slice_index dst.new k ≡ slice_index dst.old k }
{
    let x = u32x8::from_slice(&dst[at..]);
    let m = u32x8::from_slice(&marks[at..]);
    let unmarked = m.simd_eq(u32x8::splat(0));
    unmarked
        .select(x, u32x8::splat(cycle))
        .copy_to_slice(&mut dst[at..]);
}

/// Puts the cycle into each place from `from` on whose mark isn't 0.
fn stamp_rest(dst: &mut [u32], marks: &[u32], cycle: u32, from: usize)
    requires { length marks.now ≡ length dst.old }
    ensures before { (k : ℕ) → k < from → slice_index dst.new k ≡ slice_index dst.old k }
    ensures rest { (k : ℕ) → from ≤ k → k < length dst.old →
        slice_index dst.new k ≡ (if slice_index marks.now k == 0 then slice_index dst.old k else cycle) }
{
    for place in from..dst.len() {
        if marks[place] != 0 {
            dst[place] = cycle;
        }
    }
}

/// Puts the cycle into each place whose mark isn't 0, and leaves the others.
pub fn stamp(dst: &mut [u32], marks: &[u32], cycle: u32)
    requires { length marks.now ≡ length dst.old }
    ensures { dst.new ≡ stamp_each cycle marks.now dst.old }
{
    let whole = dst.len() / 8;
    for block in 0..whole {
        stamp_block(dst, marks, cycle, 8 * block);
    }
    stamp_rest(dst, marks, cycle, 8 * whole);
}
