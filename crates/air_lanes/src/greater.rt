//! The greater of two lists, place by place.
//!
//! The three calls are for one block of eight, for the places after the last whole block, and for the whole list.
//! `control_matrix` gathers columns with the last.

ghost use Rattle.std.specs.Prelude.{◌≡◌, ◌≤◌, ◌<◌, ◌+◌, ◌⊎◌, ℕ, length, max, slice_index};
ghost use Rattle.air_lanes.specs.Kernels.{greater_of_each};

use std::simd::prelude::*;
use std::simd::u32x8;

/// Puts the greater of the two entries into each of the eight places from `at` on.
fn max_block(dst: &mut [u32], src: &[u32], at: usize)
    requires room { at + 8 ≤ length dst.old }
    requires same { length src.now ≡ length dst.old }
    ensures inside { (k : ℕ) → k < 8 →
        slice_index dst.new (at + k) ≡ max (slice_index dst.old (at + k)) (slice_index src.now (at + k)) }
    ensures outside { (k : ℕ) → (k < at) ⊎ (at + 8 ≤ k) → slice_index dst.new k ≡ slice_index dst.old k }
{
    let x = u32x8::from_slice(&dst[at..]);
    let y = u32x8::from_slice(&src[at..]);
    x.simd_max(y).copy_to_slice(&mut dst[at..]);
}

/// Puts the greater of the two entries into each place from `from` on.
fn max_rest(dst: &mut [u32], src: &[u32], from: usize)
    requires { length src.now ≡ length dst.old }
    ensures before { (k : ℕ) → k < from → slice_index dst.new k ≡ slice_index dst.old k }
    ensures rest { (k : ℕ) → from ≤ k → k < length dst.old →
        slice_index dst.new k ≡ max (slice_index dst.old k) (slice_index src.now k) }
{
    for place in from..dst.len() {
        dst[place] = dst[place].max(src[place]);
    }
}

/// Puts the greater of the two entries into each place.
pub fn max_into(dst: &mut [u32], src: &[u32])
    requires { length src.now ≡ length dst.old }
    ensures { dst.new ≡ greater_of_each dst.old src.now }
{
    let whole = dst.len() / 8;
    for block in 0..whole {
        max_block(dst, src, 8 * block);
    }
    max_rest(dst, src, 8 * whole);
}
