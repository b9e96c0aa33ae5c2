//! These pins of `air_lanes` say what is found in rows, and what is made of them, for lengths near one block of eight lanes, or
//! a group of thirty-two.
#![tactic(auto)]

ghost use Rattle.std.specs.Prelude.{◌≡◌, [], ◌∷◌, replicate, Some};

use air_lanes::{first_not_below, max_into, stamp};

/// A place whose entries are equal isn't below.
/// Promise: scans and kernels are their definitions
pub fn above_for_not_below(column: &[u32], held: &[u32]) -> Option<usize>
    requires column { column.now ≡ 1 ∷ 1 ∷ 1 ∷ 4 ∷ 1 ∷ 1 ∷ 1 ∷ 1 ∷ [] }
    requires held { held.now ≡ 4 ∷ 4 ∷ 4 ∷ 4 ∷ 4 ∷ 4 ∷ 4 ∷ 4 ∷ [] }
    ensures { result ≡ Some 3 }
{
    first_not_below(column, held)
}

/// The greater entry of each place comes from that place of both rows, in a block and after the last block. It also refuses
/// that the rest is left out.
/// Promise: scans and kernels are their definitions
pub fn lanes_turned_round(dst: &mut [u32], src: &[u32])
    requires dst { dst.old ≡ 1 ∷ 2 ∷ 3 ∷ 4 ∷ 5 ∷ 6 ∷ 7 ∷ 8 ∷ 9 ∷ 10 ∷ [] }
    requires src { src.now ≡ 10 ∷ 9 ∷ 8 ∷ 7 ∷ 6 ∷ 5 ∷ 4 ∷ 3 ∷ 20 ∷ 1 ∷ [] }
    ensures { dst.new ≡ 10 ∷ 9 ∷ 8 ∷ 7 ∷ 6 ∷ 6 ∷ 7 ∷ 8 ∷ 20 ∷ 10 ∷ [] }
{
    max_into(dst, src);
}

/// Each mark other than 0 is one.
/// Promise: scans and kernels are their definitions
pub fn mark_two_not_seen(dst: &mut [u32], marks: &[u32])
    requires dst { dst.old ≡ 1 ∷ 2 ∷ 3 ∷ 4 ∷ 5 ∷ 6 ∷ 7 ∷ 8 ∷ [] }
    requires marks { marks.now ≡ 2 ∷ 0 ∷ 1 ∷ 0 ∷ 0 ∷ 0 ∷ 0 ∷ 0 ∷ [] }
    ensures { dst.new ≡ 9 ∷ 2 ∷ 9 ∷ 4 ∷ 5 ∷ 6 ∷ 7 ∷ 8 ∷ [] }
{
    stamp(dst, marks, 9);
}

/// The places after the last block are searched too, and a block without such a place gives none. It also refuses that such a
/// block gives its last place.
/// Promise: scans and kernels are their definitions
pub fn rest_not_searched(column: &[u32], held: &[u32]) -> Option<usize>
    requires column { column.now ≡ 1 ∷ 1 ∷ 1 ∷ 1 ∷ 1 ∷ 1 ∷ 1 ∷ 1 ∷ 5 ∷ [] }
    requires held { held.now ≡ 4 ∷ 4 ∷ 4 ∷ 4 ∷ 4 ∷ 4 ∷ 4 ∷ 4 ∷ 4 ∷ [] }
    ensures { result ≡ Some 8 }
{
    first_not_below(column, held)
}

/// A group of thirty-two isn't skipped if the entries at one of its places are equal.
/// Promise: scans and kernels are their definitions
pub fn group_tests_above_for_not_below(column: &[u32], held: &[u32]) -> Option<usize>
    requires column { column.now ≡ 4 ∷ replicate 31 1 }
    requires held { held.now ≡ replicate 32 4 }
    ensures { result ≡ Some 0 }
{
    first_not_below(column, held)
}
