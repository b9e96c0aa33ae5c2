//! A short column from the entries of a history.
//!
//! Entries that are too old for an age are left out, as those that are 0. What comes before and after the short column in `out`
//! isn't changed.

ghost use Rattle.std.specs.Prelude.{◌≡◌, ◌≤◌, ◌<◌, ◌+◌, ◌*◌, ◌++◌, ◌^◌, ◌∷◌, [], nat_lt, All, drop, length, take};
ghost use Rattle.std.specs.List.{flat_map};
ghost use Rattle.byteorder.specs.Endian.{big_bytes};
ghost use Rattle.air_history.specs.Ages.{capped};
ghost use Rattle.short_columns.specs.Listings.{all_capped, is_short, listed};
ghost use Rattle.short_columns.specs.ShortColumns.{pair_spelling, short_spelling};

use air_base::limits::AGE_CAP;
use byteorder::{BigEndian, ByteOrder};

/// The bytes of the number of pairs.
pub const COUNT_BYTES: usize = 2;

/// The bytes of an item and its age.
pub const PAIR_BYTES: usize = 3;

/// Whether a column of `n` items is short if `k` of its entries are above 0.
pub fn is_short(n: usize, k: usize) -> bool
    ensures { result ≡ is_short n k }
{
    k < n / PAIR_BYTES
}

/// Whether an entry is listed in a cycle: it is above 0, and an age gives it.
fn is_listed(cycle: u32, entry: u32) -> bool
    ensures { result ≡ nat_lt 0 (capped entry cycle) }
{
    (entry > 0) & (cycle.saturating_sub(entry) < AGE_CAP)
}

/// The number of entries that are listed in a cycle.
pub fn count_listed(cycle: u32, entries: &[u32]) -> usize
    ensures { result ≡ length (listed (all_capped cycle entries.now)) }
{
    let mut count = 0;
    for entry in entries {
        if is_listed(cycle, *entry) {
            count += 1;
        }
    }
    count
}

/// Writes two bytes at a place.
fn put_two(out: &mut [u8], at: usize, n: u16)
    requires { at + 2 ≤ length out.old }
    ensures { out.new ≡ take at out.old ++ (big_bytes 2 n ++ drop (at + 2) out.old) }
{
    BigEndian::write_u16(&mut out[at..], n);
}

/// Writes an item and the age of its entry at a place.
fn put_pair(out: &mut [u8], at: usize, item: u16, age: u8)
    requires { at + PAIR_BYTES ≤ length out.old }
    ensures { out.new ≡ take at out.old ++ ((big_bytes 2 item ++ age ∷ []) ++ drop (at + PAIR_BYTES) out.old) }
{
    put_two(out, at, item);
    out[at + 2] = age;
}

/// Writes the pairs of the listed entries from a place on.
fn put_pairs(out: &mut [u8], at: usize, cycle: u32, entries: &[u32])
    requires room { at + PAIR_BYTES * length (listed (all_capped cycle entries.now)) ≤ length out.old }
    requires below { All (λ e. e < cycle) entries.now }
    requires few { length entries.now < 2 ^ 16 }
    ensures { let pairs = listed (all_capped cycle entries.now) in
        out.new ≡ take at out.old ++ (flat_map (pair_spelling cycle) pairs ++ drop (at + PAIR_BYTES * length pairs) out.old) }
{
    let mut next = at;
    for (i, entry) in entries.iter().enumerate() {
        if is_listed(cycle, *entry) {
            put_pair(out, next, i as u16, (cycle - *entry) as u8);
            next += PAIR_BYTES;
        }
    }
}

/// Writes the short column of a history's entries at a place. The caller has counted those that are listed.
pub fn put_short(out: &mut [u8], at: usize, count: u16, cycle: u32, entries: &[u32])
    requires counted { count ≡ length (listed (all_capped cycle entries.now)) }
    requires room { at + COUNT_BYTES + PAIR_BYTES * count ≤ length out.old }
    requires below { All (λ e. e < cycle) entries.now }
    requires few { length entries.now < 2 ^ 16 }
    ensures { out.new ≡ take at out.old ++ (short_spelling cycle (listed (all_capped cycle entries.now)) ++ drop (at + COUNT_BYTES + PAIR_BYTES * count) out.old) }
{
    put_two(out, at, count);
    put_pairs(out, at + COUNT_BYTES, cycle, entries);
}
