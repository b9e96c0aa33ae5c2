//! A short column in its bytes.
//!
//! It begins at a place in the bytes. `has_listing` tests all of it; the readers read it again.

ghost use Rattle.std.specs.Prelude.{◌≡◌, ◌≤◌, ◌<◌, ◌+◌, ◌-◌, ◌*◌, ◌&&◌, nat_lt, nat_le, true, length, slice_index};
ghost use Rattle.short_columns.specs.Listings.{listed_entry};
ghost use Rattle.short_columns.specs.ShortColumns.{is_listing, is_young_age, two_at, pairs_at, short_entries};

use crate::writing::{COUNT_BYTES, PAIR_BYTES};
use air_base::limits::AGE_CAP;
use byteorder::{BigEndian, ByteOrder};

/// The number in the two bytes from a place.
fn two_at(bytes: &[u8], at: usize) -> u16
    requires { at + 2 ≤ length bytes.now }
    ensures { result ≡ two_at at bytes.now }
{
    BigEndian::read_u16(&bytes[at..])
}

/// The number of pairs of the short column at a place.
pub fn count_at(bytes: &[u8], at: usize) -> u16
    requires { at + COUNT_BYTES ≤ length bytes.now }
    ensures { result ≡ two_at at bytes.now }
{
    two_at(bytes, at)
}

/// Item `j` of the short column at a place.
fn item_at(bytes: &[u8], at: usize, j: u16) -> u16
    requires { at + COUNT_BYTES + PAIR_BYTES * j + PAIR_BYTES ≤ length bytes.now }
    ensures { result ≡ two_at (at + 2 + 3 * j) bytes.now }
{
    two_at(bytes, at + COUNT_BYTES + PAIR_BYTES * j as usize)
}

/// The age of item `j`.
fn age_at(bytes: &[u8], at: usize, j: u16) -> u8
    requires { at + COUNT_BYTES + PAIR_BYTES * j + PAIR_BYTES ≤ length bytes.now }
    ensures { result ≡ slice_index bytes.now (at + 4 + 3 * j) }
{
    bytes[at + COUNT_BYTES + PAIR_BYTES * j as usize + 2]
}

/// Whether a listed entry can have this age in a cycle.
#[tactic(auto, unfolding(crate::specs::ShortColumns::is_young_age))]
fn is_young_age(cycle: u32, age: u8) -> bool
    ensures { result ≡ is_young_age cycle age }
{
    (age >= 1) & (u32::from(age) < AGE_CAP) & (u32::from(age) < cycle)
}

/// Whether an item and its age may follow items below `low`.
fn may_follow(low: u16, n: u16, cycle: u32, item: u16, age: u8) -> bool
    ensures { result ≡ (nat_le low item && nat_lt item n && is_young_age cycle age) }
{
    (low <= item) & (item < n) & is_young_age(cycle, age)
}

/// Whether the bytes from a place on give pairs for `n` items in a cycle.
pub fn has_listing(bytes: &[u8], at: usize, n: u16, cycle: u32) -> bool
    requires { at + COUNT_BYTES + PAIR_BYTES * two_at at bytes.now ≤ length bytes.now }
    ensures { result ≡ is_listing cycle n at bytes.now }
{
    let mut low = 0;
    for j in 0..count_at(bytes, at) {
        let item = item_at(bytes, at, j);
        if !may_follow(low, n, cycle, item, age_at(bytes, at, j)) {
            return false;
        }
        low = item + 1;
    }
    true
}

/// The entry that an age gives in a cycle.
fn entry_of_age(cycle: u32, age: u8) -> u32
    ensures { result ≡ cycle - age }
{
    cycle.saturating_sub(u32::from(age))
}

/// The entry of an item; 0 if it isn't listed.
pub fn entry_of(bytes: &[u8], at: usize, cycle: u32, item: u16) -> u32
    requires { at + COUNT_BYTES + PAIR_BYTES * two_at at bytes.now ≤ length bytes.now }
    ensures { result ≡ listed_entry item (pairs_at cycle at bytes.now) }
{
    for j in 0..count_at(bytes, at) {
        if item_at(bytes, at, j) == item {
            return entry_of_age(cycle, age_at(bytes, at, j));
        }
    }
    0
}

/// Fills a slice with an entry for each item.
pub fn fill_entries(bytes: &[u8], at: usize, cycle: u32, out: &mut [u32])
    requires long { at + COUNT_BYTES + PAIR_BYTES * two_at at bytes.now ≤ length bytes.now }
    requires told { is_listing cycle (length out.old) at bytes.now ≡ true }
    ensures { out.new ≡ short_entries cycle (length out.old) at bytes.now }
{
    out.fill(0);
    for j in 0..count_at(bytes, at) {
        out[item_at(bytes, at, j) as usize] = entry_of_age(cycle, age_at(bytes, at, j));
    }
}
