//! The entries of a bucket in its bytes, by version.
//!
//! In version 1 an entry is in the bytes as it is, in four bytes. From version 2 on its age is there, in one byte: the number
//! of cycles from the entry's cycle to the bucket's own, or 255 for the entry 0. `encoding` makes ages here; `view` tests and
//! reads entries here.

ghost use Rattle.std.specs.Prelude.{◌≡◌, ◌≤◌, ◌<◌, ◌+◌, ◌*◌, ◌==◌, true, length};
ghost use Rattle.std.specs.List.{list_all};
ghost use Rattle.air_history.specs.Ages.{capped};
ghost use Rattle.air_model.specs.Buckets.{age_of, entries_at, entry_len, entry_told, has_ages, is_entry, most_count, number_at, raw_entries, raw_entry};

use crate::offsets::{AGE_BYTES, ENTRY_BYTES, HEAD_BYTES};
use air_base::limits::{AGE_CAP, MOST_FULL_ITEMS, MOST_ITEMS};
use byteorder::{BigEndian, ByteOrder};

/// The age of the entry 0.
const NO_WRITER: u8 = AGE_CAP as u8;

/// Whether entries are given by their ages.
pub(crate) fn tells_ages(version: u8) -> bool
    ensures { result ≡ has_ages version }
{
    version >= 2
}

/// The number of bytes of an entry.
pub fn entry_size(version: u8) -> usize
    ensures { result ≡ entry_len version }
{
    if tells_ages(version) {
        AGE_BYTES
    } else {
        ENTRY_BYTES
    }
}

/// The most items of a bucket.
pub(crate) fn most_items(version: u8) -> usize
    ensures { result ≡ most_count version }
{
    if tells_ages(version) {
        MOST_ITEMS
    } else {
        MOST_FULL_ITEMS
    }
}

// ---- one entry

/// The age of an entry in a cycle. An entry too old for an age gets the age of the entry 0.
pub(crate) fn age_in(cycle: u32, entry: u32) -> u8
    requires { entry < cycle }
    ensures { result ≡ age_of cycle (capped entry cycle) }
{
    let age = (cycle - entry).min(AGE_CAP) as u8;
    if entry == 0 { NO_WRITER } else { age }
}

/// Whether a byte is an age in a cycle.
#[tactic(auto, unfolding(air_model::specs::Buckets::is_entry))]
fn is_age(byte: u8, cycle: u8) -> bool
    ensures { result ≡ is_entry 2 cycle byte }
{
    (byte == NO_WRITER) | ((byte >= 1) & (byte < cycle))
}

/// The entry that an age gives in a cycle.
#[tactic(auto, unfolding(air_model::specs::Buckets::entry_told))]
fn entry_of_age(cycle: u32, age: u8) -> u32
    requires { is_entry 2 cycle age ≡ true }
    ensures { result ≡ entry_told 2 cycle age }
{
    if age == NO_WRITER {
        0
    } else {
        cycle - u32::from(age)
    }
}

/// The entry of an item, read in full.
fn entry_at(bytes: &[u8], i: usize) -> u32
    requires { HEAD_BYTES + ENTRY_BYTES * i + ENTRY_BYTES ≤ length bytes.now }
    ensures { result ≡ number_at (HEAD_BYTES + ENTRY_BYTES * i) ENTRY_BYTES bytes.now }
{
    BigEndian::read_u32(&bytes[HEAD_BYTES + ENTRY_BYTES * i..])
}

/// The entry of an item.
pub(crate) fn told_at(bytes: &[u8], version: u8, cycle: u32, i: u16) -> u32
    requires long { HEAD_BYTES + entry_len version * i + entry_len version ≤ length bytes.now }
    requires told { is_entry version cycle (raw_entry version i bytes.now) ≡ true }
    ensures { result ≡ entry_told version cycle (raw_entry version i bytes.now) }
{
    if tells_ages(version) {
        entry_of_age(cycle, bytes[HEAD_BYTES + i as usize])
    } else {
        entry_at(bytes, i as usize)
    }
}

// ---- all entries

/// Whether each of the first `n` entries is below the cycle. It tests all of them, several at a time.
fn entries_below(bytes: &[u8], n: u16, cycle: u32) -> bool
    requires { HEAD_BYTES + ENTRY_BYTES * n ≤ length bytes.now }
    ensures { result ≡ list_all (is_entry 1 cycle) (raw_entries 1 n bytes.now) }
{
    let mut below = true;
    for i in 0..n {
        below &= entry_at(bytes, i as usize) < cycle;
    }
    below
}

/// Whether each of the first `n` bytes of the entries is an age in the cycle. It tests all of them, several at a time.
fn are_ages(bytes: &[u8], n: u16, cycle: u32) -> bool
    requires { HEAD_BYTES + n ≤ length bytes.now }
    ensures { result ≡ list_all (is_entry 2 cycle) (raw_entries 2 n bytes.now) }
{
    let latest = cycle.min(AGE_CAP) as u8;
    let mut ages = true;
    for i in 0..n {
        ages &= is_age(bytes[HEAD_BYTES + i as usize], latest);
    }
    ages
}

/// Whether the number of each of the first `n` entries stands for an entry in the cycle.
pub(crate) fn are_entries(bytes: &[u8], version: u8, n: u16, cycle: u32) -> bool
    requires { HEAD_BYTES + entry_len version * n ≤ length bytes.now }
    ensures { result ≡ list_all (is_entry version cycle) (raw_entries version n bytes.now) }
{
    if tells_ages(version) {
        are_ages(bytes, n, cycle)
    } else {
        entries_below(bytes, n, cycle)
    }
}

/// Fills a slice with entries that are in full.
fn fill_in_full(bytes: &[u8], out: &mut [u32])
    requires { HEAD_BYTES + ENTRY_BYTES * length out.old ≤ length bytes.now }
    ensures { out.new ≡ raw_entries 1 (length out.old) bytes.now }
{
    for (i, entry) in out.iter_mut().enumerate() {
        *entry = entry_at(bytes, i);
    }
}

/// Fills a slice with the entries that their ages give.
fn fill_by_ages(bytes: &[u8], cycle: u32, out: &mut [u32])
    requires long { HEAD_BYTES + length out.old ≤ length bytes.now }
    requires told { list_all (is_entry 2 cycle) (raw_entries 2 (length out.old) bytes.now) ≡ true }
    ensures { out.new ≡ entries_at 2 cycle (length out.old) bytes.now }
{
    for (i, entry) in out.iter_mut().enumerate() {
        *entry = entry_of_age(cycle, bytes[HEAD_BYTES + i]);
    }
}

/// Fills a slice with the first entries of a cycle.
pub(crate) fn fill_entries(bytes: &[u8], version: u8, cycle: u32, out: &mut [u32])
    requires long { HEAD_BYTES + entry_len version * length out.old ≤ length bytes.now }
    requires told { list_all (is_entry version cycle) (raw_entries version (length out.old) bytes.now) ≡ true }
    ensures { out.new ≡ entries_at version cycle (length out.old) bytes.now }
{
    if tells_ages(version) {
        fill_by_ages(bytes, cycle, out)
    } else {
        fill_in_full(bytes, out)
    }
}
