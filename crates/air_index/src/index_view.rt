//! An index record, read without a copy.
//!
//! A view is seen as the index that its bytes spell, and exists for such bytes alone.

ghost use Rattle.std.specs.Prelude.{◌≡◌, ◌≤◌, ◌<◌, ◌+◌, ◌*◌, MatchOption, false, nat_le, true, length, slice_index};
ghost use Rattle.std.specs.List.{list_all};
ghost use Rattle.air_model.specs.Buckets.{number_at};
ghost use Rattle.air_index.specs.Indexes.{index_at, index_entries, is_index};

use crate::places::{COUNT, CYCLE, INDEX_ENTRY, INDEX_HEAD, MINOR, WAIT, four_at, two_at};
use air_base::limits::MOST_ITEMS;
use std::marker::Model;

/// An index whose entries are lent from its bytes.
#[derive(Drop)]
pub struct IndexView<'a> {
    bytes: &'a [u8],
}

impl<'a> Model for IndexView<'a> {
    ghost use Rattle.std.specs.Prelude.{◌≡◌, true};
    ghost use Rattle.air_index.specs.Indexes.{Index, index_at, is_index};

    ghost Value = { Index };

    ghost view = { λ a. index_at a.bytes.now };

    ghost invariant = { λ a. is_index a.bytes.now ≡ true };
}

/// An entry in the bytes of an index record.
fn entry_at(bytes: &[u8], i: u16) -> u32
    requires { INDEX_HEAD + INDEX_ENTRY * i + INDEX_ENTRY ≤ length bytes.now }
    ensures { result ≡ number_at (13 + 4 * i) 4 bytes.now }
{
    four_at(bytes, INDEX_HEAD + INDEX_ENTRY * i as usize)
}

/// Whether each of the first `n` entries counts from 1.
fn lie_ahead(bytes: &[u8], n: u16) -> bool
    requires { INDEX_HEAD + INDEX_ENTRY * n ≤ length bytes.now }
    ensures { result ≡ list_all (nat_le 1) (index_entries n bytes.now) }
{
    let mut ahead = true;
    for i in 0..n {
        ahead &= entry_at(bytes, i) >= 1;
    }
    ahead
}

/// Whether bytes are an index record.
fn is_index(bytes: &[u8]) -> bool
    ensures { result ≡ is_index bytes.now }
{
    if bytes.len() < INDEX_HEAD {
        return false;
    }
    let n = two_at(bytes, COUNT);
    if bytes.len() != INDEX_HEAD + INDEX_ENTRY * n as usize {
        return false;
    }
    (bytes[0] == 0)
        & (four_at(bytes, WAIT) == 0)
        & (four_at(bytes, CYCLE) >= 1)
        & (n >= 1)
        & (n as usize <= MOST_ITEMS)
        & lie_ahead(bytes, n)
}

/// The index that bytes spell, if they are an index record.
pub(crate) fn index_in<'a>(bytes: &'a [u8]) -> Option<IndexView<'a>>
    ensures { MatchOption result (is_index bytes.now ≡ false) (λ index. (is_index bytes.now ≡ true) × (index ≡ index_at bytes.now)) }
{
    if is_index(bytes) {
        Some(IndexView { bytes })
    } else {
        None
    }
}

impl<'a> IndexView<'a> {
    /// The cycle.
    pub fn cycle(&self) -> u32
        ensures { result ≡ self.now.cycle }
    {
        four_at(self.bytes, CYCLE)
    }

    /// The minor cycle, from 0.
    pub fn minor(&self) -> u16
        ensures { result ≡ self.now.minor }
    {
        two_at(self.bytes, MINOR)
    }

    /// The number of items.
    pub fn count(&self) -> u16
        ensures { result ≡ length self.now.entries }
    {
        two_at(self.bytes, COUNT)
    }

    /// How many records on the next data record of an item is.
    pub fn entry(&self, i: u16) -> u32
        requires { i < length self.now.entries }
        ensures told { result ≡ slice_index self.now.entries i }
        ensures ahead { 1 ≤ result }
    {
        entry_at(self.bytes, i)
    }
}
