//! A bucket in a datagram: read in place, or refused by the first fault that applies.
//!
//! Contracts see a view as the bucket that its bytes spell; views exist only for such bytes. `decode` reads each byte at most
//! once; the readers read theirs again. The receiver uses this file.

ghost use Rattle.std.specs.Prelude.{◌≡◌, ◌≢◌, ◌≤◌, ◌<◌, ◌+◌, ◌*◌, ◌&&◌, ◌||◌, ◌==◌, nat_le, MatchResult, Ok, length, slice_index};
ghost use Rattle.std.specs.List.{flat_map};
ghost use Rattle.air_model.specs.Buckets.{IsBucket, bucket_at, count_of, entries_of, entry_bytes, entry_count, entry_len, fault_of, is_placed, is_shaped, item_of, kind_of, most_count, number_at, reading, value_of};
ghost use Rattle.bucket_codec.specs.DatagramKinds.{IsNoBucket, kind_number};

use crate::entries::{are_entries, entry_size, fill_entries, most_items, told_at};
use crate::offsets::{COUNT, CYCLE, EDITION, HEAD_BYTES, ITEM, KIND, SLOT, VALUE, VERSION};
use air_model::bucket::BucketFault;
use byteorder::{BigEndian, ByteOrder};
use std::marker::Model;

/// What a bucket carries.
#[derive(Clone, Copy, Debug, PartialEq, Eq)]
pub enum ViewKind {
    /// No item.
    Idle,
    /// An item with its control column.
    Column,
    /// An item with the vector of last writes.
    Vector,
}

/// A bucket whose fields and entries are lent from its bytes.
#[derive(Drop)]
pub struct BucketView<'a> {
    bytes: &'a [u8],
}

impl<'a> Model for BucketView<'a> {
    ghost use Rattle.std.specs.Prelude.{◌≡◌, Ok};
    ghost use Rattle.air_model.specs.Buckets.{Bucket, bucket_at, reading};

    ghost Value = { Bucket };

    ghost view = { λ a. bucket_at a.bytes.now };

    ghost invariant = { λ a. reading a.bytes.now ≡ Ok (bucket_at a.bytes.now) };
}

/// The number in the two bytes from a place.
fn two_at(bytes: &[u8], at: usize) -> u16
    requires { at + 2 ≤ length bytes.now }
    ensures { result ≡ number_at at 2 bytes.now }
{
    BigEndian::read_u16(&bytes[at..])
}

/// The number in the four bytes from a place.
fn four_at(bytes: &[u8], at: usize) -> u32
    requires { at + 4 ≤ length bytes.now }
    ensures { result ≡ number_at at 4 bytes.now }
{
    BigEndian::read_u32(&bytes[at..])
}

/// The number in the eight bytes from a place.
fn eight_at(bytes: &[u8], at: usize) -> u64
    requires { at + 8 ≤ length bytes.now }
    ensures { result ≡ number_at at 8 bytes.now }
{
    BigEndian::read_u64(&bytes[at..])
}

/// Whether item and value fit the kind.
#[tactic(auto, unfolding(air_model::specs::Buckets::is_placed))]
fn has_place(kind: u8, item: u16, value: u64, count: u16) -> bool
    ensures { result ≡ is_placed kind item value count }
{
    if kind == 0 {
        item == u16::MAX && value == 0
    } else {
        item < count
    }
}

/// Whether this version exists.
fn is_version(version: u8) -> bool
    ensures { result ≡ ((version == 1) || (version == 2)) }
{
    version == 1 || version == 2
}

/// Whether count and cycle are within their limits.
fn in_limits(version: u8, count: u16, cycle: u32) -> bool
    ensures { result ≡ (nat_le 1 count && nat_le count (most_count version) && nat_le 1 cycle) }
{
    (count >= 1) & (count as usize <= most_items(version)) & (cycle >= 1)
}

/// The number of entries.
#[tactic(auto, unfolding(air_model::specs::Buckets::entry_count))]
fn entries(kind: u8, count: u16) -> u16
    ensures { result ≡ entry_count kind count }
{
    if kind == 0 { 0 } else { count }
}

/// Whether each number is in its range.
fn has_shape(bytes: &[u8], version: u8, kind: u8, count: u16, n: u16) -> bool
    requires long { HEAD_BYTES + entry_len version * n ≤ length bytes.now }
    requires version { version ≡ slice_index bytes.now VERSION }
    requires kind { kind ≡ slice_index bytes.now KIND }
    requires count { count ≡ number_at COUNT 2 bytes.now }
    requires entries { n ≡ entry_count kind count }
    ensures { result ≡ is_shaped bytes.now }
{
    let cycle = four_at(bytes, CYCLE);
    let item = two_at(bytes, ITEM);
    let value = eight_at(bytes, VALUE);
    in_limits(version, count, cycle)
        & has_place(kind, item, value, count)
        & are_entries(bytes, version, n, cycle)
}

/// The first fault of the bytes, if they have one.
fn first_fault(bytes: &[u8]) -> Option<BucketFault>
    ensures { result ≡ fault_of bytes.now }
{
    if bytes.len() < HEAD_BYTES {
        return Some(BucketFault::Short {
            at: bytes.len() as u32,
        });
    }
    if bytes[0] != 0x41 || bytes[1] != 0x44 {
        return Some(BucketFault::Magic);
    }
    let version = bytes[VERSION];
    if !is_version(version) {
        return Some(BucketFault::Version);
    }
    let kind = bytes[KIND];
    if kind > 2 {
        return Some(BucketFault::Kind);
    }
    let count = two_at(bytes, COUNT);
    let n = entries(kind, count);
    if bytes.len() != HEAD_BYTES + entry_size(version) * n as usize {
        return Some(BucketFault::Length);
    }
    if !has_shape(bytes, version, kind, count, n) {
        return Some(BucketFault::Shape);
    }
    None
}

/// The bucket that the bytes spell, or the first fault that applies.
pub fn decode<'a>(bytes: &'a [u8]) -> Result<BucketView<'a>, BucketFault>
    ensures reading { result ≡ reading bytes.now }
    ensures grammar { MatchResult result (λ b. IsBucket bytes.now b) (λ _. IsNoBucket bytes.now) }
{
    match first_fault(bytes) {
        Some(fault) => Err(fault),
        None => Ok(BucketView { bytes }),
    }
}

/// The bytes of the entries of a bucket.
fn entry_part<'a>(bytes: &'a [u8]) -> &'a [u8]
    requires long { HEAD_BYTES ≤ length bytes.now }
    requires whole { reading bytes.now ≡ Ok (bucket_at bytes.now) }
    ensures { let b = bucket_at bytes.now in result.now ≡ flat_map (entry_bytes b.version b.cycle) (entries_of b.body) }
{
    &bytes[HEAD_BYTES..]
}

impl<'a> BucketView<'a> {
    /// How the entries are given: 1 in full, 2 by their ages.
    pub fn version(&self) -> u8
        ensures { result ≡ self.now.version }
    {
        self.bytes[VERSION]
    }

    /// The edition of the program.
    pub fn edition(&self) -> u16
        ensures { result ≡ self.now.edition }
    {
        two_at(self.bytes, EDITION)
    }

    /// The number of items.
    pub fn count(&self) -> u16
        ensures { result ≡ count_of self.now.body }
    {
        two_at(self.bytes, COUNT)
    }

    /// The cycle.
    pub fn cycle(&self) -> u32
        ensures { result ≡ self.now.cycle }
    {
        four_at(self.bytes, CYCLE)
    }

    /// The slot.
    pub fn slot(&self) -> u16
        ensures { result ≡ self.now.slot }
    {
        two_at(self.bytes, SLOT)
    }

    /// What the bucket carries.
    pub fn kind(&self) -> ViewKind
        ensures { kind_number result ≡ kind_of self.now.body }
    {
        match self.bytes[KIND] {
            0 => ViewKind::Idle,
            1 => ViewKind::Column,
            _ => ViewKind::Vector,
        }
    }

    /// The item; 65,535 in an idle slot.
    pub fn item(&self) -> u16
        ensures { result ≡ item_of self.now.body }
    {
        two_at(self.bytes, ITEM)
    }

    /// The value; 0 in an idle slot.
    pub fn value(&self) -> u64
        ensures { result ≡ value_of self.now.body }
    {
        eight_at(self.bytes, VALUE)
    }

    /// The entry of an item, which is the cycle of a write in any version. The slot must not be idle.
    pub fn entry(&self, i: u16) -> u32
        requires busy { kind_of self.now.body ≢ 0 }
        requires below { i < count_of self.now.body }
        ensures { result ≡ slice_index (entries_of self.now.body) i }
    {
        told_at(self.bytes, self.version(), self.cycle(), i)
    }

    /// The bytes of the entries as they are, lent from the datagram.
    pub fn entry_bytes(&self) -> &'a [u8]
        ensures { result.now ≡ flat_map (entry_bytes self.now.version self.now.cycle) (entries_of self.now.body) }
    {
        entry_part(self.bytes)
    }

    /// Fills a slice with the entries, each of which is the cycle of a write in any version. The slot must not be idle.
    pub fn fill(&self, out: &mut [u32])
        requires busy { kind_of self.now.body ≢ 0 }
        requires room { length out.old ≡ count_of self.now.body }
        ensures { out.new ≡ entries_of self.now.body }
    {
        fill_entries(self.bytes, self.version(), self.cycle(), out)
    }
}
