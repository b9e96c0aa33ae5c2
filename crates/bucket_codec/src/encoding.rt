//! A bucket to be aired, and its bytes.
//!
//! The head is written from its beginning to its end, then the entries, each byte once. What comes after the bucket in `out` isn't
//! changed. The sender and the station air what is written here.

ghost use Rattle.std.specs.Prelude.{◌≡◌, ◌≤◌, ◌<◌, ◌+◌, ◌*◌, ◌++◌, All, drop, length, take, Ok};
ghost use Rattle.std.specs.List.{flat_map};
ghost use Rattle.byteorder.specs.Endian.{big_bytes};
ghost use Rattle.air_base.specs.declared.limits.TheConstants.{MOST_ITEMS};
ghost use Rattle.air_model.specs.Buckets.{IsInRange, capped_bucket, capped_entries, count_of, entries_of, entry_bytes, entry_len, reading, spelling};
ghost use Rattle.bucket_codec.specs.Private.Heads.{aged_bytes, head_bytes, head_of};
ghost use Rattle.bucket_codec.specs.BucketsToAir.{bucket_to_air};

use crate::entries::{age_in, entry_size, tells_ages};
use crate::offsets::{
    COUNT, CYCLE, EDITION, ENTRY_BYTES, HEAD_BYTES, ITEM, KIND, SLOT, VALUE, VERSION,
};
use byteorder::{BigEndian, ByteOrder};

/// A bucket to be aired: its version, its place on the air, and what it carries.
#[derive(Clone, Copy, Debug)]
pub struct Bucket<'a> {
    /// How the entries are given: 1 in full, 2 by their ages.
    pub version: u8,
    /// The edition of the program.
    pub edition: u16,
    /// The cycle, from 1.
    pub cycle: u32,
    /// The slot, from 0.
    pub slot: u16,
    /// What the bucket carries.
    pub body: Body<'a>,
}

/// What a bucket carries. Its entries are the history's, in any version.
#[derive(Clone, Copy, Debug)]
pub enum Body<'a> {
    /// No item; there are this many items in all.
    Idle {
        count: u16,
    },
    /// An item, its value, and its control column with an entry for each item.
    Column {
        item: u16,
        value: u64,
        entries: &'a [u32],
    },
    /// An item, its value, and the vector of last writes with an entry for each item.
    Vector {
        item: u16,
        value: u64,
        entries: &'a [u32],
    },
}

/// The numbers of a head that differ from bucket to bucket.
#[derive(Drop)]
struct Head {
    version: u8,
    kind: u8,
    edition: u16,
    count: u16,
    cycle: u32,
    slot: u16,
    item: u16,
    value: u64,
}

/// The entries of a bucket.
#[tactic(auto, unfolding(crate::specs::BucketsToAir::body_to_air, air_model::specs::Buckets::entries_of))]
fn entries<'a>(bucket: &Bucket<'a>) -> &'a [u32]
    ensures { result.now ≡ entries_of (bucket_to_air bucket.now).body }
{
    match bucket.body {
        Body::Idle { .. } => &[],
        Body::Column { entries, .. } => entries,
        Body::Vector { entries, .. } => entries,
    }
}

/// The head of a bucket.
#[tactic(auto, unfolding(crate::specs::Private::Heads::head_of, crate::specs::BucketsToAir::body_to_air, air_model::specs::Buckets::kind_of, air_model::specs::Buckets::count_of, air_model::specs::Buckets::item_of, air_model::specs::Buckets::value_of))]
fn head_numbers(bucket: &Bucket<'_>) -> Head
    requires { count_of (bucket_to_air bucket.now).body ≤ MOST_ITEMS }
    ensures { result ≡ head_of (bucket_to_air bucket.now) }
{
    let (kind, count, item, value) = match bucket.body {
        Body::Idle { count } => (0, count, u16::MAX, 0),
        Body::Column {
            item,
            value,
            entries,
        } => (1, entries.len() as u16, item, value),
        Body::Vector {
            item,
            value,
            entries,
        } => (2, entries.len() as u16, item, value),
    };
    Head {
        version: bucket.version,
        kind,
        edition: bucket.edition,
        count,
        cycle: bucket.cycle,
        slot: bucket.slot,
        item,
        value,
    }
}

/// Writes two bytes at a place.
fn put_two(out: &mut [u8], at: usize, n: u16)
    requires { at + 2 ≤ length out.old }
    ensures { out.new ≡ take at out.old ++ (big_bytes 2 n ++ drop (at + 2) out.old) }
{
    BigEndian::write_u16(&mut out[at..], n);
}

/// Writes four bytes at a place.
pub(crate) fn put_four(out: &mut [u8], at: usize, n: u32)
    requires { at + 4 ≤ length out.old }
    ensures { out.new ≡ take at out.old ++ (big_bytes 4 n ++ drop (at + 4) out.old) }
{
    BigEndian::write_u32(&mut out[at..], n);
}

/// Writes eight bytes at a place.
fn put_eight(out: &mut [u8], at: usize, n: u64)
    requires { at + 8 ≤ length out.old }
    ensures { out.new ≡ take at out.old ++ (big_bytes 8 n ++ drop (at + 8) out.old) }
{
    BigEndian::write_u64(&mut out[at..], n);
}

/// Writes the head to the beginning.
fn put_head(out: &mut [u8], head: &Head)
    requires { HEAD_BYTES ≤ length out.old }
    ensures { out.new ≡ head_bytes head.now ++ drop HEAD_BYTES out.old }
{
    out[0] = 0x41;
    out[1] = 0x44;
    out[VERSION] = head.version;
    out[KIND] = head.kind;
    put_two(out, EDITION, head.edition);
    put_two(out, COUNT, head.count);
    put_four(out, CYCLE, head.cycle);
    put_two(out, SLOT, head.slot);
    put_two(out, ITEM, head.item);
    put_eight(out, VALUE, head.value);
}

/// Writes the entries after the head, in full.
fn put_entries(out: &mut [u8], entries: &[u32])
    requires { HEAD_BYTES + ENTRY_BYTES * length entries.now ≤ length out.old }
    ensures { out.new ≡ take HEAD_BYTES out.old ++ (flat_map (big_bytes 4) entries.now ++ drop (HEAD_BYTES + ENTRY_BYTES * length entries.now) out.old) }
{
    for (i, entry) in entries.iter().enumerate() {
        put_four(out, HEAD_BYTES + ENTRY_BYTES * i, *entry);
    }
}

/// Writes the ages of the entries after the head.
fn put_ages(out: &mut [u8], cycle: u32, entries: &[u32])
    requires room { HEAD_BYTES + length entries.now ≤ length out.old }
    requires below { All (λ e. e < cycle) entries.now }
    ensures { out.new ≡ take HEAD_BYTES out.old ++ (flat_map (aged_bytes cycle) entries.now ++ drop (HEAD_BYTES + length entries.now) out.old) }
{
    for (i, entry) in entries.iter().enumerate() {
        out[HEAD_BYTES + i] = age_in(cycle, *entry);
    }
}

/// Writes the entries after the head as the version gives them.
fn put_told(out: &mut [u8], version: u8, cycle: u32, entries: &[u32])
    requires room { HEAD_BYTES + entry_len version * length entries.now ≤ length out.old }
    requires below { All (λ e. e < cycle) entries.now }
    ensures { out.new ≡ take HEAD_BYTES out.old
        ++ (flat_map (entry_bytes version cycle) (capped_entries version cycle entries.now) ++ drop (HEAD_BYTES + entry_len version * length entries.now) out.old) }
{
    if tells_ages(version) {
        put_ages(out, cycle, entries)
    } else {
        put_entries(out, entries)
    }
}

/// The number of bytes of a bucket: those of the head and of each entry.
pub fn size_of(bucket: &Bucket<'_>) -> usize
    ensures { result ≡ length (spelling (bucket_to_air bucket.now)) }
{
    HEAD_BYTES + entry_size(bucket.version) * entries(bucket).len()
}

/// Writes a bucket's bytes to the beginning of `out` and gives their number. From version 2 on an entry that is too old for an age
/// is written as 0. The caller has to know that the bucket with such entries is in range: `range_law` of `air_model` says it of
/// every bucket of a history that can be aired. `size_of` gives the room that is needed.
pub fn encode(bucket: &Bucket<'_>, out: &mut [u8]) -> usize
    requires range { IsInRange (capped_bucket (bucket_to_air bucket.now)) }
    requires room { length (spelling (bucket_to_air bucket.now)) ≤ length out.old }
    ensures len { result ≡ length (spelling (bucket_to_air bucket.now)) }
    ensures bytes { out.new ≡ spelling (capped_bucket (bucket_to_air bucket.now)) ++ drop result out.old }
    ensures decodes { reading (take result out.new) ≡ Ok (capped_bucket (bucket_to_air bucket.now)) }
{
    put_head(out, &head_numbers(bucket));
    put_told(out, bucket.version, bucket.cycle, entries(bucket));
    size_of(bucket)
}
