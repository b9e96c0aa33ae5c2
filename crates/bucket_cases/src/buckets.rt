//! Buckets read from their bytes, and written again.
//!
//! `bucket` takes the bytes in hexadecimal digits. `edited` reads the last ones again; it takes the length to which they are cut or filled up with
//! zeros, and then the place and the new value of each byte that is replaced. `encoded`, in `columns`, writes a bucket and reads it here.

ghost use Rattle.std.specs.Prelude.{◌≡◌, IfOk};
ghost use Rattle.air_model.specs.Buckets.{IsInRange, entries_of};
ghost use Rattle.bucket_codec.specs.BucketsToAir.{body_to_air};

use air_base::{NoMemory, write_u64};
use bucket_codec::{Body, Bucket, BucketView, ViewKind, decode, encode, size_of};
use case_lines::{BadCase, Parts, add_line};
use std::alloc::Global;

/// What a slice has at each place before anything is written.
pub const UNWRITTEN: u8 = 0xee;

/// What the bucket carries, with these entries.
fn body_of<'a>(view: &BucketView<'_>, entries: &'a [u32]) -> Body<'a>
    requires { entries.now ≡ entries_of view.now.body }
    ensures { body_to_air result ≡ view.now.body }
{
    let item = view.item();
    let value = view.value();
    match view.kind() {
        ViewKind::Idle => Body::Idle {
            count: view.count(),
        },
        ViewKind::Column => Body::Column {
            item,
            value,
            entries,
        },
        ViewKind::Vector => Body::Vector {
            item,
            value,
            entries,
        },
    }
}

/// The entries; an idle slot has none.
fn entries_in(alloc: Global, view: &BucketView<'_>) -> Result<Vec<u32>, NoMemory>
    ensures { IfOk result (λ entries. entries.items ≡ entries_of view.now.body) }
{
    match view.kind() {
        ViewKind::Idle => Ok(Vec::new(alloc)),
        _ => {
            let mut entries = vec![in alloc; 9; view.count() as usize]?;
            view.fill(&mut entries);
            Ok(entries)
        }
    }
}

/// Whether the bucket has these bytes when it is written again to the front of a slice with this many more bytes, and these stay as they are.
fn is_written(
    alloc: Global,
    view: &BucketView<'_>,
    entries: &[u32],
    bytes: &[u8],
    more: u8,
) -> Result<bool, NoMemory>
    requires range { IsInRange view.now }
    requires entries { entries.now ≡ entries_of view.now.body }
{
    let bucket = Bucket {
        version: view.version(),
        edition: view.edition(),
        cycle: view.cycle(),
        slot: view.slot(),
        body: body_of(view, entries),
    };
    let size = size_of(&bucket);
    if size != bytes.len() {
        return Ok(false);
    }
    let mut out = vec![in alloc; UNWRITTEN; bytes.len() + more as usize]?;
    let len = encode(&bucket, &mut out);
    let (front, behind) = out.split_at(bytes.len());
    let mut same = len == size && front == bytes;
    for byte in behind {
        same &= *byte == UNWRITTEN;
    }
    Ok(same)
}

/// Adds the head of the bucket, and its entries one by one.
fn add_view(view: &BucketView<'_>, came: &mut Vec<u8>) -> Result<(), NoMemory> {
    let kind = match view.kind() {
        ViewKind::Idle => "idle",
        ViewKind::Column => "column",
        ViewKind::Vector => "vector",
    };
    came.extend_from_slice(kind.as_bytes())?;
    add_line(b" of version", &[u64::from(view.version())], came)?;
    add_line(b"edition", &[u64::from(view.edition())], came)?;
    add_line(b"items", &[u64::from(view.count())], came)?;
    add_line(b"cycle", &[u64::from(view.cycle())], came)?;
    add_line(b"slot", &[u64::from(view.slot())], came)?;
    add_line(b"item", &[u64::from(view.item())], came)?;
    add_line(b"value", &[view.value()], came)?;
    came.extend_from_slice(b"entries")?;
    if view.kind() != ViewKind::Idle {
        for item in 0..view.count() {
            came.push(b' ')?;
            write_u64(u64::from(view.entry(item)), came)?;
        }
    }
    came.push(b'\n')?;
    Ok(())
}

/// Adds what the bytes say and whether the bucket is written again with the same bytes, or the first fault.
pub fn read_bucket(alloc: Global, bytes: &[u8], came: &mut Vec<u8>) -> Result<(), NoMemory> {
    match decode(bytes) {
        Ok(view) => {
            add_view(&view, came)?;
            let entries = entries_in(alloc, &view)?;
            let exact = is_written(alloc, &view, &entries, bytes, 0)?;
            let longer = is_written(alloc, &view, &entries, bytes, 8)?;
            if exact && longer && bytes.get(24..) == Some(view.entry_bytes()) {
                add_line(b"written as read", &[], came)
            } else {
                add_line(b"written otherwise", &[], came)
            }
        }
        Err(fault) => add_line(fault.to_string(alloc)?.as_bytes(), &[], came),
    }
}

/// Reads the bytes, cut or filled up with zeros to a length, and with some bytes replaced.
pub fn edited(
    alloc: Global,
    bytes: &[u8],
    parts: &mut Parts<'_>,
    came: &mut Vec<u8>,
) -> Result<(), NoMemory> {
    let mut edited = bytes.to_vec(alloc)?;
    edited.resize(parts.number() as usize, 0)?;
    for _ in 0..parts.left() {
        if parts.left() > 0 {
            let place = parts.number() as usize;
            let byte = parts.byte();
            match edited.get_mut(place) {
                Some(old) => *old = byte,
                None => parts.refuse(BadCase::NoCall),
            }
        }
    }
    read_bucket(alloc, &edited, came)
}
