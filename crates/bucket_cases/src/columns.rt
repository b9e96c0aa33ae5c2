//! Columns of true entries, written as their version spells them, and read.
//!
//! `encoded` takes the version, the cycle, the item and the value of a column. The column's entries are the last row. Its bytes are those of the last
//! bucket from then on.

ghost use Rattle.std.specs.Prelude.{◌≡◌, ◌<◌, All, IsTrue};
ghost use Rattle.air_model.specs.Buckets.{most_count};
ghost use Rattle.bucket_cases.specs.Columns.{IsColumn};

use crate::buckets::{UNWRITTEN, read_bucket};
use air_base::NoMemory;
use air_base::limits::{MOST_FULL_ITEMS, MOST_ITEMS};
use bucket_codec::{Body, Bucket, encode, size_of};
use case_lines::{BadCase, Parts, add_hex};
use std::alloc::Global;

/// The greatest number of items of a bucket of a version.
fn most_items(version: u8) -> usize
    ensures { result ≡ most_count version }
{
    if version >= 2 {
        MOST_ITEMS
    } else {
        MOST_FULL_ITEMS
    }
}

/// Whether each entry is below a cycle.
fn are_below(entries: &[u32], cycle: u32) -> bool
    ensures { IsTrue result → All (λ e. e < cycle) entries.now }
{
    for i in 0..entries.len() {
        if entries[i] >= cycle {
            return false;
        }
    }
    true
}

/// Whether a column of an item and its entries can be aired.
fn is_column(version: u8, cycle: u32, item: u16, entries: &[u32]) -> bool
    ensures { IsTrue result → IsColumn version cycle item entries.now }
{
    if version == 0 || version > 2 || cycle == 0 {
        return false;
    }
    if entries.len() > most_items(version) || item as usize >= entries.len() {
        return false;
    }
    are_below(entries, cycle)
}

/// Writes a column of the entries, and adds its bytes and what they say.
pub fn encoded(
    alloc: Global,
    entries: &[u32],
    parts: &mut Parts<'_>,
    bytes: &mut Vec<u8>,
    came: &mut Vec<u8>,
) -> Result<(), NoMemory> {
    let (version, cycle) = (parts.byte(), parts.narrow());
    let (item, value) = (parts.small(), parts.number());
    if !is_column(version, cycle, item, entries) {
        parts.refuse(BadCase::NoCall);
        return Ok(());
    }
    let bucket = Bucket {
        version,
        edition: 258,
        cycle,
        slot: 5,
        body: Body::Column {
            item,
            value,
            entries,
        },
    };
    let mut out = vec![in alloc; UNWRITTEN; size_of(&bucket)]?;
    encode(&bucket, &mut out);
    came.extend_from_slice(b"bytes ")?;
    add_hex(&out, came)?;
    came.push(b'\n')?;
    read_bucket(alloc, &out, came)?;
    *bytes = out;
    Ok(())
}
