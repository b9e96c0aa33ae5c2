//! The sizes that come first among those of one number of slots and one weight, found from disk 0 on.

ghost use Rattle.std.specs.Prelude.{◌<◌, ◌≤◌, ◌+◌, IfOk, MatchOption, drop, length, slice_index};
ghost use Rattle.disk_split.specs.declared.sizes.RestToPlace.{RestToPlace as ModelRest};
ghost use Rattle.disk_split.specs.Rests.{AreChunks, AreSums, IsFirst};
ghost use Rattle.disk_split.specs.Private.RestsToPlace.{IsAfter, IsFirstSize, IsLeastRest};
ghost use Rattle.disk_split.specs.Private.Tables.{HasCells, HaveCells};

use crate::lengths::chunk_slots;
use crate::tables::{Table, TableRow};
use std::alloc::{AllocError, Global};

/// What is left to place: the items from a place on, with the slots of a minor cycle and the weight that they are to have.
#[derive(Clone, Copy)]
pub struct RestToPlace {
    pub from: usize,
    pub slots: usize,
    pub weight: u64,
}

/// What is left once the first of these disks took `size` of the items, if the disks after it can make up the weight.
fn after(
    left: RestToPlace,
    chunks: &[u64],
    sums: &[u64],
    next: &[TableRow],
    size: usize,
) -> Option<RestToPlace>
    requires sums { AreSums sums.now }
    requires chunks { AreChunks chunks.now }
    requires some { 0 < length chunks.now }
    requires next { HasCells sums.now (drop 1 chunks.now) left.slots next.now }
    requires within { left.from + size < length sums.now }
    requires filled { 1 ≤ size }
    ensures { MatchOption result
        ((rest : ModelRest) → IsAfter sums.now (slice_index chunks.now 0) next.now left size rest → ⊥)
        (IsAfter sums.now (slice_index chunks.now 0) next.now left size) }
{
    let chunk = chunk_slots(chunks[0], size as u64) as usize;
    if left.slots < chunk {
        return None;
    }
    let from = left.from + size;
    let slots = left.slots - chunk;
    let Some(weight) = next[from].cell(slots) else {
        return None;
    };
    if weight + chunks[0] * (sums[from] - sums[left.from]) != left.weight {
        return None;
    }
    Some(RestToPlace {
        from,
        slots,
        weight,
    })
}

/// The least size of the first of these disks with which the weight that is left can be made up, and what is left then.
fn first_size(
    left: RestToPlace,
    chunks: &[u64],
    sums: &[u64],
    next: &[TableRow],
) -> (usize, RestToPlace)
    requires sums { AreSums sums.now }
    requires chunks { AreChunks chunks.now }
    requires some { 0 < length chunks.now }
    requires next { HasCells sums.now (drop 1 chunks.now) left.slots next.now }
    requires left { IsLeastRest sums.now chunks.now left }
    ensures { IsFirstSize sums.now (slice_index chunks.now 0) next.now left result.0 result.1 }
{
    for size in 1..sums.len() - left.from {
        if let Some(rest) = after(left, chunks, sums, next, size) {
            return (size, rest);
        }
    }
    unreachable!()
}

/// The sizes that come first among those which place what is left.
pub fn sizes(
    alloc: Global,
    chunks: &[u64],
    sums: &[u64],
    tables: &[Table],
    left: RestToPlace,
) -> Result<Vec<u16>, AllocError>
    requires sums { AreSums sums.now }
    requires chunks { AreChunks chunks.now }
    requires tables { HaveCells sums.now chunks.now left.slots tables.now }
    requires left { IsLeastRest sums.now chunks.now left }
    ensures { IfOk result (λ sizes. IsFirst sums.now chunks.now left.from left.slots left.weight sizes.items) }
{
    let mut sizes = Vec::new(alloc);
    let mut rest = left;
    for disk in 0..chunks.len() {
        let next = &tables[chunks.len() - (disk + 1)];
        let (size, more) = first_size(rest, &chunks[disk..], sums, &next.rows);
        sizes.push(size as u16)?;
        rest = more;
    }
    Ok(sizes)
}
