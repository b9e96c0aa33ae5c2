//! The numbers of a program, and its slots laid out.
//!
//! The number of minor cycles is found by stepping through multiples, and the length of a minor cycle by a sum: both
//! without a slot laid out. The slots are then pushed chunk by chunk.

ghost use Rattle.std.specs.Prelude.{◌≡◌, ◌≤◌, ◌<◌, ◌+◌, ◌*◌, ◌^◌, ◌++◌, IfOk, OnOk, length, map, slice_get, take};
ghost use Rattle.std.specs.List.{range_with_len};
ghost use Rattle.air_base.specs.declared.limits.TheConstants.{MOST_SLOTS};
ghost use Rattle.air_model.specs.Programs.{chunk_len, least_common_multiple, minor_cycle, minor_len, num_minors, program};
ghost use Rattle.chunk_program.specs.CutConditions.{AreDeckDisks};

use crate::disks::Disk;
use air_base::limits::{MOST_DISKS, MOST_SIZE};
use std::alloc::{AllocError, Global};

/// The least common multiple of a number and a frequency: the first multiple of the one that the other divides.
fn common_multiple(m: u64, freq: u32) -> u64
    requires some { 0 < m }
    requires aired { 0 < freq }
    requires fits { freq * m < 2 ^ 64 }
    ensures { result ≡ least_common_multiple m freq }
{
    let freq = u64::from(freq);
    let mut k = 1u64;
    let mut multiple = m;
    while multiple % freq != 0 {
        k += 1;
        multiple += m;
    }
    multiple
}

/// The number of minor cycles.
pub fn num_minors(disks: &[Disk]) -> u64
    requires { AreDeckDisks disks.now }
    ensures counted { result ≡ num_minors disks.now }
    ensures few { result ≤ 2 ^ 48 }
{
    let mut minors = 1u64;
    for disk in disks {
        minors = common_multiple(minors, disk.freq());
    }
    minors
}

/// The most slots of a minor cycle: a chunk of each disk, none longer than a disk.
pub const MOST_MINOR_LEN: u64 = MOST_DISKS as u64 * MOST_SIZE;

/// The number of slots of a minor cycle before those of disk `n`.
pub fn len_before(disks: &[Disk], minors: u64, n: usize) -> u64
    requires limits { AreDeckDisks disks.now }
    requires minors { minors ≡ num_minors disks.now }
    requires within { n ≤ length disks.now }
    ensures counted { result ≡ minor_len minors (take n disks.now) }
    ensures few { result ≤ MOST_MINOR_LEN }
{
    let mut len = 0u64;
    for disk in &disks[..n] {
        len += disk.chunk_len(minors);
    }
    len
}

/// Puts a chunk of a disk at the end of the slots: the items from a place on, and idle slots past the last item.
fn push_chunk(
    slots: &mut Vec<Option<u16>>,
    items: &[u16],
    from: usize,
    len: usize,
) -> Result<(), AllocError>
    requires { from + len < 2 ^ 64 }
    ensures { OnOk result (slots.new.items ≡ slots.old.items ++ map (slice_get items.now) (range_with_len from len)) }
{
    for place in 0..len {
        slots.push(items.get(from + place).copied())?;
    }
    Ok(())
}

/// Puts a minor cycle at the end of the slots: a chunk of each disk in order.
fn push_minor(
    slots: &mut Vec<Option<u16>>,
    disks: &[Disk],
    minors: u64,
    minor: u64,
) -> Result<(), AllocError>
    requires limits { AreDeckDisks disks.now }
    requires minors { minors ≡ num_minors disks.now }
    requires few { minors ≤ MOST_SLOTS }
    ensures { OnOk result (slots.new.items ≡ slots.old.items ++ minor_cycle minors disks.now minor) }
{
    for disk in disks {
        let len = disk.chunk_len(minors);
        let chunk = disk.aired_chunk(minors, minor);
        push_chunk(slots, disk.items(), (chunk * len) as usize, len as usize)?;
    }
    Ok(())
}

/// The slots of the program of the disks.
pub fn slots_of(alloc: Global, disks: &[Disk], minors: u64) -> Result<Vec<Option<u16>>, AllocError>
    requires limits { AreDeckDisks disks.now }
    requires minors { minors ≡ num_minors disks.now }
    requires few { minors ≤ MOST_SLOTS }
    ensures { IfOk result (λ slots. slots.items ≡ program disks.now) }
{
    let mut slots = Vec::new(alloc);
    for minor in 0..minors {
        push_minor(&mut slots, disks, minors, minor)?;
    }
    Ok(slots)
}
