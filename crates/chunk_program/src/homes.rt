//! Where each item comes in a cycle, as a table by item.
//!
//! Five numbers an item, made from its disk and its place on the disk: all that a receiver or a plan asks of a program follows
//! from them in one step.

ghost use Rattle.std.specs.Prelude.{◌≡◌, ℕ, ◌*◌, ◌<◌, ◌≤◌, IfOk, Some, length, slice_get};
ghost use Rattle.air_base.specs.declared.limits.TheConstants.{MOST_SLOTS};
ghost use Rattle.air_model.specs.Disks.{all_items};
ghost use Rattle.air_model.specs.Programs.{minor_len, num_chunks, num_minors, program};
ghost use Rattle.chunk_program.specs.declared.homes.Home.{Home};
ghost use Rattle.chunk_program.specs.Homes.{FitsHome, IsHome, first_slot};
ghost use Rattle.chunk_program.specs.CutConditions.{AreDeckDisks};

use crate::cuts::Cut;
use crate::disks::Disk;
use crate::layout::len_before;
use std::alloc::{AllocError, Global};

/// The number of an item's disk, how often a cycle airs the item, how far apart and in which slot first, and the number of its disk's
/// chunks.
#[derive(Clone, Copy)]
pub struct Home {
    pub disk: u32,
    pub times: u32,
    pub gap: u32,
    pub first: u32,
    pub chunks: u32,
}

/// The home of the item at a place of a disk of this number, whose chunks begin after `slots_before` slots of a minor cycle.
fn home_at(
    disk: &Disk,
    number: u32,
    minors: u64,
    minor_slots: u64,
    slots_before: u64,
    place: u32,
) -> Home
    requires { FitsHome minors minor_slots slots_before place disk.now }
    ensures disk { result.disk ≡ number }
    ensures times { result.times ≡ disk.now.freq }
    ensures gap { result.gap ≡ num_chunks minors disk.now * minor_slots }
    ensures first { result.first ≡ first_slot minors minor_slots slots_before place disk.now }
    ensures chunks { result.chunks ≡ num_chunks minors disk.now }
{
    let chunks = disk.chunks(minors);
    let len = disk.chunk_len(minors);
    let place = u64::from(place);
    Home {
        disk: number,
        times: disk.freq(),
        gap: (chunks * minor_slots) as u32,
        first: (place / len * minor_slots + (slots_before + place % len)) as u32,
        chunks: chunks as u32,
    }
}

/// The home of an item, in the program of a cut with these numbers.
fn home_of(cut: &Cut, minors: u64, minor_slots: u64, item: u16) -> Home
    requires limits { AreDeckDisks cut.now }
    requires minors { minors ≡ num_minors cut.now }
    requires minor_slots { minor_slots ≡ minor_len minors cut.now }
    requires short { length (program cut.now) ≤ MOST_SLOTS }
    requires item { item < length (all_items cut.now) }
    ensures { IsHome cut.now item result }
{
    let disk = cut.disk_of(item);
    let number = disk as usize;
    let place = cut.place_of(item);
    let disks = cut.disks();
    let slots_before = len_before(disks, minors, number);
    home_at(
        &disks[number],
        disk,
        minors,
        minor_slots,
        slots_before,
        place,
    )
}

/// The homes of all items, by number.
pub fn homes(
    alloc: Global,
    cut: &Cut,
    minors: u64,
    minor_slots: u64,
) -> Result<Vec<Home>, AllocError>
    requires limits { AreDeckDisks cut.now }
    requires minors { minors ≡ num_minors cut.now }
    requires minor_slots { minor_slots ≡ minor_len minors cut.now }
    requires short { length (program cut.now) ≤ MOST_SLOTS }
    ensures len { IfOk result (λ homes. length homes.items ≡ length (all_items cut.now)) }
    ensures homes { IfOk result (λ homes. (i : ℕ) (h : Home) → slice_get homes.items i ≡ Some h → IsHome cut.now i h) }
{
    let items = cut.order().len() as u16;
    let mut homes = Vec::new(alloc);
    for item in 0..items {
        homes.push(home_of(cut, minors, minor_slots, item))?;
    }
    Ok(homes)
}
