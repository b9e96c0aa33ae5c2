//! The cut of a deck: the order of its items, and the disks that take consecutive ranges of it.
//!
//! Contracts see a cut as its disks. The order is made by the standard sort: each item is ranked by its rate, greater first, then
//! by its number. The disks are walked in order, and each item's place is put at its number: so a place is found in one step.

ghost use Rattle.std.specs.Prelude.{◌≡◌, ℕ, ◌<◌, ◌≤◌, ◌++◌, List, Some, All, IfOk, length, slice_get};
ghost use Rattle.air_base.specs.declared.limits.TheConstants.{ITEM_NUMBERS};
ghost use Rattle.air_model.specs.Disks.{Disk as ModelDisk, all_items, cut, order};
ghost use Rattle.air_model.specs.Airings.{disk_number};
ghost use Rattle.chunk_program.specs.CutConditions.{AreDeckDisks, IsCuttable};
ghost use Rattle.chunk_program.specs.Places.{place_number};
ghost use Rattle.chunk_program.specs.PlaceTables.{HasPlaces, IsPlace};
ghost use Rattle.chunk_program.specs.Private.Ranks.{ranks};

use crate::disks::{Disk, DiskSpec, cut_items};
use std::alloc::{AllocError, Global};
use std::cmp::Reverse;
use std::marker::Model;

/// The number of an item's disk, and the item's number within it.
#[derive(Clone, Copy)]
pub struct DiskPlace {
    pub disk: u32,
    pub place: u32,
}

/// The order of a deck's items, hottest first, and its disks.
#[derive(Drop)]
pub struct Cut {
    order: Vec<u16>,
    disks: Vec<Disk>,
    places: Vec<DiskPlace>,
}

impl Model for Cut {
    ghost use Rattle.std.specs.Prelude.{List};
    ghost use Rattle.air_model.specs.Disks.{Disk};

    ghost Value = { List Disk };

    ghost use Rattle.chunk_program.specs.CutFields.{IsCut};

    ghost view = { λ c. c.disks.items };

    ghost invariant = { IsCut };
}

/// The rank of each item: its rate, for which greater goes first, and its number.
fn ranks_of(alloc: Global, rates: &[u32]) -> Result<Vec<(Reverse<u32>, u16)>, AllocError>
    requires { length rates.now ≤ ITEM_NUMBERS }
    ensures { IfOk result (λ v. v.items ≡ ranks rates.now) }
{
    let mut ranked = Vec::new(alloc);
    for (item, rate) in rates.iter().enumerate() {
        ranked.push((Reverse(*rate), item as u16))?;
    }
    Ok(ranked)
}

/// The items by greater rate, then by smaller number.
fn order(alloc: Global, rates: &[u32]) -> Result<Vec<u16>, AllocError>
    requires { length rates.now ≤ ITEM_NUMBERS }
    ensures { IfOk result (λ items. items.items ≡ order rates.now) }
{
    let mut ranked = ranks_of(alloc, rates)?;
    ranked.sort_unstable();
    let mut items = Vec::new(alloc);
    for (_, item) in &ranked {
        items.push(*item)?;
    }
    Ok(items)
}

/// Puts the places of a disk's items into the list, of which the others stay.
fn put_places(places: &mut [DiskPlace], disk: u32, items: &[u16])
    requires within { All (λ i. i < length places.old) items.now }
    requires few { length items.now ≤ ITEM_NUMBERS }
    ensures { (disks : List ModelDisk) (done : List ℕ) → HasPlaces disks done places.old →
        ((q i : ℕ) → slice_get items.now q ≡ Some i → IsPlace disks i (record { disk = disk; place = q })) →
        HasPlaces disks (done ++ items.now) places.new }
{
    for (place, item) in items.iter().enumerate() {
        places[*item as usize] = DiskPlace {
            disk,
            place: place as u32,
        };
    }
}

/// The places of the items that the disks hold, `n` in all.
fn places(alloc: Global, disks: &[Disk], n: usize) -> Result<Vec<DiskPlace>, AllocError>
    requires limits { AreDeckDisks disks.now }
    requires count { n ≡ length (all_items disks.now) }
    ensures len { IfOk result (λ v. length v.items ≡ n) }
    ensures places { IfOk result (λ v. HasPlaces disks.now (all_items disks.now) v.items) }
{
    let mut places = vec![in alloc; DiskPlace { disk: 0, place: 0 }; n]?;
    for (number, disk) in disks.iter().enumerate() {
        put_places(&mut places, number as u32, disk.items());
    }
    Ok(places)
}

impl Cut {
    /// The cut of items with these rates into these disks.
    pub(crate) fn new(alloc: Global, rates: &[u32], specs: &[DiskSpec]) -> Result<Cut, AllocError>
        requires { IsCuttable rates.now specs.now }
        ensures cut { IfOk result (λ c. c ≡ cut (order rates.now) specs.now) }
        ensures limits { IfOk result AreDeckDisks }
    {
        let order = order(alloc, rates)?;
        let disks = cut_items(alloc, &order, specs)?;
        let places = places(alloc, &disks, rates.len())?;
        Ok(Cut {
            order,
            disks,
            places,
        })
    }

    /// The disks, in order.
    pub(crate) fn disks(&self) -> &[Disk]
        ensures { result.now ≡ self.now }
    {
        &self.disks
    }

    /// The items by greater rate, then by smaller number.
    pub fn order(&self) -> &[u16]
        ensures { result.now ≡ all_items self.now }
    {
        &self.order
    }

    /// The number of the disk that holds an item.
    pub fn disk_of(&self, i: u16) -> u32
        requires { i < length (all_items self.now) }
        ensures { result ≡ disk_number self.now i }
    {
        self.places[i as usize].disk
    }

    /// The item's number within its disk.
    pub fn place_of(&self, i: u16) -> u32
        requires { i < length (all_items self.now) }
        ensures { result ≡ place_number self.now i }
    {
        self.places[i as usize].place
    }
}
