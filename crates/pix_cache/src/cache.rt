//! The cache: contracts see its room, the PIX numbers and the kept copies by rising item.
//!
//! `places` has the copy slot of each item that has a copy, `store` what each copy slot holds, and `tree` the copy slot to take
//! next.

ghost use Rattle.std.specs.Prelude.{◌≡◌, ◌≢◌, ◌↔◌, ◌<◌, ◌≤◌, ◌++◌, ℕ, true, [], List, length, sum_by, None, if◌then◌else◌, IfOk, MatchOption, IsPermutation, slice_set};
ghost use Rattle.air_base.specs.declared.limits.TheConstants.{ITEM_NUMBERS, MOST_ROOM};
ghost use Rattle.air_model.specs.Reads.{Read, read_with};
ghost use Rattle.air_model.specs.Copies.{keep, pix_of, with_copy, without_item};
ghost use Rattle.pix_cache.specs.Caches.{FindsRoom, GivesWay, HasCopy, IsLeastCopy, copy_among};
ghost use Rattle.pix_cache.specs.Private.KeepAnswers.{IsKeepAnswer};
ghost use Rattle.pix_cache.specs.declared.cache.KeepAnswer.TheVariants.{Declined, Evicted, Placed, Replaced};

use crate::leaf::Leaf;
use crate::store::{Kept, Store};
use crate::tree::Tree;
use air_base::NoMemory;
use std::alloc::Global;
use std::marker::Model;

/// What was done with a newcomer.
#[derive(Clone, Copy, Debug, PartialEq, Eq, Drop)]
pub enum KeepAnswer {
    /// It took the place of its item's copy.
    Replaced,
    /// There was room.
    Placed,
    /// It is the least of all.
    Declined,
    /// It took the place of the least copy, that of this item.
    Evicted(u16),
}

/// At most this many copies, each of an item of its own.
#[derive(Drop)]
pub struct PixCache {
    pix: Vec<u64>,
    places: Vec<Option<u16>>,
    store: Store,
    tree: Tree,
}

impl Model for PixCache {
    ghost use Rattle.pix_cache.specs.Caches.{Cache};

    ghost Value = { Cache };

    ghost use Rattle.pix_cache.specs.CacheFields.{KeepsCopies, cache_of};

    ghost view = { cache_of };

    ghost invariant = { KeepsCopies };
}

/// Takes the copy slot from the copy of the leaf, if the leaf has one.
fn leave(places: &mut [Option<u16>], leaf: &Leaf)
    requires { leaf.now.kept ≡ true → leaf.now.item < length places.old }
    ensures { places.new ≡ (if leaf.now.kept then slice_set places.old leaf.now.item None else places.old) }
{
    if leaf.kept {
        places[leaf.item as usize] = None;
    }
}

/// The answer to a newcomer that takes this copy slot.
fn answer(leaf: &Leaf) -> KeepAnswer
    ensures { result ≡ (if leaf.now.kept then Evicted leaf.now.item else Placed) }
{
    if leaf.kept {
        KeepAnswer::Evicted(leaf.item)
    } else {
        KeepAnswer::Placed
    }
}

impl PixCache {
    /// No copies yet, with this much room, for as many items as there are PIX numbers. All memory is taken here.
    pub fn new(alloc: Global, room: u32, pix: &[u64]) -> Result<PixCache, NoMemory>
        requires room { room ≤ MOST_ROOM }
        requires items { length pix.now ≤ ITEM_NUMBERS }
        ensures { IfOk result (λ c. c ≡ record { room = room; pix = pix.now; copies = [] }) }
    {
        let copy_slots = room as usize;
        Ok(PixCache {
            pix: pix.to_vec(alloc)?,
            places: vec![in alloc; None; pix.len()]?,
            store: Store::new(alloc, copy_slots, pix.len())?,
            tree: Tree::new(alloc, copy_slots)?,
        })
    }

    /// The kept copy of an item, in constant time.
    pub fn get(&self, item: u16) -> Option<Kept<'_>>
        requires { item < length self.now.pix }
        ensures { MatchOption result (copy_among item self.now.copies ≡ None)
            (λ k. copy_among item self.now.copies ≡ Some (read_with item k.cycle k.value k.column.now)) }
    {
        let copy_slot = self.places[item as usize]?;
        Some(self.store.get(copy_slot))
    }

    /// Keeps the newcomer, if it isn't the least of all: in place of its item's copy, in a free copy slot, or in that of the
    /// least copy. The time grows with the length of the column and with the logarithm of the number of copy slots.
    pub fn keep(&mut self, item: u16, cycle: u32, value: u64, column: &[u32]) -> KeepAnswer
        requires item { item < length self.old.pix }
        requires column { length column.now ≡ length self.old.pix }

        // The copies are those of the old ones and the newcomer with the greatest PIX numbers, as many as there is room for.
        ensures kept { let x = read_with item cycle value column.now in
            self.new ≡ record self.old { copies = keep self.old.room self.old.pix (with_copy x self.old.copies) } }

        // No choice of as many of these has a greater sum.
        ensures most { let x = read_with item cycle value column.now in (chosen rest : List Read) →
            IsPermutation (chosen ++ rest) (with_copy x self.old.copies) → length chosen ≤ length self.new.copies →
            sum_by (pix_of self.old.pix) chosen ≤ sum_by (pix_of self.old.pix) self.new.copies }

        // The copies of other items stay, except the one that gives way.
        ensures others { (other : ℕ) → other < length self.old.pix → other ≢ item → result ≢ Evicted other →
            copy_among other self.new.copies ≡ copy_among other self.old.copies }

        // Each answer is given if and only if its condition holds.
        ensures replaced { let x = read_with item cycle value column.now in (result ≡ Replaced) ↔ HasCopy self.old.copies x }
        ensures placed { let x = read_with item cycle value column.now in (result ≡ Placed) ↔ FindsRoom self.old.room self.old.copies x }
        ensures declined { let x = read_with item cycle value column.now in
            (result ≡ Declined) ↔ IsLeastCopy self.old.room self.old.pix self.old.copies x }
        ensures evicted { let x = read_with item cycle value column.now in (least : ℕ) →
            (result ≡ Evicted least) ↔ GivesWay self.old.room self.old.pix self.old.copies x least }
    {
        self.offer(item, cycle, value, column)
    }

    /// Does what `keep` does, and gives the answer by case.
    fn offer(&mut self, item: u16, cycle: u32, value: u64, column: &[u32]) -> KeepAnswer
        requires item { item < length self.old.pix }
        requires column { length column.now ≡ length self.old.pix }
        ensures kept { let x = read_with item cycle value column.now in
            self.new ≡ record self.old { copies = keep self.old.room self.old.pix (with_copy x self.old.copies) } }
        ensures others { (other : ℕ) → other < length self.old.pix → other ≢ item → result ≢ Evicted other →
            copy_among other self.new.copies ≡ copy_among other self.old.copies }
        ensures answer { let x = read_with item cycle value column.now in
            IsKeepAnswer self.old.room self.old.pix self.old.copies x result }
    {
        if let Some(copy_slot) = self.places[item as usize] {
            self.store.put(copy_slot, cycle, value, column);
            return KeepAnswer::Replaced;
        }
        let pix = self.pix[item as usize];
        let Some(least) = self.tree.room_for(item, pix) else {
            return KeepAnswer::Declined;
        };
        leave(&mut self.places, &least);
        let copy_slot = least.copy_slot;
        self.places[item as usize] = Some(copy_slot);
        self.store.put(copy_slot, cycle, value, column);
        self.tree.put(Leaf {
            copy_slot,
            kept: true,
            pix,
            item,
        });
        answer(&least)
    }

    /// Drops the copy of an item, if there is one.
    pub fn drop_copy(&mut self, item: u16)
        requires { item < length self.old.pix }
        ensures { self.new ≡ record self.old { copies = without_item item self.old.copies } }
    {
        if let Some(copy_slot) = self.places[item as usize] {
            self.places[item as usize] = None;
            self.tree.put(Leaf::empty(copy_slot));
        }
    }

    /// Replaces the PIX numbers; the copies stay.
    pub fn reorder(&mut self, pix: &[u64])
        requires { length pix.now ≡ length self.old.pix }
        ensures { self.new ≡ record self.old { pix = pix.now } }
    {
        self.pix.copy_from_slice(pix);
        self.tree.reorder(pix);
    }
}
