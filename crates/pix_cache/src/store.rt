//! The copy slots: what each holds, and the columns of all in one list.
//!
//! A column stays where it was put until another is put in its place.

ghost use Rattle.std.specs.Prelude.{◌≡◌, ◌<◌, ◌≤◌, length, get_or, IfOk, slice_set};
ghost use Rattle.air_base.specs.declared.limits.TheConstants.{ITEM_NUMBERS, MOST_ROOM};
ghost use Rattle.pix_cache.specs.Stores.{no_store, stored_copy};

use air_base::NoMemory;
use std::alloc::Global;
use std::marker::Model;

/// A kept copy, lent.
#[derive(Debug, Drop)]
pub struct Kept<'a> {
    pub cycle: u32,
    pub value: u64,
    pub column: &'a [u32],
}

/// What a copy slot holds apart from a column.
#[derive(Clone, Copy, Drop)]
struct CopySlot {
    cycle: u32,
    value: u64,
}

/// This many copy slots, each for a copy with `n` entries.
#[derive(Drop)]
pub struct Store {
    n: usize,
    copy_slots: Vec<CopySlot>,
    entries: Vec<u32>,
}

impl Model for Store {
    ghost use Rattle.pix_cache.specs.Stores.{Store as Stores};

    ghost Value = { Stores };

    ghost use Rattle.pix_cache.specs.Private.StoreFields.{IsStore, store_of};

    ghost view = { store_of };

    ghost invariant = { IsStore };
}

impl Store {
    /// This many copy slots, each for a copy with `n` entries. All memory is taken here.
    pub fn new(alloc: Global, copy_slots: usize, n: usize) -> Result<Store, NoMemory>
        requires few { copy_slots ≤ MOST_ROOM }
        requires items { n ≤ ITEM_NUMBERS }
        ensures width { IfOk result (λ s. s.width ≡ n) }
        ensures copy_slots { IfOk result (λ s. length s.stores ≡ copy_slots) }
    {
        let blank = CopySlot { cycle: 0, value: 0 };
        Ok(Store {
            n,
            copy_slots: vec![in alloc; blank; copy_slots]?,
            entries: vec![in alloc; 0; copy_slots * n]?,
        })
    }

    /// The copy in a copy slot.
    pub fn get(&self, copy_slot: u16) -> Kept<'_>
        requires { copy_slot < length self.now.stores }
        ensures { get_or self.now.stores copy_slot no_store ≡ stored_copy result.cycle result.value result.column.now }
    {
        let from = copy_slot as usize * self.n;
        let held = self.copy_slots[copy_slot as usize];
        Kept {
            cycle: held.cycle,
            value: held.value,
            column: &self.entries[from..from + self.n],
        }
    }

    /// Puts a copy in place of what a copy slot held.
    pub fn put(&mut self, copy_slot: u16, cycle: u32, value: u64, column: &[u32])
        requires within { copy_slot < length self.old.stores }
        requires sized { length column.now ≡ self.old.width }
        ensures { self.new ≡ record self.old { stores = slice_set self.old.stores copy_slot (stored_copy cycle value column.now) } }
    {
        let from = copy_slot as usize * self.n;
        self.copy_slots[copy_slot as usize] = CopySlot { cycle, value };
        self.entries[from..from + self.n].copy_from_slice(column);
    }
}
