//! What is kept of a history: for each item its writes in order.

ghost use Rattle.std.specs.Prelude.{◌≡◌, ◌<◌, ◌≤◌, ◌-◌, ◌==◌, [], ◌∷◌, ◌++◌, cond, count_by, get_or, length, nat_lt, None, Some, OnOk};
ghost use Rattle.std.specs.List.Sorted.{IsNonDecreasingBy};
ghost use Rattle.live_replay.specs.declared.writes.ItemWrite.{ItemWrite};

use air_base::NoMemory;
use std::alloc::Global;
use std::marker::Model;

/// A write of an item: the place and the cycle of its commit, and the value that it left.
#[derive(Clone, Copy, Debug, PartialEq, Eq)]
pub struct ItemWrite {
    pub place: u64,
    pub cycle: u32,
    pub value: u64,
}

/// The writes of an item, in order.
#[derive(Debug, Drop)]
pub struct ItemWrites {
    writes: Vec<ItemWrite>,
}

impl Model for ItemWrites {
    ghost use Rattle.std.specs.Prelude.{List};
    ghost use Rattle.live_replay.specs.declared.writes.ItemWrite.{ItemWrite};

    ghost Value = { List ItemWrite };

    ghost view = { λ w. w.writes.items };
}

impl ItemWrites {
    /// No writes.
    pub fn new(alloc: Global) -> ItemWrites
        ensures { result ≡ [] }
    {
        ItemWrites {
            writes: Vec::new(alloc),
        }
    }

    /// The writes in order.
    pub fn as_slice(&self) -> &[ItemWrite]
        ensures { result.now ≡ self.now }
    {
        &self.writes
    }

    /// Adds a write.
    pub fn push(&mut self, write: ItemWrite) -> Result<(), NoMemory>
        ensures { OnOk result (self.new ≡ self.old ++ write ∷ []) }
    {
        self.writes.push(write)?;
        Ok(())
    }

    /// How many of the writes are of an earlier cycle.
    pub fn before(&self, cycle: u32) -> usize
        requires { IsNonDecreasingBy (λ w. w.cycle) self.now }
        ensures { result ≡ count_by (λ w. nat_lt w.cycle cycle) self.now }
    {
        self.writes.partition_point(|write| write.cycle < cycle)
    }
    /// The place of the last of the first writes, if there are any.
    pub fn last_of(&self, count: usize) -> Option<u64>
        requires { count ≤ length self.now }
        ensures { (d : ItemWrite) → result ≡ cond (count == 0) None (Some (get_or self.now (count - 1) d).place) }
    {
        if count == 0 {
            return None;
        }
        Some(self.writes[count - 1].place)
    }

    /// The place of a write, or this end if there is none.
    pub fn place_of(&self, at: usize, end: u64) -> u64
        ensures some { (d : ItemWrite) → at < length self.now → result ≡ (get_or self.now at d).place }
        ensures none { length self.now ≤ at → result ≡ end }
    {
        if at >= self.writes.len() {
            return end;
        }
        self.writes[at].place
    }
}
