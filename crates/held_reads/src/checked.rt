//! The reads that an attempt holds under a policy, whose check is `C`.
//!
//! Contracts see the number of items and the held reads in order. `clashes` gives the clash by the entries, which is the clash
//! by every history that aired them. The crate of a policy names this type for its own check. Only `new` takes memory.

ghost use Rattle.std.specs.Prelude.{◌≡◌, ◌↔◌, ℕ, ◌<◌, ◌≤◌, [], ◌∷◌, ◌++◌, List, length, map, IsNone, IfSome, IfOk, None};
ghost use Rattle.air_history.specs.declared.histories.Event.{Event};
ghost use Rattle.air_history.specs.Ages.{spans_too_far};
ghost use Rattle.air_history.specs.Reads.{last_cycle};
ghost use Rattle.air_history.specs.Clashes.{read_at, clash_by_history, clash_by_entries};
ghost use Rattle.air_history.specs.ClashLaws.{HaveAiredEntries};
ghost use Rattle.air_history.specs.Columns.{scheme_of};
ghost use Rattle.air_history.specs.HeldReads.{IsNew};
ghost use Rattle.held_reads.specs.HeardReads.{heard_read};
ghost use Rattle.held_reads.specs.HeldCycles.{cycles_of};
ghost use Rattle.held_reads.specs.Policies.{MayFollow, IsNoneIfTaken};

use crate::checks::PolicyCheck;
use crate::held::{HeldEntries, ROOM};
use air_base::{Clash, NoMemory};
use std::alloc::Global;
use std::marker::{Model, PhantomData};

/// The held reads of an attempt, in an order that the policy allows.
#[derive(Debug, Drop)]
pub struct CheckedReads<C: PolicyCheck> {
    held: HeldEntries,
    check: PhantomData<C>,
}

impl<C: PolicyCheck> Model for CheckedReads<C> {
    ghost use Rattle.std.specs.Prelude.{map};
    ghost use Rattle.air_history.specs.Clashes.{read_at};
    ghost use Rattle.air_history.specs.ClashLaws.{IsAllowed};
    ghost use Rattle.air_history.specs.HeldReads.{HeldReads};

    ghost Value = { HeldReads };

    ghost view = { λ c. c.held };

    ghost invariant = { λ c. IsAllowed C.policy (map read_at c.held.reads) };
}

impl<C: PolicyCheck> CheckedReads<C> {
    /// Makes a list that holds nothing, with room for sixteen reads over `n` items.
    pub fn new(alloc: Global, n: u16) -> Result<CheckedReads<C>, NoMemory>
        ensures { IfOk result (λ h. h ≡ record { n = n; reads = [] }) }
    {
        Ok(CheckedReads {
            held: HeldEntries::new(alloc, n)?,
            check: PhantomData,
        })
    }

    /// Returns the number of held reads, which is at most the room.
    pub fn len(&self) -> usize
        ensures number { result ≡ length self.now.reads }
        ensures within { result ≤ ROOM }
    {
        self.held.len()
    }

    /// Returns the cycle of the last held read.
    pub fn last(&self) -> Option<u32>
        ensures none { IsNone result ↔ (self.now.reads ≡ []) }
        ensures cycle { IfSome result (λ c. c ≡ last_cycle (map read_at self.now.reads)) }
    {
        self.held.last()
    }

    /// Tells whether the held reads and a read of this cycle, of any item, are too far apart to be judged by ages.
    pub fn spans(&self, cycle: u32) -> bool
        ensures { (item : ℕ) → result ≡ spans_too_far (map read_at self.now.reads ++ record { item = item; cycle = cycle } ∷ []) }
    {
        self.held.spans(cycle)
    }

    /// Returns the cycle in which each of the `n` items is held; the greatest `u32` for an item that isn't held.
    pub fn cycles(&self) -> &[u32]
        ensures { result.now ≡ cycles_of self.now }
    {
        self.held.cycles()
    }

    /// Returns the held read with the least item number that clashes with the new one.
    pub fn clashes(&self, item: u16, cycle: u32, entries: &[u32]) -> Option<Clash>
        requires new { IsNew self.now (heard_read item cycle entries.now) }
        requires order { MayFollow C.policy self.now (heard_read item cycle entries.now) }

        // By the entries, for every order of reads that the policy allows.
        ensures entries { result ≡ clash_by_entries C.policy self.now.reads (heard_read item cycle entries.now) }

        // By each history that has these entries at their cycles: in full or, if the reads aren't too far apart, as ages give
        // them.
        ensures history { let x = heard_read item cycle entries.now in (H : List Event) →
            HaveAiredEntries (scheme_of C.policy) self.now.n H self.now.reads x →
            result ≡ clash_by_history C.policy H (map read_at self.now.reads) (read_at x) }
        ensures taken { let x = heard_read item cycle entries.now in (H : List Event) →
            HaveAiredEntries (scheme_of C.policy) self.now.n H self.now.reads x →
            IsNoneIfTaken C.policy H (map read_at self.now.reads) (read_at x) result }
    {
        C::clash(&self.held, item, cycle, entries)
    }

    /// Holds the new read too, after those before it, if `clashes` answered None for it. `len` tells whether there is room.
    pub fn hold(&mut self, item: u16, cycle: u32, entries: &[u32])
        requires room { length self.old.reads < ROOM }
        requires new { IsNew self.old (heard_read item cycle entries.now) }
        requires order { MayFollow C.policy self.old (heard_read item cycle entries.now) }
        requires clear { clash_by_entries C.policy self.old.reads (heard_read item cycle entries.now) ≡ None }
        ensures { self.new ≡ record self.old { reads = self.old.reads ++ heard_read item cycle entries.now ∷ [] } }
    {
        self.held.hold(item, cycle, entries);
    }

    /// Drops all held reads; the room stays.
    pub fn clear(&mut self)
        ensures { self.new ≡ record self.old { reads = [] } }
    {
        self.held.clear();
    }
}
