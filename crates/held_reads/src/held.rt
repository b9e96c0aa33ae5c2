//! Held reads with the entries that were heard with them: control columns or write vectors.
//!
//! With the list of reads there is an array of their cycles, by which one search tests new entries against all of them.
//! Contracts see the number of items and the held reads in order. Only `new` takes memory.

ghost use Rattle.std.specs.Prelude.{◌≡◌, ◌↔◌, ℕ, ◌<◌, ◌≤◌, ◌==◌, [], ◌∷◌, ◌++◌, length, map, All, IsNone, IfSome, IfOk};
ghost use Rattle.air_history.specs.Ages.{spans_too_far};
ghost use Rattle.air_history.specs.Reads.{last_cycle};
ghost use Rattle.air_history.specs.Clashes.{read_at, entry_in, heard_clash, newest_heard, first_heard};
ghost use Rattle.air_history.specs.HeldReads.{IsNew};
ghost use Rattle.held_reads.specs.HeardReads.{heard_read};
ghost use Rattle.held_reads.specs.Searches.{has_since, is_reached};
ghost use Rattle.held_reads.specs.HeldCycles.{cycles_of, AreHeldOnce};

use crate::cycles::{NOT_HELD, first_clash};
use crate::reads::{HeldRead, first_entry, least_having, least_of_cycle, newest_of, span_with};
use air_base::limits::{AGE_CAP, MOST_ASKED};
use air_base::{Clash, NoMemory};
use std::alloc::Global;
use std::marker::Model;

/// How many reads there is room for: as many as a query has items.
pub const ROOM: usize = MOST_ASKED;

/// Held reads, in order.
#[derive(Debug, Drop)]
pub struct HeldEntries {
    n: u16,
    len: usize,
    cycles: Vec<u32>,
    places: Vec<HeldRead>,
}

impl Model for HeldEntries {
    ghost use Rattle.air_history.specs.HeldReads.{HeldReads};

    ghost Value = { HeldReads };

    ghost use Rattle.held_reads.specs.HeldFields.{held_reads};
    ghost use Rattle.held_reads.specs.HeldCycles.{KeepsCycles};

    ghost view = { held_reads };

    ghost invariant = { KeepsCycles };
}

impl HeldEntries {
    /// Makes a list that holds nothing, with room for sixteen reads over `n` items.
    pub fn new(alloc: Global, n: u16) -> Result<HeldEntries, NoMemory>
        ensures { IfOk result (λ h. h ≡ record { n = n; reads = [] }) }
    {
        let cycles = vec![in alloc; NOT_HELD; n as usize]?;
        let mut places = Vec::new(alloc);
        for _ in 0..ROOM {
            places.push(HeldRead::blank(alloc, n)?)?;
        }
        Ok(HeldEntries {
            n,
            len: 0,
            cycles,
            places,
        })
    }

    /// Returns the number of held reads, which is at most the room.
    pub fn len(&self) -> usize
        ensures number { result ≡ length self.now.reads }
        ensures within { result ≤ ROOM }
    {
        self.len
    }

    /// Returns the cycle of the last held read.
    pub fn last(&self) -> Option<u32>
        ensures none { IsNone result ↔ (self.now.reads ≡ []) }
        ensures cycle { IfSome result (λ c. c ≡ last_cycle (map read_at self.now.reads)) }
    {
        if self.len == 0 {
            return None;
        }
        Some(self.places[self.len - 1].cycle)
    }

    /// Returns the cycle of the first held read; 0 if nothing is held.
    pub fn first(&self) -> u32
        ensures { result ≡ first_heard self.now.reads }
    {
        if self.len == 0 {
            return 0;
        }
        self.places[0].cycle
    }

    /// Returns the newest cycle of the held reads; 0 if nothing is held.
    pub fn newest(&self) -> u32
        ensures { result ≡ newest_heard self.now.reads }
    {
        newest_of(&self.places[..self.len])
    }

    /// Tells whether the held reads and a read of this cycle, of any item, are too far apart to be judged by ages.
    #[tactic(auto, unfolding(air_history::specs::Ages::spans_too_far))]
    pub fn spans(&self, cycle: u32) -> bool
        ensures { (item : ℕ) → result ≡ spans_too_far (map read_at self.now.reads ++ record { item = item; cycle = cycle } ∷ []) }
    {
        span_with(&self.places[..self.len], cycle) >= AGE_CAP
    }

    /// Returns the cycle in which each of the `n` items is held; the greatest `u32` for an item that isn't held.
    pub fn cycles(&self) -> &[u32]
        ensures { result.now ≡ cycles_of self.now }
    {
        &self.cycles
    }

    /// For proofs only: tells the caller that each held item is held in one cycle.
    pub fn shows_held_once(&self)
        ensures { AreHeldOnce self.now.reads }
    {
        let _places = &self.places;
    }

    /// Returns the entry of an item that was heard with the first held read of a cycle; 0 if no held read is of that cycle.
    pub fn first_entry(&self, cycle: u32, item: u16) -> u32
        requires { item < self.now.n }
        ensures { result ≡ entry_in self.now.reads cycle item }
    {
        first_entry(&self.places[..self.len], cycle, item)
    }

    /// Returns the held read with the least item number among those of a cycle.
    pub fn least_of_cycle(&self, cycle: u32) -> Option<Clash>
        ensures { result ≡ heard_clash (λ r. r.cycle == cycle) self.now.reads }
    {
        least_of_cycle(&self.places[..self.len], cycle)
    }

    /// Returns the held read with the least item number among those whose entries have the item at the cycle or later.
    pub fn least_having(&self, item: u16, cycle: u32) -> Option<Clash>
        requires { item < self.now.n }
        ensures { result ≡ heard_clash (has_since item cycle) self.now.reads }
    {
        least_having(&self.places[..self.len], item, cycle)
    }

    /// Returns the held read with the least item number among those whose cycle the entries reach.
    pub fn least_reached(&self, entries: &[u32]) -> Option<Clash>
        requires sized { length entries.now ≡ self.now.n }
        requires below { All (λ entry. entry < NOT_HELD) entries.now }
        ensures { result ≡ heard_clash (is_reached entries.now) self.now.reads }
    {
        first_clash(entries, &self.cycles, self.n)
    }

    /// Holds the new read too, after those before it.
    pub fn hold(&mut self, item: u16, cycle: u32, entries: &[u32])
        requires room { length self.old.reads < ROOM }
        requires new { IsNew self.old (heard_read item cycle entries.now) }
        ensures { self.new ≡ record self.old { reads = self.old.reads ++ heard_read item cycle entries.now ∷ [] } }
    {
        let place = &mut self.places[self.len];
        place.item = item;
        place.cycle = cycle;
        place.entries.copy_from_slice(entries);
        self.cycles[item as usize] = cycle;
        self.len += 1;
    }

    /// Drops all held reads; the room stays.
    pub fn clear(&mut self)
        ensures { self.new ≡ record self.old { reads = [] } }
    {
        self.cycles.fill(NOT_HELD);
        self.len = 0;
    }
}
