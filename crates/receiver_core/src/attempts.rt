//! The reads that an attempt holds, and the one rule for a further read.
//!
//! `HeldEntries` has them with their entries, by which the policy's check judges; `line_reads` has the same reads as verdict lines
//! have them. A further read is of a bucket or of a kept copy. Contracts see the policy and the held reads in order.

ghost use Rattle.std.specs.Prelude.{◌≡◌, ℕ, ◌<◌, [], ◌∷◌, ◌++◌, length, map, IfOk, MatchOption};
ghost use Rattle.air_history.specs.Columns.{scheme_of};
ghost use Rattle.air_history.specs.Clashes.{is_late};
ghost use Rattle.air_model.specs.Judges.{by_entries, heard_of, place_of};
ghost use Rattle.air_model.specs.SessionLaws.{are_far};
ghost use Rattle.air_history.specs.HeldReads.{IsNew};
ghost use Rattle.air_model.specs.Reads.{read_with};
ghost use Rattle.receiver_core.specs.Private.Attempts.{columns_of, line_read};

use crate::checks::{clash_under, is_late_under};
use crate::reads::ReadList;
use air_base::{Clash, NoMemory, Policy, ReadOf};
use held_reads::{HeldEntries, ROOM};
use std::alloc::Global;
use std::marker::Model;

/// The held reads of an attempt, in order.
#[derive(Drop)]
pub struct Attempt {
    policy: Policy,
    held: HeldEntries,
    line_reads: ReadList,
}

impl Model for Attempt {
    ghost use Rattle.receiver_core.specs.Private.Attempts.{HeldValues};

    ghost Value = { HeldValues };

    ghost use Rattle.receiver_core.specs.Private.AttemptFields.{KeepsBoth, held_values};

    ghost view = { held_values };

    ghost invariant = { KeepsBoth };
}

impl Attempt {
    /// Makes an attempt that holds nothing, by this policy and over this number of items.
    pub fn new(alloc: Global, policy: Policy, items: u16) -> Result<Attempt, NoMemory>
        ensures { IfOk result (λ a. a ≡ record { policy = policy; items = items; reads = [] }) }
    {
        Ok(Attempt {
            policy,
            held: HeldEntries::new(alloc, items)?,
            line_reads: ReadList::new(),
        })
    }

    /// Returns the number of held reads.
    pub fn len(&self) -> usize
        ensures { result ≡ length self.now.reads }
    {
        self.held.len()
    }

    /// Returns the held reads as a verdict line has them.
    pub fn line_reads(&self) -> &[ReadOf]
        ensures { result.now ≡ map line_read self.now.reads }
    {
        self.line_reads.as_slice()
    }

    /// Tells whether a read in this cycle comes too late after the held ones, regardless of its item.
    pub fn is_late(&self, cycle: u32) -> bool
        ensures { (item : ℕ) → result ≡ is_late self.now.policy (map place_of self.now.reads) (record { item = item; cycle = cycle }) }
    {
        is_late_under(self.policy, &self.held, cycle)
    }

    /// Tells whether a read in this cycle lies too far from the held ones to be judged, regardless of its item. That is so only in versions whose
    /// buckets have ages: from 2 on.
    pub fn is_far(&self, version: u8, cycle: u32) -> bool
        ensures { (item : ℕ) → result ≡ are_far version (map place_of self.now.reads ++ record { item = item; cycle = cycle } ∷ []) }
    {
        version >= 2 && self.held.spans(cycle)
    }

    /// Holds the read if it clashes with no held one; else names the clash.
    pub fn try_hold(&mut self, item: u16, cycle: u32, value: u64, entries: &[u32]) -> Option<Clash>
        requires room { length self.old.reads < ROOM }
        requires new { IsNew (columns_of self.old) (heard_of (read_with item cycle value entries.now)) }
        ensures clash { result ≡ (by_entries (scheme_of self.old.policy)).clash self.old.reads (read_with item cycle value entries.now) }
        ensures held { MatchOption result (self.new ≡ record self.old { reads = self.old.reads ++ read_with item cycle value entries.now ∷ [] }) (λ _. self.new ≡ self.old) }
    {
        if let Some(clash) = clash_under(self.policy, &self.held, item, cycle, entries) {
            return Some(clash);
        }
        self.held.hold(item, cycle, entries);
        self.line_reads.push(ReadOf { item, cycle, value });
        None
    }

    /// Drops all held reads.
    pub fn clear(&mut self)
        ensures { self.new ≡ record self.old { reads = [] } }
    {
        self.held.clear();
        self.line_reads.clear();
    }
}
