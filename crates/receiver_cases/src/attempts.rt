//! Held reads with their items: a read that may not be tried or held is answered as that, and not passed on.
//!
//! `hold` and `try` add the result of a read: `not new`, `late`, the clash, `held`, or `goes with all` if it is not to be held.

ghost use Rattle.std.specs.Prelude.{◌↔◌, ◌≢◌, ◌<◌, All, IsTrue};
ghost use Rattle.air_history.specs.HeldReads.{IsNew};
ghost use Rattle.held_reads.specs.HeardReads.{heard_read};

use crate::held::PolicyHeld;
use air_base::{NoMemory, Policy};
use case_lines::add_line;
use held_reads::ROOM;
use std::alloc::Global;
use std::marker::Model;

/// Whether the item is none of the list.
fn is_free(items: &[u16], item: u16) -> bool
    ensures { IsTrue result ↔ All (λ held. held ≢ item) items.now }
{
    items.iter().all(|held| *held != item)
}

/// Whether each entry is below the cycle.
fn all_below(entries: &[u32], cycle: u32) -> bool
    ensures { IsTrue result ↔ All (λ entry. entry < cycle) entries.now }
{
    entries.iter().all(|entry| *entry < cycle)
}

/// Held reads, and the items that they have.
#[derive(Drop)]
pub struct Attempt {
    n: u16,
    items: Vec<u16>,
    held: PolicyHeld,
}

impl Model for Attempt {
    ghost use Rattle.std.specs.Prelude.{◌≡◌, map};
    ghost use Rattle.air_history.specs.HeldReads.{HeldReads};
    ghost use Rattle.receiver_cases.specs.PolicyReads.{held_of};

    ghost Value = { HeldReads };

    ghost view = { λ a. held_of a.held };

    ghost invariant = { λ a. ((held_of a.held).n ≡ a.n) × (map (λ r. r.item) (held_of a.held).reads ≡ a.items.items) };
}

impl Attempt {
    /// Nothing held by the policy, over `n` items.
    pub fn new(alloc: Global, policy: Policy, n: u16) -> Result<Attempt, NoMemory> {
        Ok(Attempt {
            n,
            items: Vec::new(alloc),
            held: PolicyHeld::new(alloc, policy, n)?,
        })
    }

    /// Whether the read is a new one.
    #[tactic(auto, using(crate::proofs::HeldItems::free_of))]
    fn is_new(&self, item: u16, cycle: u32, entries: &[u32]) -> bool
        ensures { IsTrue result → IsNew self.now (heard_read item cycle entries.now) }
    {
        item < self.n
            && entries.len() == self.n as usize
            && is_free(&self.items, item)
            && all_below(entries, cycle)
    }

    /// Tries the read, holds it if it clashes with none and is to be held, and adds the result.
    pub fn read(
        &mut self,
        item: u16,
        cycle: u32,
        entries: &[u32],
        hold: bool,
        came: &mut Vec<u8>,
    ) -> Result<(), NoMemory> {
        if !self.is_new(item, cycle, entries) {
            return add_line(b"not new", &[], came);
        }
        if cycle < self.held.least_cycle() {
            return add_line(b"late", &[], came);
        }
        if let Some(clash) = self.held.clashes(item, cycle, entries) {
            let numbers = [u64::from(clash.item), u64::from(clash.cycle)];
            return add_line(b"clash", &numbers, came);
        }
        if !hold || self.held.len() >= ROOM {
            return add_line(b"goes with all", &[], came);
        }
        self.items.push(item)?;
        self.held.hold(item, cycle, entries);
        add_line(b"held", &[], came)
    }

    /// Adds what is held.
    pub fn show(&self, came: &mut Vec<u8>) -> Result<(), NoMemory> {
        self.held.show(came)
    }

    /// Drops all held reads.
    pub fn clear(&mut self) {
        self.items.clear();
        self.held.clear();
    }
}
