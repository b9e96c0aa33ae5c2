//! The programs of all editions of a deck, and the cycles from which on they are in force.
//!
//! Contracts see the cycles of the replans, and of each edition the program and the PIX numbers. All of it is kept once: plans that are
//! shared count one holder more, and take no memory.

ghost use Rattle.std.specs.Prelude.{◌≡◌, ◌↔◌, ◌<◌, ◌≤◌, ◌+◌, ℕ, [], All, AllPairs, length, get_or, slice_get, count_by, nat_le, Some, IfErr, IfOk, IsTrue};
ghost use Rattle.air_base.specs.declared.limits.TheConstants.{MOST_REPLANS, MOST_SLOTS};
ghost use Rattle.air_model.specs.Disks.{all_items};
ghost use Rattle.air_model.specs.Decks.{Deck as ModelDeck, edition};
ghost use Rattle.air_model.specs.Programs.{program};
ghost use Rattle.chunk_program.specs.Editions.{HaveItems, edition_disks, planned_edition, plans_in};
ghost use Rattle.chunk_program.specs.Plans.{AreShort, IsPlansAnswer};

use crate::planning::{PixNumbers, cycles, numbers, programs};
use crate::programs::{PlanFault, Program};
use air_base::NoMemory;
use item_catalog::Deck;
use std::alloc::Global;
use std::marker::Model;
use std::sync::Arc;

/// What plans tell.
#[derive(Drop)]
struct PlanTable {
    cycles: Vec<u32>,
    programs: Vec<Program>,
    pix: Vec<PixNumbers>,
}

/// The plans of a deck.
#[derive(Drop)]
pub struct Plans {
    table: Arc<PlanTable, Global>,
}

impl Model for Plans {
    ghost use Rattle.chunk_program.specs.Editions.{Plans};

    ghost Value = { Plans };

    ghost use Rattle.chunk_program.specs.PlansFields.{ArePlans, plans_seen};

    ghost view = { plans_seen };

    ghost invariant = { λ p. ArePlans (plans_seen p) };
}

impl Plans {
    /// The plans of a deck: its editions are planned in order, up to the first that is too long.
    pub fn plan(alloc: Global, deck: &Deck) -> Result<Plans, PlanFault>
        ensures planned { IfOk result (λ p. p ≡ plans_in deck.now) }
        ensures short { IfOk result (λ _. AreShort deck.now) }
        ensures too_long { IfErr result (IsPlansAnswer deck.now) }
    {
        deck.shows_well_made();
        let cycles = cycles(alloc, deck)?;
        let programs = programs(alloc, deck)?;
        let pix = numbers(alloc, deck, &programs)?;
        let table = Arc::new(
            alloc,
            PlanTable {
                cycles,
                programs,
                pix,
            },
        )?;
        Ok(Plans { table })
    }

    /// The same plans for one holder more. It allocates nothing, and no clause says so.
    pub fn share(&self) -> Result<Plans, NoMemory>
        ensures { IfOk result (λ p. p ≡ self.now) }
    {
        let table = self.table.clone()?;
        Ok(Plans { table })
    }

    /// No program of the plans is too long.
    pub fn shows_well_made(&self)
        ensures { All (λ p. length (program p.disks) ≤ MOST_SLOTS) self.now.programs }
    {
        let _table = &self.table;
    }

    /// The number of editions.
    pub fn editions(&self) -> u32
        ensures counted { result ≡ length self.now.programs }
        ensures replans { result ≡ length self.now.replans + 1 }
        ensures few { result ≤ MOST_REPLANS + 1 }
    {
        self.table.programs.len() as u32
    }

    /// The edition of a cycle, whose number may be above the last that an air has.
    fn edition_by(&self, cycle: u64) -> u32
        ensures told { result ≡ planned_edition self.now cycle }
        ensures within { result < length self.now.programs }
    {
        let mut edition = 0u32;
        for at in &self.table.cycles {
            if u64::from(*at) <= cycle {
                edition += 1;
            }
        }
        edition
    }

    /// The edition of a cycle: the number of replans that are in force by then.
    pub fn edition_at(&self, cycle: u32) -> u32
        ensures told { result ≡ planned_edition self.now cycle }
        ensures deck { (deck : ModelDeck) → self.now ≡ plans_in deck → result ≡ edition deck cycle }
        ensures within { result < length self.now.programs }
    {
        self.edition_by(u64::from(cycle))
    }

    /// Whether an edition is the one in force in a cycle. It costs two comparisons, regardless of the number of replans.
    pub fn is_in_force(&self, edition: u32, cycle: u32) -> bool
        ensures told { IsTrue result ↔ (planned_edition self.now cycle ≡ edition) }
        ensures within { IsTrue result → edition < length self.now.programs }
    {
        let cycles = self.table.cycles.as_slice();
        if has_begun(cycles, edition, cycle) {
            return false;
        }
        edition == 0 || has_begun(cycles, edition - 1, cycle)
    }

    /// How many of the cycles from 1 to `cycles` are of this edition or of one before.
    pub fn cycles_up_to(&self, edition: u32, cycles: u32) -> u32
        requires { edition < length self.now.programs }
        ensures within { result ≤ cycles }
        ensures told { (c : ℕ) → 1 ≤ c → c ≤ cycles → (c ≤ result) ↔ (planned_edition self.now c ≤ edition) }
    {
        match self.table.cycles.get(edition as usize) {
            Some(next) => (*next - 1).min(cycles),
            None => cycles,
        }
    }

    /// The program of an edition.
    pub fn program(&self, edition: u32) -> &Program
        requires { edition < length self.now.programs }
        ensures told { slice_get self.now.programs edition ≡ Some result.now }
        ensures deck { (deck : ModelDeck) → self.now ≡ plans_in deck → result.now ≡ edition_disks deck edition }
        ensures items { (n : ℕ) → HaveItems n self.now.programs → length (all_items result.now.disks) ≡ n }
    {
        &self.table.programs[edition as usize]
    }

    /// The program in force in a cycle.
    pub fn in_force(&self, cycle: u32) -> &Program
        ensures told { slice_get self.now.programs (planned_edition self.now cycle) ≡ Some result.now }
        ensures deck { (deck : ModelDeck) → self.now ≡ plans_in deck → result.now ≡ edition_disks deck (edition deck cycle) }
        ensures items { (n : ℕ) → HaveItems n self.now.programs → length (all_items result.now.disks) ≡ n }
    {
        self.program(self.edition_at(cycle))
    }

    /// The program in force in a cycle, whose number may be above the last that an air has: what follows the last cycle is told, too.
    pub fn in_force_by(&self, cycle: u64) -> &Program
        ensures told { slice_get self.now.programs (planned_edition self.now cycle) ≡ Some result.now }
        ensures items { (n : ℕ) → HaveItems n self.now.programs → length (all_items result.now.disks) ≡ n }
    {
        self.program(self.edition_by(cycle))
    }

    /// The PIX number of each item in an edition.
    pub fn pix(&self, edition: u32) -> &[u64]
        requires { edition < length self.now.programs }
        ensures { result.now ≡ get_or self.now.pix edition [] }
    {
        self.table.pix[edition as usize].as_slice()
    }
}

/// Whether the replan at a place of the list is there, and is in force in a cycle.
fn has_begun(cycles: &[u32], place: u32, cycle: u32) -> bool
    requires { AllPairs (λ a b. a < b) cycles.now }
    ensures { IsTrue result ↔ (place < count_by (λ at. nat_le at cycle) cycles.now) }
{
    match cycles.get(place as usize) {
        Some(at) => *at <= cycle,
        None => false,
    }
}
