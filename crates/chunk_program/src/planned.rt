//! A deck with the programs of its editions.
//!
//! Contracts see the plain deck. The plans are the deck's, so a call that takes a planned deck doesn't ask for it, and the deck and
//! the programs that it lends come with what their making has told of them.

ghost use Rattle.std.specs.Prelude.{◌≡◌, ◌<◌, ◌≤◌, IfErr, IfOk, length};
ghost use Rattle.air_base.specs.declared.limits.TheConstants.{MOST_SLOTS};
ghost use Rattle.air_model.specs.Disks.{all_items};
ghost use Rattle.air_model.specs.Decks.{IsDeck, count_editions, disks_in};
ghost use Rattle.air_model.specs.Programs.{program};
ghost use Rattle.item_catalog.specs.DeckLimits.{WithinLimits};
ghost use Rattle.chunk_program.specs.Editions.{HaveItems, edition_disks, plans_in, programs_in};
ghost use Rattle.chunk_program.specs.Plans.{AreShort, IsPlansAnswer};

use crate::plans::Plans;
use crate::programs::{PlanFault, Program};
use item_catalog::Deck;
use std::alloc::Global;
use std::marker::Model;

/// A deck and its plans.
#[derive(Drop)]
pub struct Planned {
    deck: Deck,
    plans: Plans,
}

impl Model for Planned {
    ghost use Rattle.std.specs.Prelude.{◌≡◌};
    ghost use Rattle.air_model.specs.Decks.{Deck};
    ghost use Rattle.chunk_program.specs.Editions.{plans_in};

    ghost Value = { Deck };

    ghost view = { λ p. p.deck };

    ghost invariant = { λ p. p.plans ≡ plans_in p.deck };
}

impl Planned {
    /// A deck with its plans.
    pub fn new(alloc: Global, deck: Deck) -> Result<Planned, PlanFault>
        ensures deck { IfOk result (λ p. p ≡ deck) }
        ensures short { IfOk result (λ _. AreShort deck) }
        ensures too_long { IfErr result (IsPlansAnswer deck) }
    {
        let plans = Plans::plan(alloc, &deck)?;
        Ok(Planned { deck, plans })
    }

    /// The deck and its plans, lent.
    pub fn lend(&self) -> PlannedRef<'_>
        ensures { result ≡ self.now }
    {
        PlannedRef {
            deck: &self.deck,
            plans: &self.plans,
        }
    }

    /// The deck. It is well made, and keeps the limits of the grammar.
    pub fn deck(&self) -> &Deck
        ensures told { result.now ≡ self.now }
        ensures made { IsDeck self.now }
        ensures limits { WithinLimits self.now }
    {
        self.lend().deck()
    }

    /// The plans. Each program has the deck's items, and none is too long.
    pub fn plans(&self) -> &Plans
        ensures told { result.now ≡ plans_in self.now }
        ensures items { HaveItems (length self.now.items) (programs_in self.now) }
        ensures short { AreShort self.now }
    {
        self.lend().plans()
    }

    /// The program of an edition. It has the deck's items, at least one slot, and no more than a program may have.
    pub fn program(&self, edition: u32) -> &Program
        requires { edition < count_editions self.now }
        ensures told { result.now ≡ edition_disks self.now edition }
        ensures items { length (all_items (disks_in self.now edition)) ≡ length self.now.items }
        ensures some { 1 ≤ length (program (disks_in self.now edition)) }
        ensures short { length (program (disks_in self.now edition)) ≤ MOST_SLOTS }
    {
        self.lend().program(edition)
    }

    /// The deck is well made and keeps the limits of the grammar, and no edition is too long.
    pub fn shows_planned(&self)
        ensures made { IsDeck self.now }
        ensures limits { WithinLimits self.now }
        ensures short { AreShort self.now }
    {
        let _deck = self.deck();
        let _plans = self.plans();
    }
}

/// A deck and its plans, both lent.
#[derive(Drop)]
pub struct PlannedRef<'a> {
    deck: &'a Deck,
    plans: &'a Plans,
}

impl<'a> Model for PlannedRef<'a> {
    ghost use Rattle.std.specs.Prelude.{◌≡◌};
    ghost use Rattle.air_model.specs.Decks.{Deck};
    ghost use Rattle.chunk_program.specs.Editions.{plans_in};

    ghost Value = { Deck };

    ghost view = { λ p. p.deck.now };

    ghost invariant = { λ p. p.plans.now ≡ plans_in p.deck.now };
}

impl<'a> PlannedRef<'a> {
    /// A deck and its plans. `Plans::plan` makes the deck's plans.
    pub fn of(deck: &'a Deck, plans: &'a Plans) -> PlannedRef<'a>
        requires { plans.now ≡ plans_in deck.now }
        ensures { result ≡ deck.now }
    {
        PlannedRef { deck, plans }
    }

    /// The deck. It is well made, and keeps the limits of the grammar.
    pub fn deck(&self) -> &'a Deck
        ensures told { result.now ≡ self.now }
        ensures made { IsDeck self.now }
        ensures limits { WithinLimits self.now }
    {
        self.deck.shows_well_made();
        self.deck
    }

    /// The plans. Each program has the deck's items, and none is too long.
    pub fn plans(&self) -> &'a Plans
        ensures told { result.now ≡ plans_in self.now }
        ensures items { HaveItems (length self.now.items) (programs_in self.now) }
        ensures short { AreShort self.now }
    {
        self.deck.shows_well_made();
        self.plans.shows_well_made();
        self.plans
    }

    /// The program of an edition. It has the deck's items, at least one slot, and no more than a program may have.
    pub fn program(&self, edition: u32) -> &'a Program
        requires { edition < count_editions self.now }
        ensures told { result.now ≡ edition_disks self.now edition }
        ensures items { length (all_items (disks_in self.now edition)) ≡ length self.now.items }
        ensures some { 1 ≤ length (program (disks_in self.now edition)) }
        ensures short { length (program (disks_in self.now edition)) ≤ MOST_SLOTS }
    {
        self.deck.shows_well_made();
        let program = self.plans.program(edition);
        let _slots = program.slots();
        program
    }
}
