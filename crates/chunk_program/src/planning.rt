//! What is told by plans, made from a deck: the cycles of its replans, and of each edition the program and the PIX numbers.

ghost use Rattle.std.specs.Prelude.{◌≡◌, ◌<◌, ◌≤◌, length, map, IfErr, IfOk};
ghost use Rattle.air_base.specs.declared.limits.TheConstants.{MOST_SLOTS};
ghost use Rattle.air_model.specs.Disks.{all_items};
ghost use Rattle.air_model.specs.Decks.{count_editions, disks_in};
ghost use Rattle.air_model.specs.Programs.{program};
ghost use Rattle.chunk_program.specs.Editions.{HaveItems, edition_disks, program_pix, programs_in};
ghost use Rattle.chunk_program.specs.Plans.{AreShort, IsPlanAnswer, IsPlansAnswer};

use crate::cutting::cut;
use crate::programs::{PlanFault, Program};
use item_catalog::Deck;
use std::alloc::{AllocError, Global};
use std::marker::Model;

/// The PIX number of each item.
#[derive(Drop)]
pub struct PixNumbers {
    numbers: Vec<u64>,
}

impl Model for PixNumbers {
    ghost use Rattle.std.specs.Prelude.{List, ℕ};

    ghost Value = { List ℕ };

    ghost view = { λ p. p.numbers.items };
}

impl PixNumbers {
    /// The numbers by item.
    pub fn as_slice(&self) -> &[u64]
        ensures { result.now ≡ self.now }
    {
        self.numbers.as_slice()
    }
}

/// The cycles from which on the replans are in force.
pub fn cycles(alloc: Global, deck: &Deck) -> Result<Vec<u32>, AllocError>
    ensures { IfOk result (λ cycles. cycles.items ≡ map (λ r. r.cycle) deck.now.replans) }
{
    let mut cycles = Vec::new(alloc);
    for k in 0..deck.replans() {
        cycles.push(deck.replan(k).cycle())?;
    }
    Ok(cycles)
}

/// The program of an edition.
fn program_of(alloc: Global, deck: &Deck, edition: u32) -> Result<Program, PlanFault>
    requires { edition < count_editions deck.now }
    ensures planned { IfOk result (λ p. p ≡ edition_disks deck.now edition) }
    ensures short { IfOk result (λ _. length (program (disks_in deck.now edition)) ≤ MOST_SLOTS) }
    ensures too_long { IfErr result (IsPlanAnswer (disks_in deck.now edition)) }
{
    let cut = cut(alloc, deck, edition)?;
    Program::plan(alloc, deck, &cut, edition)
}

/// The programs of all editions, up to the first that is too long.
pub fn programs(alloc: Global, deck: &Deck) -> Result<Vec<Program>, PlanFault>
    ensures planned { IfOk result (λ programs. programs.items ≡ programs_in deck.now) }
    ensures short { IfOk result (λ _. AreShort deck.now) }
    ensures too_long { IfErr result (IsPlansAnswer deck.now) }
{
    let mut programs = Vec::new(alloc);
    for edition in 0..deck.replans() + 1 {
        let program = program_of(alloc, deck, edition)?;
        programs.push(program)?;
    }
    Ok(programs)
}

/// The PIX numbers of a deck's items in a program.
fn numbers_of(alloc: Global, deck: &Deck, program: &Program) -> Result<PixNumbers, AllocError>
    requires { length (all_items program.now.disks) ≡ length deck.now.items }
    ensures { IfOk result (λ pix. pix ≡ program_pix deck.now program.now) }
{
    let mut numbers = Vec::new(alloc);
    for item in 0..deck.items() {
        numbers.push(program.pix(item, deck.rate(item)))?;
    }
    Ok(PixNumbers { numbers })
}

/// The PIX numbers of a deck's items in each of the programs.
pub fn numbers(
    alloc: Global,
    deck: &Deck,
    programs: &[Program],
) -> Result<Vec<PixNumbers>, AllocError>
    requires { HaveItems (length deck.now.items) programs.now }
    ensures { IfOk result (λ pix. pix.items ≡ map (program_pix deck.now) programs.now) }
{
    let mut pix = Vec::new(alloc);
    for program in programs {
        pix.push(numbers_of(alloc, deck, program)?)?;
    }
    Ok(pix)
}
