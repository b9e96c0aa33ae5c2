//! These pins of `chunk_program` say what programs of two disks air, how three items are cut into disks, and which edition a cycle has.
//!
//! The slots of `four_slots` carry the items 0, 1, 0 and 2.
#![tactic(auto, unfolding(air_model::specs::Disks::order_with, air_model::specs::Disks::order, air_model::specs::Disks::cut, air_model::specs::Disks::all_items, air_model::specs::Programs::least_common_multiple, air_model::specs::Programs::num_minors, air_model::specs::Programs::num_chunks, air_model::specs::Programs::chunk_len, air_model::specs::Programs::chunk, air_model::specs::Programs::minor_cycle, air_model::specs::Programs::minor_len, air_model::specs::Programs::program, air_model::specs::Airings::next_wake, air_model::specs::Airings::disk_number, air_model::specs::Airings::chunks_of, air_model::specs::Airings::gap_of, air_model::specs::Airings::pix_number))]

ghost use Rattle.std.specs.Prelude.{◌≡◌, ◌⊎◌, ℕ, ◌<◌, ◌≤◌, [], ◌∷◌, length, Some, None, IfOk, IfErr};
ghost use Rattle.air_base.specs.declared.limits.TheConstants.{MOST_SLOTS};
ghost use Rattle.air_model.specs.Decks.{count_editions, disks_in, rates_in};
ghost use Rattle.air_model.specs.Programs.{program};
ghost use Rattle.chunk_program.specs.declared.programs.PlanFault.TheVariants as fault;
ghost use Rattle.air_pins.specs.SmallPrograms.{disk, four_slots, in_edition, replan, spec, two_and_four};

use air_base::NoMemory;
use chunk_program::{Cut, PlanFault, Planned, Plans, Program, cut};
use item_catalog::Deck;
use std::alloc::Global;

/// The deck that is planned is the given one, here with three items on two disks.
/// Promise: the program is its definition
pub fn another_deck_planned(alloc: Global, deck: Deck) -> Result<Planned, PlanFault>
    requires rates { rates_in deck ≡ 5 ∷ 5 ∷ 9 ∷ [] }
    requires disks { deck.disks ≡ spec 1 2 ∷ spec 2 1 ∷ [] }
    ensures { IfOk result (λ p. disks_in p 0 ≡ disk (2 ∷ []) 2 ∷ disk (0 ∷ 1 ∷ []) 1 ∷ []) }
{
    Planned::new(alloc, deck)
}

/// A cycle airs an item as often as its disk's frequency says.
/// Promise: the program is its definition
pub fn as_often_as_it_has_chunks(program: &Program) -> u32
    requires { program.now.disks ≡ four_slots }
    ensures { result ≡ 2 }
{
    program.times(0)
}

/// The second minor cycle airs the one chunk of a disk again.
/// Promise: the program is its definition
pub fn chunk_of_the_minor_number(program: &Program) -> Option<u16>
    requires { program.now.disks ≡ four_slots }
    ensures { result ≡ Some 0 }
{
    program.slot_item(2)
}

/// The second minor cycle airs the second chunk of a disk that has two.
/// Promise: the program is its definition
pub fn first_minor_cycle_twice(program: &Program) -> Option<u16>
    requires { program.now.disks ≡ four_slots }
    ensures { result ≡ Some 2 }
{
    program.slot_item(3)
}

/// An edition begins in its replan's cycle.
/// Promise: the program is its definition
pub fn edition_begins_one_cycle_late(plans: &Plans) -> u32
    requires { plans.now.replans ≡ 2 ∷ 5 ∷ [] }
    ensures { result ≡ 2 }
{
    plans.edition_at(5)
}

/// The cycle before a replan's still has the earlier edition.
/// Promise: the program is its definition
pub fn edition_begins_one_cycle_early(plans: &Plans) -> u32
    requires { plans.now.replans ≡ 2 ∷ 5 ∷ [] }
    ensures { result ≡ 1 }
{
    plans.edition_at(4)
}

/// Each edition is cut by its own disks, here of three items on one disk, then on two.
/// Promise: the program is its definition
pub fn every_edition_cut_as_the_first(alloc: Global, deck: &Deck) -> Result<Plans, PlanFault>
    requires rates { rates_in deck.now ≡ 5 ∷ 5 ∷ 9 ∷ [] }
    requires disks { deck.now.disks ≡ spec 3 1 ∷ [] }
    requires replans { deck.now.replans ≡ replan 2 (spec 1 2 ∷ spec 2 1 ∷ []) ∷ [] }
    ensures { IfOk result (λ p. p.programs ≡ in_edition 0 (disk (2 ∷ 0 ∷ 1 ∷ []) 1 ∷ []) ∷ in_edition 1 (disk (2 ∷ []) 2 ∷ disk (0 ∷ 1 ∷ []) 1 ∷ []) ∷ []) }
{
    Plans::plan(alloc, deck)
}

/// Each item has the gap of its own disk.
/// Promise: the program is its definition
pub fn gap_right_for_one_disk_only(program: &Program) -> u32
    requires { program.now.disks ≡ four_slots }
    ensures { result ≡ 4 }
{
    program.gap(1)
}

/// An item's PIX number is its rate times its chunks.
/// Promise: the program is its definition
pub fn pix_forgets_the_chunks(program: &Program) -> u64
    requires { program.now.disks ≡ four_slots }
    ensures { result ≡ 10 }
{
    program.pix(1, 5)
}

/// A planned deck whose editions have exactly as many slots as allowed isn't too long.
/// Promise: the program is its definition
pub fn planned_too_long_from_the_limit_on(alloc: Global, deck: Deck) -> Result<Planned, PlanFault>
    requires { (e : ℕ) → e < count_editions deck → length (program (disks_in deck e)) ≡ MOST_SLOTS }
    ensures { IfErr result (λ e. e ≡ fault.NoMemory) }
{
    Planned::new(alloc, deck)
}

/// The number of minor cycles is the least common multiple of the frequencies.
/// Promise: the program is its definition
pub fn product_for_the_common_multiple(program: &Program) -> u32
    requires { program.now.disks ≡ two_and_four }
    ensures { result ≡ 4 }
{
    program.minors()
}

/// The program of a planned deck is its own, here of three items on two disks.
/// Promise: the program is its definition
pub fn program_of_another_deck(planned: &Planned) -> &Program
    requires rates { rates_in planned.now ≡ 5 ∷ 5 ∷ 9 ∷ [] }
    requires disks { planned.now.disks ≡ spec 1 2 ∷ spec 2 1 ∷ [] }
    ensures { result.now ≡ in_edition 0 (disk (2 ∷ []) 2 ∷ disk (0 ∷ 1 ∷ []) 1 ∷ []) }
{
    planned.program(0)
}

/// Items are ordered by their own rates, and of two with one rate the one with the smaller number comes first. It also refuses
/// that the one with the greater number does.
/// Promise: the program is its definition
pub fn rate_of_another_item(alloc: Global, deck: &Deck) -> Result<Cut, NoMemory>
    requires rates { rates_in deck.now ≡ 5 ∷ 5 ∷ 9 ∷ [] }
    requires disks { deck.now.disks ≡ spec 1 2 ∷ spec 2 1 ∷ [] }
    ensures { IfOk result (λ cut. cut ≡ disk (2 ∷ []) 2 ∷ disk (0 ∷ 1 ∷ []) 1 ∷ []) }
{
    cut(alloc, deck, 0)
}

/// A program with exactly as many slots as allowed isn't too long.
/// Promise: the program is its definition
pub fn too_long_from_the_limit_on(
    alloc: Global,
    deck: &Deck,
    cut: &Cut,
) -> Result<Program, PlanFault>
    requires cut { cut.now ≡ disks_in deck.now 0 }
    requires slots { length (program (disks_in deck.now 0)) ≡ MOST_SLOTS }
    ensures { IfErr result (λ e. e ≡ fault.NoMemory) }
{
    Program::plan(alloc, deck, cut, 0)
}

/// Of two editions that are too long, the first is reported.
/// Promise: every answer is a named one
/// Promise: the program is its definition
pub fn too_long_told_of_the_greatest_edition(alloc: Global, deck: &Deck) -> Result<Plans, PlanFault>
    requires replans { length deck.now.replans ≡ 2 }
    requires own { length (program (disks_in deck.now 0)) ≡ 3 }
    requires first { length (program (disks_in deck.now 1)) ≡ 713664 }
    requires second { length (program (disks_in deck.now 2)) ≡ 737856 }
    ensures { IfErr result (λ e. (e ≡ fault.NoMemory) ⊎ (e ≡ fault.TooLong 713664)) }
{
    Plans::plan(alloc, deck)
}

/// The wait from a slot that carries the item is 0.
/// Promise: the program is its definition
pub fn wait_is_never_zero(program: &Program) -> u32
    requires { program.now.disks ≡ four_slots }
    ensures { result ≡ 0 }
{
    program.next_wake(2, 0)
}
