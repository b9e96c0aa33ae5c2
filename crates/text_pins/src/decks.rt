//! These pins fix what `item_catalog` gives for short texts of decks: the fault of each, by its record and its kind. They also
//! fix the queries of a drill's deck, the updates of an updater, and what holds of every deck.

ghost use Rattle.std.specs.Prelude.{◌≡◌, ◌≤◌, [], ◌∷◌, codes, get_or, length, sum_by, IfOk};
ghost use Rattle.text_pins.specs.DeckAnswers.{IsDeckFaultOrNoMemory, committed_twice, grouped_vectors, replanned_twice, spread_over_three, three_disks, unknown_second};
ghost use Rattle.text_pins.specs.SmallWrites.{setting_first, setting_second};

use air_base::NoMemory;
use air_history::Update;
use item_catalog::faults::FaultKind;
use item_catalog::{Deck, DeckError, drill_deck, read_deck};
use std::alloc::Global;

/// Copies of 10,001 cycles pass a limit.
/// Promise: texts are exact
pub fn copies_one_cycle_too_old(alloc: Global, bytes: &[u8]) -> Result<Deck, DeckError>
    requires { bytes.now ≡ codes "reader,0,10001,1" }
    ensures { IsDeckFaultOrNoMemory 1 7 result }
{
    read_deck(alloc, bytes)
}

/// The commits of all records of the script count.
/// Promise: texts are exact
pub fn earlier_script_records_forgotten(alloc: Global, bytes: &[u8]) -> Result<Deck, DeckError>
    requires { bytes.now ≡ committed_twice }
    ensures { IsDeckFaultOrNoMemory 4 11 result }
{
    read_deck(alloc, bytes)
}

/// The frequency 64 passes no limit; the end is refused instead, since the sizes don't add up.
/// Promise: texts are exact
pub fn greatest_frequency_refused(alloc: Global, bytes: &[u8]) -> Result<Deck, DeckError>
    requires { bytes.now ≡ codes "disk,1,64" }
    ensures { IsDeckFaultOrNoMemory 2 6 result }
{
    read_deck(alloc, bytes)
}

/// The frequency of a `-` in a replan follows from the number of that replan's disks and from the deck's delta: of three disks
/// the first is aired three times.
/// Promise: texts are exact
#[tactic(auto, using(crate::proofs::DeckLemmas::replans_told))]
pub fn frequency_by_the_disks_of_the_deck(alloc: Global, bytes: &[u8]) -> Result<Deck, DeckError>
    requires { bytes.now ≡ spread_over_three }
    ensures { IfOk result (λ deck. deck.replans ≡ three_disks ∷ []) }
{
    read_deck(alloc, bytes)
}

/// If an item has a wrong number and too great a rate, the number is reported.
/// Promise: texts are exact
pub fn greatest_kind_for_the_least(alloc: Global, bytes: &[u8]) -> Result<Deck, DeckError>
    requires { bytes.now ≡ codes "item,1,0,1000001" }
    ensures { IsDeckFaultOrNoMemory 1 3 result }
{
    read_deck(alloc, bytes)
}

/// A group with a policy that airs no columns is refused at the end, as a setting. If it was let through, the text would spell a deck.
/// Promise: texts are exact
pub fn group_under_datacycle(alloc: Global, bytes: &[u8]) -> Result<Deck, DeckError>
    requires { bytes.now ≡ grouped_vectors }
    ensures { IsDeckFaultOrNoMemory 5 10 result }
{
    read_deck(alloc, bytes)
}

/// A replan has as many frequencies as sizes.
/// Promise: texts are exact
pub fn lists_of_two_lengths(alloc: Global, bytes: &[u8]) -> Result<Deck, DeckError>
    requires { bytes.now ≡ codes "replan,2,1 2,1" }
    ensures { IsDeckFaultOrNoMemory 1 13 result }
{
    read_deck(alloc, bytes)
}

/// Records are counted from 1.
/// Promise: texts are exact
pub fn record_before_the_faulty_one(alloc: Global, bytes: &[u8]) -> Result<Deck, DeckError>
    requires { bytes.now ≡ unknown_second }
    ensures { IsDeckFaultOrNoMemory 2 9 result }
{
    read_deck(alloc, bytes)
}

/// A replan's cycle is above that of the replan before.
/// Promise: texts are exact
pub fn replan_in_the_cycle_of_the_one_before(alloc: Global, bytes: &[u8]) -> Result<Deck, DeckError>
    requires { bytes.now ≡ replanned_twice }
    ensures { IsDeckFaultOrNoMemory 2 7 result }
{
    read_deck(alloc, bytes)
}

/// A setting without a value has too few fields; its name isn't looked at.
/// Promise: texts are exact
pub fn setting_checked_before_its_fields(alloc: Global, bytes: &[u8]) -> Result<Deck, DeckError>
    requires { bytes.now ≡ codes "set,delta" }
    ensures { IsDeckFaultOrNoMemory 1 1 result }
{
    read_deck(alloc, bytes)
}

/// The first query of the drill of seed 1 and size 1 is drawn after all updates.
/// Promise: the drill's deck is its definition
#[tactic(auto, using(crate::proofs::DrillLemmas::query_of_drill))]
pub fn queries_drawn_before_updates(alloc: Global) -> Result<Deck, NoMemory>
    ensures { IfOk result (λ deck. get_or deck.queries 0 [] ≡ (13 ∷ 2 ∷ 9 ∷ 16 ∷ []) ∷ []) }
{
    drill_deck(alloc, 1, 1)
}

/// The kind of sizes that don't add up has the number 6.
/// Promise: every answer is a named one
pub fn sizes_told_as_a_limit() -> u8
    ensures { result ≡ 6 }
{
    FaultKind::Sizes.code()
}

/// All queries of a deck together are at most 10,000.
/// Promise: texts are exact
pub fn total_without_the_record_itself(deck: &Deck)
    ensures { sum_by length deck.now.queries ≤ 10000 }
{
    deck.shows_well_made()
}

/// Each updater has its own updates.
/// Promise: texts are exact
pub fn updates_of_another_updater(deck: &Deck) -> &[Update]
    requires { deck.now.updates ≡ (setting_first ∷ []) ∷ (setting_second ∷ []) ∷ [] }
    ensures { result.now ≡ setting_second ∷ [] }
{
    deck.updates(1)
}
