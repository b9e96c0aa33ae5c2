//! These pins of `station` say what each call through a pass adds to the history, what it answers, and what history the close gives.
//!
//! Other passes may add events first, so some pins hold if they added none.
#![tactic(auto, unfolding(air_history::specs::Histories::is_start, air_history::specs::Histories::starts))]

ghost use Rattle.std.specs.Prelude.{◌≡◌, ◌<◌, ◌-◌, ◌^◌, ◌++◌, ℕ, [], ◌∷◌, length, slice_get, All, Contains, Some, IfOk, OnOk};
ghost use Rattle.air_history.specs.UpdateRules.{UpdateFits};
ghost use Rattle.air_history.specs.declared.histories.Event.{Event};
ghost use Rattle.air_history.specs.declared.histories.Event.TheVariants.{Commit, Start};
ghost use Rattle.air_history.specs.Histories.{starts};
ghost use Rattle.station.specs.PassStates.{PassState, numbers_of};
ghost use Rattle.air_model.specs.Decks.{count_made};
ghost use Rattle.update_commit.specs.Receipts.{reply_in};
ghost use Rattle.thread_pins.specs.SmallBatches.{first_values, first_batch, second_batch, reads_and_sets};

use air_base::NoMemory;
use air_history::{Event, History, Update};
use item_catalog::Deck;
use station::{ConductorPass, Station, UpdaterPass};
use std::alloc::Global;
use std::sync::Wait;
use update_commit::Receipt;

/// The first pass of a new station is that of updater 0.
/// Promise: one history holds each call once
pub fn passes_in_reverse_order(
    alloc: Global,
    deck: &Deck,
) -> Result<(Station, Vec<UpdaterPass>, ConductorPass), NoMemory>
    ensures { IfOk result (λ made. (p : _) → slice_get made.1.items 0 ≡ Some p → p.number ≡ 0) }
{
    Station::new(alloc, deck)
}

/// After the first commit of an updater it has made one, with the given update, including its read, which no write needs. It also refuses an update
/// that isn't committed, or is committed twice.
/// Promise: what the calls of a pass do
pub fn another_update_committed<R: Wait>(
    station: &Station,
    wait: &R,
    alloc: Global,
    pass: &mut UpdaterPass,
    update: &Update,
) -> Result<Receipt, NoMemory>
    requires own { pass.old.station ≡ station.now }
    requires number { pass.old.number ≡ 0 }
    requires seen { pass.old.seen ≡ [] }
    requires update { update.now ≡ reads_and_sets 0 1 5 }
    requires fits { UpdateFits (length pass.old.values) update.now }
    requires few { count_made pass.old.number pass.old.seen < 2 ^ 32 - 1 }
    ensures once { OnOk result (count_made 0 pass.new.seen ≡ 1) }
    ensures event { OnOk result ((event : Event) → pass.new.seen ≡ event ∷ [] → event ≡ Commit 0 0 (reads_and_sets 0 1 5)) }
{
    station.commit(wait, alloc, pass, update)
}

/// The first cycle is one start and has the number 1. If nothing else was added, the events since the start before are this start alone. It also
/// refuses a start that is given twice, and a cycle that is answered but not started.
/// Promise: what the calls of a pass do
pub fn fresh_without_its_start<R: Wait>(
    station: &Station,
    wait: &R,
    alloc: Global,
    pass: &mut ConductorPass,
    fresh: &mut Vec<Event>,
) -> Result<u32, NoMemory>
    requires own { pass.old.station ≡ station.now }
    requires seen { pass.old.seen ≡ [] }
    requires few { starts pass.old.seen < 2 ^ 32 - 1 }
    requires empty { fresh.old.items ≡ [] }
    ensures once { OnOk result (starts pass.new.seen ≡ 1) }
    ensures fresh { IfOk result (λ cycle. pass.new.seen ≡ Start ∷ [] → (cycle ≡ 1) × (fresh.new.items ≡ Start ∷ [])) }
{
    station.start_cycle(wait, alloc, pass, fresh)
}

/// A history that is closed has the starts that its conductor has seen, and no more.
/// Promise: one history holds each call once
pub fn start_added_at_the_close(
    station: Station,
    passes: Vec<UpdaterPass>,
    conductor: ConductorPass,
) -> History
    requires own { (conductor.station ≡ station) × All (λ (p : PassState). p.station ≡ station) passes.items }
    requires all { (by : ℕ) → by < conductor.updaters → Contains (numbers_of passes.items) by }
    requires seen { conductor.seen ≡ first_batch }
    ensures { starts result ≡ 1 }
{
    station.close(passes, conductor)
}

/// A conductor's pass that has seen two starts answers two.
/// Promise: what the calls of a pass do
pub fn next_cycle_for_those_started(pass: &ConductorPass) -> u32
    requires { pass.now.seen ≡ first_batch ++ second_batch }
    ensures { result ≡ 2 }
{
    pass.started()
}

/// If only one commit was added since the first batch, its receipt has its place 2, its cycle 1, the value that it read and the one that it wrote. It
/// also refuses a receipt of another update.
/// Promise: what the calls of a pass do
pub fn receipt_without_its_cycle<R: Wait>(
    station: &Station,
    wait: &R,
    alloc: Global,
    pass: &mut UpdaterPass,
    update: &Update,
) -> Result<Receipt, NoMemory>
    requires own { pass.old.station ≡ station.now }
    requires values { pass.old.values ≡ first_values }
    requires number { pass.old.number ≡ 1 }
    requires seen { pass.old.seen ≡ first_batch }
    requires update { update.now ≡ reads_and_sets 0 1 5 }
    requires fits { UpdateFits (length pass.old.values) update.now }
    requires few { count_made pass.old.number pass.old.seen < 2 ^ 32 - 1 }
    ensures { IfOk result (λ receipt. length pass.new.seen ≡ 3 →
        reply_in receipt ≡ record { number = 2; cycle = 1; read = 18_446_744_073_709_551_615 ∷ []; written = 5 ∷ [] }) }
{
    station.commit(wait, alloc, pass, update)
}
