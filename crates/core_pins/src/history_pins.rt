//! These pins of `air_history` say what small updates and histories are, and what is found in them.
//!
//! In the chain item 0 is written, item 2 from it, and item 1 from item 2, all in cycle 1.
#![tactic(auto, unfolding(air_history::specs::UpdateRules::has_repeat, air_history::specs::UpdateRules::update_fault, air_history::specs::Histories::is_start, air_history::specs::Histories::reads, air_history::specs::Histories::writes, air_history::specs::Histories::starts, air_history::specs::Histories::cycle_at, air_history::specs::Histories::front, air_history::specs::Histories::writer_before, air_history::specs::Histories::writer, air_history::specs::Histories::ItemsFit, air_history::specs::Places::last_place, air_history::specs::Places::greatest, air_history::specs::Descents::descends_in, air_history::specs::Descents::descends, air_history::specs::Columns::column_entry, air_history::specs::Tables::value_on_base, air_history::specs::Tables::write_of, air_history::specs::Tables::value_after, air_history::specs::Tables::table))]

ghost use Rattle.std.specs.Prelude.{◌≡◌, ◌⊎◌, [], ◌∷◌, length, slice_index_or, true, false, None, IfOk, OnOk, MatchResult};
ghost use Rattle.air_history.specs.declared.updates.UpdateFault.TheVariants.{BaseNotRead, NoMemory as NoRoom};
ghost use Rattle.core_pins.specs.Commits.{set_to, add_to, update_of};
ghost use Rattle.core_pins.specs.SmallHistories.{chain, exchange, sixteen};

use air_base::NoMemory;
use air_history::{
    Event, History, Update, UpdateFault, Write, column_scan, descends, run_event, table_of,
    writer_at,
};
use std::alloc::Global;

/// What a write gives is computed from the values before the event: two items exchange their values.
/// Promise: the core appends and replies
/// Promise: scans and kernels are their definitions
pub fn base_read_after_write(event: &Event, values: &mut [u64])
    requires event { event.now ≡ exchange }
    requires values { values.old ≡ 7 ∷ 8 ∷ [] }
    ensures first { slice_index_or values.new 0 0 ≡ 8 }
    ensures second { slice_index_or values.new 1 0 ≡ 7 }
{
    run_event(event, values);
}

/// A commit also descends from the writers of what its writers read.
/// Promise: scans and kernels are their definitions
/// Promise: the board steps with the history
pub fn direct_writers_only(alloc: Global, history: &History) -> Result<Vec<bool>, NoMemory>
    requires { history.now ≡ chain }
    ensures { IfOk result (λ marks. marks.items ≡ false ∷ true ∷ true ∷ true ∷ false ∷ []) }
{
    descends(alloc, history, 3)
}

/// An item equal to the number of items doesn't fit.
/// Promise: shared parts are their definitions
pub fn fits_at_the_limit(update: &Update) -> bool
    requires { update.now ≡ update_of (2 ∷ []) (set_to 0 1) }
    ensures { result ≡ false }
{
    update.fits(2)
}

/// The last of the events that are to be run is run too.
/// Promise: scans and kernels are their definitions
pub fn last_event_not_run(history: &History, values: &mut [u64])
    requires history { history.now ≡ chain }
    requires values { values.old ≡ 10 ∷ 20 ∷ 30 ∷ [] }
    ensures { values.new ≡ 11 ∷ 13 ∷ 12 ∷ [] }
{
    table_of(history, 4, values);
}

/// A base that isn't read is reported as such.
/// Promise: every answer is a named one
pub fn limit_for_a_base(
    alloc: Global,
    reads: &[u16],
    writes: &[Write],
) -> Result<Update, UpdateFault>
    requires reads { reads.now ≡ [] }
    requires writes { writes.now ≡ add_to 0 1 5 ∷ [] }
    ensures { MatchResult result (λ _. ⊥) (λ fault. (fault ≡ BaseNotRead) ⊎ (fault ≡ NoRoom)) }
{
    Update::new(alloc, reads, writes)
}

/// An update has all of its sixteen reads.
/// Promise: shared parts are their definitions
pub fn reads_cut_at_fifteen(
    alloc: Global,
    reads: &[u16],
    writes: &[Write],
) -> Result<Update, UpdateFault>
    requires reads { reads.now ≡ sixteen }
    requires writes { writes.now ≡ set_to 0 1 ∷ [] }
    ensures { IfOk result (λ update. update ≡ update_of sixteen (set_to 0 1)) }
{
    Update::new(alloc, reads, writes)
}

/// Each start counts.
/// Promise: shared parts are their definitions
pub fn starts_counted_once(history: &History) -> u32
    requires { history.now ≡ chain }
    ensures { result ≡ 2 }
{
    history.starts()
}

/// The column of an item is that of its own last writer.
/// Promise: scans and kernels are their definitions
pub fn stranger_in_the_column(
    alloc: Global,
    history: &History,
    column: &mut [u32],
) -> Result<(), NoMemory>
    requires history { history.now ≡ chain }
    requires column { length column.old ≡ 3 }
    ensures { OnOk result (column.new ≡ 1 ∷ 1 ∷ 1 ∷ []) }
{
    column_scan(alloc, history, 2, 1, column)
}

/// What is written in a cycle isn't aired in that cycle.
/// Promise: scans and kernels are their definitions
pub fn writer_of_the_cycle_itself(history: &History) -> Option<u64>
    requires { history.now ≡ chain }
    ensures { result ≡ None }
{
    writer_at(history, 1, 0)
}
