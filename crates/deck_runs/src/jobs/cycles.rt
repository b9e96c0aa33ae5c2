//! One cycle of a conductor: it starts, its events change the board, the groups are filled, the batch is published, and the buckets are sent.
ghost use Rattle.std.specs.Prelude.{◌≡◌, ℕ, ◌<◌, ◌≤◌, ◌+◌, ◌-◌, ◌^◌, ◌++◌, ◌∷◌, List, [], length, All, IfErr, IfOk, MatchResult, OnErr, OnOk};
ghost use Rattle.air_base.specs.declared.limits.TheConstants.{MOST_SLOTS};
ghost use Rattle.air_history.specs.declared.histories.Event.{Event};
ghost use Rattle.air_history.specs.Histories.{starts, ItemsFit, events_in};
ghost use Rattle.air_history.specs.Tables.{BasesRead};
ghost use Rattle.air_model.specs.Aired.{Air};
ghost use Rattle.air_sender.specs.BoardBuckets.{EntriesBelow, spread};
ghost use Rattle.air_sender.specs.AirFaults.{failed_slot};
ghost use Rattle.cycle_snapshot.specs.Batches.{IsBatch};
ghost use Rattle.control_matrix.specs.BoardSteps.{step_all};
ghost use Rattle.group_matrix.specs.GroupBoards.{grouped};
ghost use Rattle.deck_runs.specs.PublishedBatches.{AreInStep, GoesOn, IsBoardOf, IsPublishedUpTo, IsUpTo, PublishesOn};
ghost use Rattle.deck_runs.specs.declared.jobs.conductors.ConductFault.TheVariants as fault;
ghost use Rattle.deck_runs.specs.Sendings.{CanAirIn, IsAirOf, IsFailure};
ghost use Rattle.deck_runs.specs.Private.CycleSteps.{AddsBatch, SendsCounted, SendsInCycle};

use crate::jobs::airings::Airing;
use crate::jobs::conductors::ConductFault;
use crate::jobs::means::Means;
use air_base::NoMemory;
use air_devices::Mast;
use air_history::Event;
use air_sender::{AirFault, below_law, groups_below_law};
use control_matrix::Board;
use cycle_snapshot::Publisher;
use station::ConductorPass;
use std::sync::Wait;

/// Changes the board by the events, in order.
fn apply_all(board: &mut Board, events: &[Event])
    requires fits { All (ItemsFit (length board.old.values)) events.now }
    requires room { board.old.cycle + starts events.now + 1 < 2 ^ 32 }
    ensures stepped { board.new ≡ step_all board.old events.now }
    ensures sized { length board.new.values ≡ length board.old.values }
    ensures bases { All BasesRead events.now }
{
    for event in events {
        event.shows_rules_kept();
        board.apply(event);
    }
}

/// Starts a cycle, and gives its events: those since the start before, with the new start.
fn start_fresh<R: Wait>(
    means: &Means<'_, R>,
    pass: &mut ConductorPass,
) -> Result<Vec<Event>, NoMemory>
    requires own { pass.old.station ≡ means.now.station.now }
    requires few { starts pass.old.seen < 2 ^ 32 - 1 }
    ensures on { GoesOn pass.old pass.new }
    ensures started { (batches : List (List Event)) → IsUpTo 0 pass.old.seen batches →
        MatchResult result (λ fresh. IsBatch (length pass.old.values) fresh.items × IsUpTo 1 pass.new.seen batches × IsUpTo 0 pass.new.seen (batches ++ fresh.items ∷ [])) (λ _. IsUpTo 0 pass.new.seen batches) }
{
    let mut fresh = Vec::new(means.alloc);
    let _cycle = means
        .station
        .start_cycle(means.wait, means.alloc, pass, &mut fresh)?;
    Ok(fresh)
}

/// Starts a cycle, applies its events to the board, fills from the board what the cycle is aired from, and publishes the events as one batch. If the
/// publisher refuses them, the board still has them.
fn begin_cycle<R: Wait, A: Airing>(
    means: &Means<'_, R>,
    pass: &mut ConductorPass,
    publisher: &mut Publisher,
    board: &mut Board,
    airing: &mut A,
) -> Result<(), NoMemory>
    requires own { pass.old.station ≡ means.now.station.now }
    requires step { AreInStep pass.old publisher.old board.old }
    requires room { (starts pass.old.seen < publisher.old.most) × (starts pass.old.seen + 2 < 2 ^ 32) }
    requires suits { A.suits airing.old (length pass.old.values) means.now.form }
    ensures pass { GoesOn pass.old pass.new }
    ensures kept { (A.group airing.new ≡ A.group airing.old) × A.suits airing.new (length pass.old.values) means.now.form }
    ensures ready { OnOk result (A.ready airing.new board.new) }
    ensures begun { OnOk result (AreInStep pass.new publisher.new board.new × AddsBatch publisher.old publisher.new) }
    ensures stopped { OnErr result ((publisher.new ≡ publisher.old) × IsPublishedUpTo pass.new.seen publisher.new.batches fault.NoMemory) }
    ensures board { IsBoardOf pass.new board.new }
    ensures started { OnOk result (1 ≤ board.new.cycle) }
    ensures below { OnOk result (EntriesBelow board.new) }
    ensures groups_below { OnOk result ((g : ℕ) → 0 < g → EntriesBelow (spread (grouped g board.new))) }
    ensures sized { OnOk result (length board.new.values ≡ length pass.old.values) }
{
    let fresh = start_fresh(means, pass)?;
    apply_all(board, &fresh);
    airing.fill_from(board);
    publisher.publish(means.wait, fresh)?;
    below_law();
    groups_below_law();
    Ok(())
}

/// The slot at which the mast failed.
fn slot_of(fault: AirFault) -> u32
    ensures { result ≡ failed_slot fault }
{
    match fault {
        AirFault::Mast { slot } => slot,
    }
}

/// Conducts one cycle of a job that has already sent `already` buckets, with the program in force in the cycle, and answers the number of the cycle's
/// buckets. The fault has the number of buckets sent by the job.
pub fn conduct_cycle<R: Wait, A: Airing, M: Mast>(
    means: &Means<'_, R>,
    already: u64,
    pass: &mut ConductorPass,
    publisher: &mut Publisher,
    board: &mut Board,
    airing: &mut A,
    mast: &mut M,
    buf: &mut [u8],
) -> Result<u32, ConductFault>
    requires own { pass.old.station ≡ means.now.station.now }
    requires step { AreInStep pass.old publisher.old board.old }
    requires room { (starts pass.old.seen < publisher.old.most) × (starts pass.old.seen + 2 < 2 ^ 32) }
    requires airable { CanAirIn means.now.form pass.old.values means.now.plans.now (length buf.old) }
    requires count { already + MOST_SLOTS < 2 ^ 64 }
    requires suits { A.suits airing.old (length pass.old.values) means.now.form }
    ensures pass { GoesOn pass.old pass.new }
    ensures publisher { PublishesOn publisher.old publisher.new }
    ensures done { OnOk result (AreInStep pass.new publisher.new board.new × (length publisher.new.batches ≡ length publisher.old.batches + 1)) }
    ensures board { IsBoardOf pass.new board.new }
    ensures few { OnErr result (starts pass.new.seen ≤ starts pass.old.seen + 1) }
    ensures published { IfErr result (IsPublishedUpTo pass.new.seen publisher.new.batches) }
    ensures slots { IfOk result (λ slots. slots ≤ MOST_SLOTS) }
    ensures kept { (A.group airing.new ≡ A.group airing.old) × A.suits airing.new (length pass.old.values) means.now.form }
    ensures aired { (air : Air) → IsAirOf (A.group airing.old) pass.old.values means.now.form means.now.plans.now air →
        MatchResult result (λ slots. SendsCounted pass.old.values air 1 slots (events_in publisher.old.batches) (events_in publisher.new.batches) (M.state mast.old).told (M.state mast.new).told) (SendsInCycle M.state pass.old.values air already (events_in publisher.old.batches) (events_in publisher.new.batches) mast.old mast.new) }
    ensures cause { MatchResult result (λ _. (M.state mast.new).faults ≡ (M.state mast.old).faults) (IsFailure (M.state mast.old).faults (M.state mast.new).faults) }
    ensures port { (M.state mast.new).port ≡ (M.state mast.old).port }
    ensures buffer { length buf.new ≡ length buf.old }
{
    begin_cycle(means, pass, publisher, board, airing)?;
    let program = means.plans.in_force(board.cycle());
    let slots = program.slots();
    match airing.air(program, board, means.form, mast, buf) {
        Ok(()) => Ok(slots),
        Err(fault) => {
            let slot = u64::from(slot_of(fault));
            let sent = already + slot;
            Err(ConductFault::Mast { sent })
        }
    }
}
