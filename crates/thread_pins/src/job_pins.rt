//! These pins of the jobs of `deck_runs` say what a job of one update, of one or two looks and of one or two cycles leaves.
//!
//! Other jobs may commit at the same time, so the pins say what every order of events must keep.
#![tactic(auto, unfolding(air_model::specs::DeckLaws::made_by, air_model::specs::DeckLaws::commits_from))]

ghost use Rattle.std.specs.Prelude.{◌≡◌, ◌≤◌, ◌<◌, ◌+◌, ◌^◌, ◌++◌, ℕ, List, [], ◌∷◌, length, All, Err, IfOk, OnErr, OnOk, Some};
ghost use Rattle.air_base.specs.declared.verdicts.Policy.TheVariants.{FMatrix};
ghost use Rattle.air_history.specs.Histories.{starts, events_in};
ghost use Rattle.air_history.specs.UpdateRules.{UpdateFits};
ghost use Rattle.air_history.specs.declared.histories.Event.{Event};
ghost use Rattle.air_history.specs.declared.histories.Event.TheVariants.{Commit, Start};
ghost use Rattle.air_model.specs.Decks.{count_made};
ghost use Rattle.air_model.specs.DeckLaws.{made_by};
ghost use Rattle.air_devices.specs.Masts.{nothing_sent};
ghost use Rattle.deck_runs.specs.PublishedBatches.{AreInStep};
ghost use Rattle.deck_runs.specs.Sendings.{CanAirIn};
ghost use Rattle.thread_pins.specs.HotItem.{hot_plans, sent_in_two_cycles};
ghost use Rattle.thread_pins.specs.SmallBatches.{reads_and_sets, first_batch};
ghost use Rattle.thread_pins.specs.SmallGroups.{pair_plans, pair_values, sent_by_group, written_between};

use air_base::{Form, NoMemory, Policy};
use air_devices::{Gate, Mast};
use air_history::Update;
use air_model::reports::LookLine;
use chunk_program::Plans;
use control_matrix::Board;
use cycle_snapshot::{Monitor, Publisher};
use deck_runs::{
    ConductFault, conductor_job, group_conductor_job, last_look, monitor_job, updater_job,
};
use group_matrix::GroupBoard;
use station::{ConductorPass, Station, UpdaterPass};
use std::alloc::Global;
use std::sync::Wait;

/// Control columns, with their entries in full.
const COLUMNS: Form = Form {
    policy: Policy::FMatrix,
    version: 1,
};

/// A first job of one update makes one commit, of this update with its read, regardless of what others commit at the same time.
/// Promise: what the calls of a pass do
pub fn other_or_double_commit<R: Wait, G: Gate>(
    wait: &R,
    alloc: Global,
    station: &Station,
    pass: &mut UpdaterPass,
    updates: &[Update],
    gate: &G,
) -> Result<(), NoMemory>
    requires own { pass.old.station ≡ station.now }
    requires number { pass.old.number ≡ 1 }
    requires seen { pass.old.seen ≡ [] }
    requires updates { updates.now ≡ reads_and_sets 0 1 5 ∷ [] }
    requires fits { All (UpdateFits (length pass.old.values)) updates.now }
    requires few { count_made pass.old.number pass.old.seen + length updates.now < 2 ^ 32 }
    ensures { OnOk result (made_by 1 pass.new.seen ≡ Commit 1 0 (reads_and_sets 0 1 5) ∷ []) }
{
    updater_job(wait, alloc, station, pass, updates, gate)
}

/// A first job of two looks looks twice.
/// Promise: a look is a published prefix
pub fn one_look_too_few<G: Gate>(monitor: &mut Monitor, gate: &G) -> Result<LookLine, NoMemory>
    requires { monitor.old.looks ≡ 0 }
    ensures { OnOk result (monitor.new.looks ≡ 2) }
{
    monitor_job(monitor, 2, gate)
}

/// A job of one look sees no less than the monitor was told.
/// Promise: a look is a published prefix
pub fn look_of_less_than_was_told<G: Gate>(
    monitor: &mut Monitor,
    gate: &G,
) -> Result<LookLine, NoMemory>
    requires { monitor.old.told ≡ first_batch ∷ [] }
    ensures { OnOk result (1 ≤ length monitor.new.seen) }
{
    monitor_job(monitor, 1, gate)
}

/// The line of a job has the number 0, which the caller replaces.
/// Promise: run prints what it aired
pub fn line_of_another_number<G: Gate>(
    monitor: &mut Monitor,
    gate: &G,
) -> Result<LookLine, NoMemory>
    ensures { IfOk result (λ line. line.monitor ≡ 0) }
{
    monitor_job(monitor, 1, gate)
}

/// The line of a last look has the number 0, too.
/// Promise: run prints what it aired
pub fn last_line_of_another_number(
    monitor: &mut Monitor,
    publisher: &Publisher,
) -> Result<LookLine, NoMemory>
    requires { monitor.old.publisher ≡ publisher.now.id }
    ensures { IfOk result (λ line. line.monitor ≡ 0) }
{
    last_look(monitor, publisher)
}

/// A first job of two cycles starts two, and publishes two batches: one a cycle, each with its start at the end, and together all that was seen up to
/// the last start. It also refuses a job of fewer cycles.
/// Promise: the conductor airs the history
pub fn cycle_left_out<R: Wait, M: Mast, G: Gate>(
    wait: &R,
    alloc: Global,
    station: &Station,
    pass: &mut ConductorPass,
    publisher: &mut Publisher,
    board: &mut Board,
    plans: &Plans,
    form: Form,
    mast: &mut M,
    buf: &mut [u8],
    gate: &G,
) -> Result<(), ConductFault>
    requires own { pass.old.station ≡ station.now }
    requires step { AreInStep pass.old publisher.old board.old }
    requires seen { starts pass.old.seen ≡ 0 }
    requires room { publisher.old.most ≡ 2 }
    requires airable { CanAirIn form pass.old.values plans.now (length buf.old) }
    ensures started { OnOk result (starts pass.new.seen ≡ 2) }
    ensures published { OnOk result (length publisher.new.batches ≡ 2) }
    ensures each { All (λ batch. (commits : List Event) × (batch ≡ commits ++ Start ∷ []) × (starts commits ≡ 0)) publisher.new.batches }
    ensures whole { OnOk result ((later : List Event) × (pass.new.seen ≡ events_in publisher.new.batches ++ later) × (starts later ≡ 0)) }
{
    conductor_job(
        wait, alloc, station, pass, publisher, board, plans, form, 2, mast, buf, gate,
    )
}

/// If a first job of two cycles answers that the mast failed, each cycle that it started is published, and the mast counted a failure. Regardless of
/// its answer, the board is at the last cycle that it started. It also refuses a job that starts a cycle more than it publishes, a board of an
/// earlier cycle, and an answer that the mast failed when the job was out of memory.
/// Promise: every answer is a named one
/// Promise: a refusal leaves its objects
pub fn board_left_behind<R: Wait, M: Mast, G: Gate>(
    wait: &R,
    alloc: Global,
    station: &Station,
    pass: &mut ConductorPass,
    publisher: &mut Publisher,
    board: &mut Board,
    plans: &Plans,
    form: Form,
    mast: &mut M,
    buf: &mut [u8],
    gate: &G,
) -> Result<(), ConductFault>
    requires own { pass.old.station ≡ station.now }
    requires step { AreInStep pass.old publisher.old board.old }
    requires room { (starts pass.old.seen ≡ 0) × (publisher.old.most ≡ 2) }
    requires airable { CanAirIn form pass.old.values plans.now (length buf.old) }
    requires faults { (M.state mast.old).faults ≡ 0 }
    ensures few { OnErr result (starts pass.new.seen ≤ 2) }
    ensures in_step { (sent : ℕ) → result ≡ Err (ConductFault.Mast sent) → length publisher.new.batches ≡ starts pass.new.seen }
    ensures cause { (sent : ℕ) → result ≡ Err (ConductFault.Mast sent) → 1 ≤ (M.state mast.new).faults }
    ensures board { board.new.cycle ≡ starts pass.new.seen }
{
    conductor_job(
        wait, alloc, station, pass, publisher, board, plans, form, 2, mast, buf, gate,
    )
}

/// A first job of two cycles, with a commit to item 0 after the first: item 0 has its first value in both of its slots of cycle 1, and what was written
/// in both of cycle 2. It also refuses values of now: cycle 1 has none of what is committed after its start, and cycle 2 has all of what is committed
/// before its own.
/// Promise: the conductor airs the history
pub fn newer_frame_in_cycle<R: Wait, M: Mast, G: Gate>(
    wait: &R,
    alloc: Global,
    station: &Station,
    pass: &mut ConductorPass,
    publisher: &mut Publisher,
    board: &mut Board,
    plans: &Plans,
    mast: &mut M,
    buf: &mut [u8],
    gate: &G,
) -> Result<(), ConductFault>
    requires own { pass.old.station ≡ station.now }
    requires step { AreInStep pass.old publisher.old board.old }
    requires new { (pass.old.seen ≡ []) × (pass.old.values ≡ pair_values) }
    requires room { publisher.old.most ≡ 2 }
    requires plans { plans.now ≡ hot_plans }
    requires airable { CanAirIn (record { policy = FMatrix; version = 1 }) pass.old.values plans.now (length buf.old) }
    requires unsent { (M.state mast.old).told ≡ Some nothing_sent }
    ensures { OnOk result (pass.new.seen ≡ written_between → (M.state mast.new).told ≡ Some sent_in_two_cycles) }
{
    conductor_job(
        wait, alloc, station, pass, publisher, board, plans, COLUMNS, 2, mast, buf, gate,
    )
}

/// By groups of two items, a commit to item 0 in cycle 1 gives both buckets of cycle 2 the entry 1: the second one has the column of the group. If each
/// had its own column, it would have the entry 0. It also refuses groups that are filled before the cycle's events are applied: both buckets would be
/// those of cycle 1 (groups filled after their cycle).
/// Promise: a cycle is aired by groups
pub fn own_columns_for_groups<R: Wait, M: Mast, G: Gate>(
    wait: &R,
    alloc: Global,
    station: &Station,
    pass: &mut ConductorPass,
    publisher: &mut Publisher,
    board: &mut Board,
    groups: &mut GroupBoard,
    plans: &Plans,
    mast: &mut M,
    buf: &mut [u8],
    gate: &G,
) -> Result<(), ConductFault>
    requires own { pass.old.station ≡ station.now }
    requires step { AreInStep pass.old publisher.old board.old }
    requires seen { (pass.old.seen ≡ Start ∷ []) × (pass.old.values ≡ pair_values) }
    requires room { publisher.old.most ≡ 2 }
    requires plans { plans.now ≡ pair_plans }
    requires airable { CanAirIn (record { policy = FMatrix; version = 1 }) pass.old.values plans.now (length buf.old) }
    requires groups { (length groups.old.values ≡ 2) × (groups.old.group ≡ 2) }
    requires unsent { (M.state mast.old).told ≡ Some nothing_sent }
    ensures { OnOk result (pass.new.seen ≡ written_between → (M.state mast.new).told ≡ Some sent_by_group) }
{
    group_conductor_job(
        wait, alloc, station, pass, publisher, board, groups, plans, COLUMNS, 1, mast, buf, gate,
    )
}
