//! These pins of `run_threads` and `cast_run` say what a run of three cycles with two monitors answers, and what a failed run or cast answers.
//!
//! Its threads run in any order, so the pins say what every run must keep.

ghost use Rattle.std.specs.Prelude.{◌≡◌, ◌≤◌, ℕ, [], ◌∷◌, length, map, All, Err, None, Some, IfOk};
ghost use Rattle.air_history.specs.Histories.{starts};
ghost use Rattle.air_history.specs.declared.histories.Event.TheVariants.{Commit};
ghost use Rattle.air_model.specs.DeckLaws.{made_by};
ghost use Rattle.air_model.specs.declared.reports.LookLine.{LookLine};
ghost use Rattle.air_devices.specs.Masts.{SentBuckets, nothing_sent};
ghost use Rattle.thread_pins.specs.CalmMasts.{HadSent};
ghost use Rattle.thread_pins.specs.SmallBatches.{adds_to};

use air_devices::{Gate, Mast};
use chunk_program::Planned;
use deck_runs::{Run, RunFault, cast_run, run_threads};
use std::alloc::Global;
use std::sync::Wait;
use std::thread::Threads;

/// A run of three cycles has three starts and three batches. Each of its two monitors has a glance and a look of its own number, and looks at the
/// last cycle. It also refuses lines of the first monitor only, a glance returned as the look, the batches of before the run, and that a conductor's
/// fault is ignored.
/// Promise: the conductor airs the history
/// Promise: run prints what it aired
pub fn every_look_of_monitor_0<R: Threads + Wait + Sync, M: Mast + Send, G: Gate + Sync>(
    rt: &R,
    alloc: Global,
    planned: &Planned,
    mast: &mut M,
    gate: &G,
) -> Result<Run, RunFault>
    requires cycles { planned.now.settings.cycles ≡ 3 }
    requires monitors { planned.now.settings.monitors ≡ 2 }
    ensures started { IfOk result (λ run. starts run.history ≡ 3) }
    ensures published { IfOk result (λ run. length run.batches ≡ 3) }
    ensures glances { IfOk result (λ run. map (λ (line : LookLine). line.monitor) run.glances ≡ 0 ∷ 1 ∷ []) }
    ensures looks { IfOk result (λ run. map (λ (line : LookLine). line.monitor) run.looks ≡ 0 ∷ 1 ∷ []) }
    ensures last { IfOk result (λ run. All (λ (line : LookLine). line.cycle ≡ 3) run.looks) }
{
    run_threads(rt, alloc, planned, mast, gate)
}

/// The history of a run has the two updates of the second updater, each once and in order, though the first has none. It also refuses one update
/// that is made twice, or for the other.
/// Promise: run prints what it aired
pub fn one_updater_done_for_all<R: Threads + Wait + Sync, M: Mast + Send, G: Gate + Sync>(
    rt: &R,
    alloc: Global,
    planned: &Planned,
    mast: &mut M,
    gate: &G,
) -> Result<Run, RunFault>
    requires { planned.now.updates ≡ [] ∷ (adds_to 1 0 3 ∷ adds_to 0 1 1 ∷ []) ∷ [] }
    ensures second { IfOk result (λ run. made_by 1 run.history ≡ Commit 1 0 (adds_to 1 0 3) ∷ Commit 1 1 (adds_to 0 1 1) ∷ []) }
    ensures first { IfOk result (λ run. made_by 0 run.history ≡ []) }
{
    run_threads(rt, alloc, planned, mast, gate)
}

/// A run that answers that the mast failed has the number of buckets that it had sent, and the mast counted a failure. It also refuses an answer that
/// the mast failed when the run was out of memory.
/// Promise: run prints what it aired
pub fn sent_buckets_not_counted<R: Threads + Wait + Sync, M: Mast + Send, G: Gate + Sync>(
    rt: &R,
    alloc: Global,
    planned: &Planned,
    mast: &mut M,
    gate: &G,
) -> Result<Run, RunFault>
    requires unsent { (M.state mast.old).told ≡ Some nothing_sent }
    requires faults { (M.state mast.old).faults ≡ 0 }
    ensures sent { (sent : ℕ) (now : SentBuckets) → result ≡ Err (RunFault.Mast sent) → (M.state mast.new).told ≡ Some now → length now.buckets ≡ sent }
    ensures cause { (sent : ℕ) → result ≡ Err (RunFault.Mast sent) → 1 ≤ (M.state mast.new).faults }
{
    run_threads(rt, alloc, planned, mast, gate)
}

/// A cast that answers that the mast failed sent nothing after the first failure: some mast had counted none, and had sent as many buckets as the
/// answer says. It refuses a cast that sends a bucket again after a failed send, then the later ones, leaves out the end, and answers with the number of
/// all buckets; and one that sends all the same after a failed aim.
/// Promise: what goes over the air
pub fn sends_on_after_a_failed_call<R: Threads + Wait + Sync, M: Mast + Send, G: Gate + Sync>(
    rt: &R,
    alloc: Global,
    planned: &Planned,
    mast: &mut M,
    gate: &G,
) -> Result<Run, RunFault>
    requires unaimed { (M.state mast.old).port ≡ None }
    requires unsent { (M.state mast.old).told ≡ Some nothing_sent }
    requires faults { (M.state mast.old).faults ≡ 0 }
    ensures { (sent : ℕ) → result ≡ Err (RunFault.Mast sent) → HadSent M.state sent }
{
    cast_run(rt, alloc, planned, mast, gate, 4001)
}
