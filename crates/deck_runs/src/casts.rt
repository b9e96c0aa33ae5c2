//! A deck's run, cast to a mast.

ghost use Rattle.std.specs.Prelude.{◌≡◌, ℕ, Err, None, Some, IfErr, IfOk, OnErr, OnOk};
ghost use Rattle.air_devices.specs.Counts.{Rose};
ghost use Rattle.air_devices.specs.Masts.{Changes, nothing_sent, with_end};
ghost use Rattle.air_devices.specs.WhatIsTold.{WhereTold};
ghost use Rattle.air_model.specs.Batches.{AirsByBatches};
ghost use Rattle.air_model.specs.Runs.{IsRun};
ghost use Rattle.air_sender.specs.AiredBytes.{aired_bytes};
ghost use Rattle.deck_runs.specs.Casts.{FailsFirst, IsCastAnswer, all_sent};
ghost use Rattle.deck_runs.specs.Private.CastSteps.{bucket_count};

use crate::threads::{Run, RunFault, run_threads};
use air_devices::{Gate, Mast};
use chunk_program::Planned;
use std::alloc::Global;
use std::sync::Wait;
use std::thread::Threads;

/// The number of buckets in the deck's cycles.
fn bucket_count(planned: &Planned) -> u64
    ensures { result ≡ bucket_count planned.now }
{
    let plans = planned.plans();
    let cycles = planned.deck().settings().cycles;
    let mut count = 0u64;
    for done in 0..cycles {
        count += u64::from(plans.in_force(done + 1).slots());
    }
    count
}

/// Sends the end, after `sent` buckets.
fn send_end<M: Mast>(mast: &mut M, sent: u64) -> Result<(), RunFault>
    ensures ended { OnOk result (Changes with_end (M.state mast.old).told (M.state mast.new).told) }
    ensures calm { OnOk result ((M.state mast.new).faults ≡ (M.state mast.old).faults) }
    ensures fault { IfErr result (λ fault. fault ≡ RunFault.Mast sent) }
    ensures rose { OnErr result (Rose (M.state mast.old).faults (M.state mast.new).faults) }
    ensures unended { OnErr result ((M.state mast.new).told ≡ (M.state mast.old).told) }
    ensures port { (M.state mast.new).port ≡ (M.state mast.old).port }
{
    match mast.finish() {
        Ok(()) => Ok(()),
        Err(_) => Err(RunFault::Mast { sent }),
    }
}

/// Aims the mast at a port, runs the deck on threads with it, and sends the end: exactly the run's buckets were sent, and then the end. If the mast
/// failed, it had sent the first `sent` buckets of a whole history, and no end: 0 if it could not be aimed, and all if only the end failed. It sent
/// nothing after its first failure. After `NoMemory` it has sent the first buckets of a whole history, maybe none.
pub fn cast_run<R: Threads + Wait + Sync, M: Mast + Send, G: Gate + Sync>(
    rt: &R,
    alloc: Global,
    planned: &Planned,
    mast: &mut M,
    gate: &G,
    port: u16,
) -> Result<Run, RunFault>
    requires unaimed { (M.state mast.old).port ≡ None }
    requires unsent { WhereTold (M.state mast.old).told (λ s. s ≡ nothing_sent) }
    ensures run { IfOk result (IsRun planned.now) }
    ensures batches { IfOk result (λ run. AirsByBatches planned.now run.history run.batches) }
    ensures sent { IfOk result (λ run. Changes (λ _. all_sent (aired_bytes planned.now run.history)) (M.state mast.old).told (M.state mast.new).told) }
    ensures calm { OnOk result ((M.state mast.new).faults ≡ (M.state mast.old).faults) }
    ensures fault { IfErr result (IsCastAnswer planned.now (M.state mast.old) (M.state mast.new)) }
    ensures first { (sent : ℕ) → result ≡ Err (RunFault.Mast sent) → FailsFirst M.state mast.old mast.new }
    ensures port { (M.state mast.new).port ≡ Some port }
{
    planned.shows_planned();
    if mast.aim(port).is_err() {
        return Err(RunFault::Mast { sent: 0 });
    }
    let run = run_threads(rt, alloc, planned, mast, gate)?;
    send_end(mast, bucket_count(planned))?;
    Ok(run)
}
