//! A run, the sessions of the deck's readers, and the tape.

ghost use Rattle.std.specs.Prelude.{◌≡◌, ◌≤◌, IfOk};
ghost use Rattle.air_base.specs.declared.limits.TheConstants.{MOST_TAPE_BYTES};
ghost use Rattle.air_model.specs.Batches.{AirsByBatches};
ghost use Rattle.air_model.specs.Outputs.{run_tape, true_sessions};
ghost use Rattle.air_model.specs.Reports.{counts_lines, verdict_lines};
ghost use Rattle.air_model.specs.Tapes.{tape_of};
ghost use Rattle.air_sender.specs.TapeMasts.{told_by_tape};
ghost use Rattle.air_model.specs.Runs.{IsRun};
ghost use Rattle.deck_runs.specs.RunTapes.{run_tape_len};

use crate::tapes::run_bytes;
use crate::threads::{Run, run_threads};
use air_base::NoMemory;
use air_devices::Gate;
use air_sender::TapeMast;
use chunk_program::Planned;
use listeners::{Sessions, history_sessions};
use std::alloc::Global;
use std::sync::Wait;
use std::thread::Threads;

/// A run on the air: its history with what monitors saw, the sessions of the deck's readers, and the tape.
#[derive(Drop)]
pub struct HeardRun {
    pub run: Run,
    pub sessions: Sessions,
    pub tape: TapeMast,
}

/// Runs a deck on threads, and lets each reader hear what the run's history airs through its own ether.
pub fn air_run<R: Threads + Wait + Sync, G: Gate + Sync>(
    rt: &R,
    alloc: Global,
    planned: &Planned,
    gate: &G,
) -> Result<HeardRun, NoMemory>
    requires { run_tape_len planned.now ≤ MOST_TAPE_BYTES }
    ensures run { IfOk result (λ a. IsRun planned.now a.run) }
    ensures batches { IfOk result (λ a. AirsByBatches planned.now a.run.history a.run.batches) }
    ensures verdicts { IfOk result (λ a. a.sessions.verdicts.items ≡ verdict_lines (true_sessions planned.now a.run.history)) }
    ensures counts { IfOk result (λ a. a.sessions.counts.items ≡ counts_lines (true_sessions planned.now a.run.history)) }
    ensures tape { IfOk result (λ a. tape_of (told_by_tape a.tape).buckets ≡ run_tape planned.now a.run.history) }
{
    planned.shows_planned();
    let mut tape = TapeMast::new(alloc, run_bytes(planned))?;
    let Ok(run) = run_threads(rt, alloc, planned, &mut tape, gate) else {
        return Err(NoMemory);
    };
    let sessions = history_sessions(alloc, planned, run.history.events())?;
    Ok(HeardRun {
        run,
        sessions,
        tape,
    })
}
