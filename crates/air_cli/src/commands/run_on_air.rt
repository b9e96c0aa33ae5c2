//! A run of a deck, unless its tape would be too long.

ghost use Rattle.std.specs.Prelude.{◌≤◌, IfErr, IfOk};
ghost use Rattle.air_base.specs.declared.limits.TheConstants.{MOST_TAPE_BYTES};
ghost use Rattle.air_model.specs.Runs.{Run};
ghost use Rattle.air_cli.specs.GivenRuns.{IsGivenRun, IsRunRefusal};
ghost use Rattle.deck_runs.specs.RunTapes.{run_tape_len};

use crate::commands::run_reports::make_run;
use crate::outputs::report_and_tape::ReportAndTape;
use air_devices::Gate;
use air_report::Status;
use chunk_program::Planned;
use deck_runs::long_run;
use std::alloc::Global;
use std::sync::Wait;
use std::thread::Threads;

/// The report and the tape of a run of the deck on threads. A deck whose tape would be too long is refused before any thread starts.
#[tactic(auto, unfolding(crate::specs::GivenRuns::IsRunRefusal))]
pub fn run_on_air<R: Threads + Wait + Sync, G: Gate + Sync>(
    rt: &R,
    alloc: Global,
    planned: &Planned,
    gate: &G,
) -> Result<ReportAndTape, Status>
    ensures short { IfOk result (λ given. run_tape_len planned.now ≤ MOST_TAPE_BYTES) }
    ensures gives { IfOk result (λ given. (run : Run) × IsGivenRun planned.now given run) }
    ensures refused { IfErr result (IsRunRefusal planned.now) }
{
    if let Some(bytes) = long_run(planned) {
        return Err(Status::TooLong { bytes });
    }
    let given = make_run(rt, alloc, planned, gate)?;
    Ok(given)
}
