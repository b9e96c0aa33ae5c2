//! The report and the tape of a run.

ghost use Rattle.std.specs.Prelude.{◌≤◌, IfOk};
ghost use Rattle.air_base.specs.declared.limits.TheConstants.{MOST_TAPE_BYTES};
ghost use Rattle.air_model.specs.Runs.{Run};
ghost use Rattle.air_cli.specs.GivenRuns.{IsGivenRun};
ghost use Rattle.deck_runs.specs.RunTapes.{run_tape_len};

use crate::outputs::report_and_tape::ReportAndTape;
use crate::truths::shows_run_truth;
use air_base::NoMemory;
use air_devices::Gate;
use air_report::{Report, write_report};
use chunk_program::Planned;
use deck_runs::{HeardRun, air_run};
use std::alloc::Global;
use std::sync::Wait;
use std::thread::Threads;

/// Runs a deck on threads, and makes the report of the run, with its readers' sessions and what its monitors saw, and its tape.
pub(crate) fn make_run<R: Threads + Wait + Sync, G: Gate + Sync>(
    rt: &R,
    alloc: Global,
    planned: &Planned,
    gate: &G,
) -> Result<ReportAndTape, NoMemory>
    requires { run_tape_len planned.now ≤ MOST_TAPE_BYTES }
    ensures { IfOk result (λ given. (run : Run) × IsGivenRun planned.now given run) }
{
    shows_run_truth(planned);
    let HeardRun {
        run,
        sessions,
        tape,
    } = air_run(rt, alloc, planned, gate)?;
    let report = Report {
        history: run.history,
        verdicts: sessions.verdicts,
        counts: sessions.counts,
        glances: run.glances,
        looks: run.looks,
    };
    let mut text = Vec::new(alloc);
    write_report(alloc, &report, &mut text)?;
    Ok(ReportAndTape {
        text,
        tape: Some(tape),
        differs: false,
    })
}
