//! The command `run`: the report and the tape of a run of a named deck on threads.

ghost use Rattle.std.specs.Prelude.{ℕ, List, IfErr, IfOk};
ghost use Rattle.air_cli.specs.Run.{run_meaning};
ghost use Rattle.air_cli.specs.Private.BeforeDelivery.{IsMade, IsUnmade, ReadsInputs};

use crate::commands::run_on_air::run_on_air;
use crate::files::runnable::read_runnable_deck;
use crate::outputs::report_and_tape::ReportAndTape;
use air_devices::{Gate, Shelf};
use air_report::Status;
use std::alloc::Global;
use std::sync::Wait;
use std::thread::Threads;

/// The report and the tape of a run of the named deck, regardless of the output for the tape.
#[tactic(auto, using(crate::proofs::MakeLemmas::is_unmade, crate::proofs::MakeLemmas::is_unmade_calm, crate::proofs::RunMeaningLemmas::unrunnable_run, crate::proofs::RunMeaningLemmas::long_run_cause))]
pub(crate) fn run<R: Threads + Wait + Sync, S: Shelf, G: Gate + Sync>(
    rt: &R,
    alloc: Global,
    shelf: &mut S,
    name: &str,
    gate: &G,
) -> Result<ReportAndTape, Status>
    ensures made { (tape : List ℕ) → IfOk result (IsMade (run_meaning name.now tape) (S.state shelf.old) (S.state shelf.new)) }
    ensures unmade { (tape : List ℕ) → IfErr result (IsUnmade (run_meaning name.now tape) (S.state shelf.old) (S.state shelf.new)) }
    ensures reads { (tape : List ℕ) → ReadsInputs (run_meaning name.now tape) (S.state shelf.old) (S.state shelf.new) }
{
    let planned = read_runnable_deck(alloc, shelf, name)?;
    let given = run_on_air(rt, alloc, &planned, gate)?;
    Ok(given)
}
