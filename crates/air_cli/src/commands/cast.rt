//! The command `cast`: a run of a named deck on threads, sent to a port.

ghost use Rattle.std.specs.Prelude.{◌≡◌, ℕ, ◌≤◌, ◌⊎◌, None, Some, IfErr, IfOk};
ghost use Rattle.air_base.specs.declared.limits.TheConstants.{MOST_TAPE_BYTES};
ghost use Rattle.air_devices.specs.Masts.{nothing_sent};
ghost use Rattle.air_devices.specs.WhatIsTold.{WhereTold};
ghost use Rattle.deck_runs.specs.Casts.{FailsFirst};
ghost use Rattle.deck_runs.specs.RunTapes.{run_tape_len};
ghost use Rattle.air_model.specs.Runs.{Run};
ghost use Rattle.air_cli.specs.Cast.{HasSent, IsCast, IsCastRefusal, cast_meaning};
ghost use Rattle.air_cli.specs.Words.{AsksCast};
ghost use Rattle.air_cli.specs.OnAir.{LeavesMast};
ghost use Rattle.air_cli.specs.Private.Airing.{cast_status};
ghost use Rattle.air_cli.specs.Private.BeforeDelivery.{IsMade, IsUnmade, ReadsInputs};

use crate::commands::reports::cast_report;
use crate::files::runnable::read_runnable_deck;
use crate::outputs::report_and_tape::ReportAndTape;
use crate::truths::shows_run_truth;
use air_devices::{Gate, Mast, Shelf};
use air_report::Status;
use chunk_program::Planned;
use deck_runs::{RunFault, cast_run, long_run};
use std::alloc::Global;
use std::sync::Wait;
use std::thread::Threads;

/// The report of a run of the named deck, which is cast to a port.
#[tactic(auto, using(crate::proofs::MakeLemmas::is_unmade, crate::proofs::MakeLemmas::is_unmade_calm, crate::proofs::CastLemmas::unrunnable_cast, crate::proofs::CastLemmas::refused_cast, crate::proofs::CastLemmas::calm_cast, crate::proofs::CastLemmas::leaves_cast))]
pub(crate) fn cast<R: Threads + Wait + Sync, S: Shelf, M: Mast + Send, G: Gate + Sync>(
    rt: &R,
    alloc: Global,
    shelf: &mut S,
    mast: &mut M,
    name: &str,
    port: u16,
    gate: &G,
) -> Result<ReportAndTape, Status>
    requires unaimed { (M.state mast.old).port ≡ None }
    requires unsent { WhereTold (M.state mast.old).told (λ s. s ≡ nothing_sent) }
    ensures made { IfOk result (IsMade (cast_meaning name.now port (M.state mast.old) (M.state mast.new)) (S.state shelf.old) (S.state shelf.new)) }
    ensures unmade { IfErr result (IsUnmade (cast_meaning name.now port (M.state mast.old) (M.state mast.new)) (S.state shelf.old) (S.state shelf.new)) }
    ensures calm { IfErr result (λ s. s ≡ Status.NoMemory → (M.state mast.new).faults ≡ (M.state mast.old).faults) }
    ensures reads { ReadsInputs (cast_meaning name.now port (M.state mast.old) (M.state mast.new)) (S.state shelf.old) (S.state shelf.new) }
    ensures mast { LeavesMast (Some (AsksCast name.now port)) (S.state shelf.old) (M.state mast.old) (M.state mast.new) }
    ensures first { IfErr result (λ s. (at : ℕ) → s ≡ Status.AirFault at → FailsFirst M.state mast.old mast.new) }
{
    let planned = read_runnable_deck(alloc, shelf, name)?;
    let given = cast_on_air(rt, alloc, &planned, mast, port, gate)?;
    Ok(given)
}

/// The report of a run of a deck, which is cast to a port. A deck whose tape would be too long is refused before the mast is aimed. Out of memory, no
/// call of the mast failed.
#[tactic(auto, unfolding(crate::specs::Cast::IsCastRefusal), using(crate::proofs::CastLemmas::all_cast, crate::proofs::CastLemmas::part_cast, crate::proofs::CastLemmas::is_cast, crate::proofs::CastLemmas::fault_refused, crate::proofs::CastLemmas::cast_first))]
pub fn cast_on_air<R: Threads + Wait + Sync, M: Mast + Send, G: Gate + Sync>(
    rt: &R,
    alloc: Global,
    planned: &Planned,
    mast: &mut M,
    port: u16,
    gate: &G,
) -> Result<ReportAndTape, Status>
    requires unaimed { (M.state mast.old).port ≡ None }
    requires unsent { WhereTold (M.state mast.old).told (λ s. s ≡ nothing_sent) }
    ensures few { IfOk result (λ given. run_tape_len planned.now ≤ MOST_TAPE_BYTES) }
    ensures gives { IfOk result (λ given. (run : Run) × IsCast planned.now port (M.state mast.old) (M.state mast.new) given run) }
    ensures refused { IfErr result (IsCastRefusal planned.now port (M.state mast.old) (M.state mast.new)) }
    ensures mast { (M.state mast.new ≡ M.state mast.old) ⊎ HasSent planned.now port (M.state mast.old) (M.state mast.new) }
    ensures first { IfErr result (λ s. (at : ℕ) → s ≡ Status.AirFault at → FailsFirst M.state mast.old mast.new) }
{
    if let Some(bytes) = long_run(planned) {
        return Err(Status::TooLong { bytes });
    }
    shows_run_truth(planned);
    match cast_run(rt, alloc, planned, mast, gate, port) {
        Ok(run) => {
            let text = cast_report(alloc, run)?;
            Ok(ReportAndTape {
                text,
                tape: None,
                differs: false,
            })
        }
        Err(fault) => Err(status_of(fault)),
    }
}

/// The status of a cast that was not done.
fn status_of(fault: RunFault) -> Status
    ensures { result ≡ cast_status fault }
{
    match fault {
        RunFault::Mast { sent } => Status::AirFault { at: sent },
        RunFault::NoMemory => Status::NoMemory,
    }
}
