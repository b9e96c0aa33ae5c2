//! The command `listen`: what a named deck's readers hear on a port.

ghost use Rattle.std.specs.Prelude.{◌≡◌, ◌⊎◌, ℕ, List, None, Some, IfErr, IfOk};
ghost use Rattle.air_cli.specs.Hearings.{EarFailsFirst};
ghost use Rattle.air_cli.specs.Listen.{HasHeardPort, IsListenRefusal, IsListening, listen_meaning};
ghost use Rattle.air_cli.specs.Words.{AsksListen};
ghost use Rattle.air_cli.specs.OnAir.{LeavesEar};
ghost use Rattle.air_cli.specs.Private.Airing.{hear_status};
ghost use Rattle.air_cli.specs.Private.BeforeDelivery.{IsMade, IsUnmade, ReadsInputs};

use crate::commands::hearings::{HearFault, ear_sessions};
use crate::commands::reports::heard_report;
use crate::files::runnable::read_runnable_deck;
use crate::outputs::report_and_tape::ReportAndTape;
use crate::truths::shows_tape_truth;
use air_devices::{Ear, Shelf};
use air_report::Status;
use chunk_program::Planned;
use std::alloc::Global;

/// The report of the named deck's readers over what they hear on a port.
#[tactic(auto, using(crate::proofs::MakeLemmas::is_unmade, crate::proofs::MakeLemmas::is_unmade_calm, crate::proofs::ListenLemmas::unrunnable_listen, crate::proofs::ListenLemmas::refused_listen, crate::proofs::ListenLemmas::calm_listen, crate::proofs::ListenLemmas::leaves_listen))]
pub(crate) fn listen<S: Shelf, E: Ear>(
    alloc: Global,
    shelf: &mut S,
    ear: &mut E,
    name: &str,
    port: u16,
) -> Result<ReportAndTape, Status>
    requires untuned { (E.state ear.old).port ≡ None }
    ensures made { IfOk result (IsMade (listen_meaning name.now port (E.state ear.old) (E.state ear.new)) (S.state shelf.old) (S.state shelf.new)) }
    ensures unmade { IfErr result (IsUnmade (listen_meaning name.now port (E.state ear.old) (E.state ear.new)) (S.state shelf.old) (S.state shelf.new)) }
    ensures calm { IfErr result (λ s. s ≡ Status.NoMemory → (E.state ear.new).faults ≡ (E.state ear.old).faults) }
    ensures reads { ReadsInputs (listen_meaning name.now port (E.state ear.old) (E.state ear.new)) (S.state shelf.old) (S.state shelf.new) }
    ensures ear { LeavesEar (Some (AsksListen name.now port)) (S.state shelf.old) (E.state ear.old) (E.state ear.new) }
    ensures first { IfErr result (λ s. (at : ℕ) → s ≡ Status.AirFault at → EarFailsFirst E.state ear.old ear.new) }
{
    let planned = read_runnable_deck(alloc, shelf, name)?;
    let given = hear_on_air(alloc, &planned, ear, port)?;
    Ok(given)
}

/// The report of a deck's readers over what they hear on a port. Out of memory, no call of the ear failed.
#[tactic(auto, unfolding(crate::specs::Listen::IsListenRefusal), using(crate::proofs::ListenLemmas::all_heard, crate::proofs::ListenLemmas::part_heard, crate::proofs::ListenLemmas::fault_refused, crate::proofs::ListenLemmas::hear_first))]
pub fn hear_on_air<E: Ear>(
    alloc: Global,
    planned: &Planned,
    ear: &mut E,
    port: u16,
) -> Result<ReportAndTape, Status>
    requires untuned { (E.state ear.old).port ≡ None }
    ensures gives { IfOk result (λ given. (heard : List (List ℕ)) × IsListening planned.now port (E.state ear.old) (E.state ear.new) given heard) }
    ensures refused { IfErr result (IsListenRefusal planned.now port (E.state ear.old) (E.state ear.new)) }
    ensures ear { (E.state ear.new ≡ E.state ear.old) ⊎ HasHeardPort planned.now port (E.state ear.old) (E.state ear.new) }
    ensures first { IfErr result (λ s. (at : ℕ) → s ≡ Status.AirFault at → EarFailsFirst E.state ear.old ear.new) }
{
    shows_tape_truth(planned);
    match ear_sessions(alloc, planned, ear, port) {
        Ok(sessions) => {
            let text = heard_report(alloc, sessions)?;
            Ok(ReportAndTape {
                text,
                tape: None,
                differs: false,
            })
        }
        Err(fault) => Err(status_of(fault)),
    }
}

/// The status if not everything was heard.
fn status_of(fault: HearFault) -> Status
    ensures { result ≡ hear_status fault }
{
    match fault {
        HearFault::Ear { heard } => Status::AirFault { at: heard },
        HearFault::NoMemory => Status::NoMemory,
    }
}
