//! The line of a refusal, printed.

ghost use Rattle.std.specs.Prelude.{◌≡◌, OnErr, OnOk};
ghost use Rattle.air_devices.specs.Counts.{KeepsCounts, NoCountFalls};
ghost use Rattle.air_devices.specs.Unchanged.{KeepsButPrinted};
ghost use Rattle.air_cli.specs.Refusals.{IsSteady, PrintsLine, Refuses};

use air_base::NoMemory;
use air_devices::Shelf;
use air_report::{Status, refusal_line};
use std::alloc::Global;

/// Prints the status's line, and answers the status, or `NoMemory` if there is no memory for the line.
pub fn refuse<S: Shelf>(alloc: Global, shelf: &mut S, status: Status) -> Status
    ensures gives { Refuses status (S.state shelf.old) (S.state shelf.new) result }
    ensures rest { KeepsButPrinted (S.state shelf.old).told (S.state shelf.new).told }
    ensures counts { NoCountFalls (S.state shelf.old).faults (S.state shelf.new).faults }
{
    match print_line(alloc, shelf, &status) {
        Ok(()) => status,
        Err(_) => Status::NoMemory,
    }
}

/// Prints the fault line of a status; a print that fails leaves out the rest of the line.
#[tactic(auto, using(crate::proofs::DeliveryLemmas::print_steady))]
fn print_line<S: Shelf>(alloc: Global, shelf: &mut S, status: &Status) -> Result<(), NoMemory>
    ensures line { OnOk result
        (PrintsLine status.now (S.state shelf.old) (S.state shelf.new)) }
    ensures steady { OnOk result (IsSteady (S.state shelf.old) (S.state shelf.new)) }
    ensures none { OnErr result ((S.state shelf.new).told.printed ≡ (S.state shelf.old).told.printed) }
    ensures calm { OnErr result (KeepsCounts (S.state shelf.old).faults (S.state shelf.new).faults) }
    ensures rest { KeepsButPrinted (S.state shelf.old).told (S.state shelf.new).told }
    ensures counts { NoCountFalls (S.state shelf.old).faults (S.state shelf.new).faults }
{
    let text = refusal_line(alloc, status)?;
    let _ = shelf.print(&text);
    Ok(())
}
