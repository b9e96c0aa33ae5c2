//! These pins say what `outputs` of `air_cli` prints and writes for a tape of one byte and a text of two, over a shelf in memory. They also say when
//! it answers a fault of writing, and that a refusal leaves the outputs as they were and keeps its status.
#![tactic(auto, unfolding(air_cli::specs::Deliveries::Delivers))]

ghost use Rattle.std.specs.Prelude.{◌≡◌, ◌≢◌, ◌≤◌, [], ◌∷◌, None, Some, codes, option_map};
ghost use Rattle.air_devices.specs.Memory.{told_by};
ghost use Rattle.command_pins.specs.SmallReportsAndTapes.{small_report_and_tape};

use air_cli::{ReportAndTape, deliver, refuse};
use air_devices::MemShelf;
use air_report::Status;
use std::alloc::Global;

/// If something differs, the status says so, the named output holds exactly the tape, and the text was printed after what was printed before. No
/// other output changes. It also refuses that an output that was begun keeps what it held, a tape that is dropped or written twice, that an output is
/// written without a name, and that the two statuses are exchanged.
/// Promise: what each status leaves outside
/// Promise: script, drill and plan print their texts
/// Promise: the command prints the audit
pub fn begun_output_kept(
    shelf: &mut MemShelf,
    output: Option<&str>,
    given: &ReportAndTape,
) -> Status
    requires output { option_map (λ name. name.now) output ≡ Some (codes "t") }
    requires given { given.now ≡ small_report_and_tape }
    requires printed { (told_by shelf.old).printed ≡ Some (5 ∷ []) }
    ensures written { result ≡ Status.Differs → (told_by shelf.new).output (codes "t") ≡ Some (7 ∷ []) }
    ensures printed { result ≡ Status.Differs → (told_by shelf.new).printed ≡ Some (5 ∷ 1 ∷ 2 ∷ []) }
    ensures differs { result ≢ Status.Ok }
    ensures other { (told_by shelf.new).output [] ≡ (told_by shelf.old).output [] }
{
    deliver(shelf, output, given)
}

/// If no output is named, writing fails only if a print failed.
/// Promise: every answer is a named one
pub fn always_a_write_fault(
    shelf: &mut MemShelf,
    output: Option<&str>,
    given: &ReportAndTape,
) -> Status
    requires output { option_map (λ name. name.now) output ≡ None }
    requires given { given.now ≡ small_report_and_tape }
    requires faults { shelf.old.calls.faults ≡ 0 }
    ensures { result ≡ Status.WriteFault → 1 ≤ shelf.new.calls.faults }
{
    deliver(shelf, output, given)
}

/// A refusal leaves each output as it was.
/// Promise: what each status leaves outside
pub fn output_created_on_a_refusal(alloc: Global, shelf: &mut MemShelf) -> Status
    requires { (told_by shelf.old).output (codes "tape") ≡ Some (7 ∷ []) }
    ensures { (told_by shelf.new).output (codes "tape") ≡ Some (7 ∷ []) }
{
    refuse(alloc, shelf, Status::Words)
}

/// If a refusal's line isn't printed, or not whole, its status stays: no fault of writing is answered in its place.
/// Promise: a refusal leaves its objects
pub fn unprinted_line_told_as_a_write_fault(alloc: Global, shelf: &mut MemShelf) -> Status
    ensures { result ≢ Status.WriteFault }
{
    refuse(alloc, shelf, Status::ReadFault)
}
