//! What a command made, written to its output and printed.

ghost use Rattle.std.specs.Prelude.{OnErr, OnOk, option_map};
ghost use Rattle.air_devices.specs.Counts.{NoCountFalls};
ghost use Rattle.air_cli.specs.Deliveries.{Delivers, KeepsButDelivered};
ghost use Rattle.air_cli.specs.Private.OutputPieces.{IsCutOff, IsWritten};

pub(crate) mod lines;
pub(crate) mod pieces;
pub(crate) mod refusals;
pub(crate) mod report_and_tape;

use crate::outputs::pieces::{append_piece, begin_output};
use crate::outputs::report_and_tape::ReportAndTape;
use air_devices::{Failed, Shelf};
use air_report::Status;

/// Writes the tape to the output of this name, if one is named, and then prints the text. If both succeed, the status says whether the text says that
/// something differs.
pub fn deliver<S: Shelf>(shelf: &mut S, output: Option<&str>, given: &ReportAndTape) -> Status
    ensures gives { Delivers (option_map (λ name. name.now) output.entry) given.now (S.state shelf.old) (S.state shelf.new) result }
    ensures rest { KeepsButDelivered (option_map (λ name. name.now) output.entry) (S.state shelf.old).told (S.state shelf.new).told }
    ensures counts { NoCountFalls (S.state shelf.old).faults (S.state shelf.new).faults }
{
    match write_tape(shelf, output, given.tape()) {
        Ok(()) => match shelf.print(given.text()) {
            Ok(()) => given.status(),
            Err(_) => Status::WriteFault,
        },
        Err(_) => Status::WriteFault,
    }
}

/// Writes the tape to the output of this name, if one is named.
fn write_tape<S: Shelf>(shelf: &mut S, output: Option<&str>, tape: &[u8]) -> Result<(), Failed>
    ensures whole { OnOk result (IsWritten (option_map (λ name. name.now) output.entry) tape.now (S.state shelf.old) (S.state shelf.new)) }
    ensures cut { OnErr result (IsCutOff (option_map (λ name. name.now) output.entry) tape.now (S.state shelf.old) (S.state shelf.new)) }
{
    begin_output(shelf, output)?;
    append_piece(shelf, output, tape)?;
    Ok(())
}
