//! The command `script`: the script of a named deck on the air, piece by piece.
//!
//! Every reader hears the cycles of a piece, it is added to the output, and the next piece follows. If no output is named, the readers hear
//! the script without its tape. The report is made at the end, and then printed.

ghost use Rattle.std.specs.Prelude.{◌≡◌, ◌≤◌, IfErr, IfOk, None, OnOk, length, option_map};
ghost use Rattle.air_base.specs.declared.limits.TheConstants.{MOST_TAPE_BYTES};
ghost use Rattle.air_model.specs.Outputs.{script_output, script_tape};
ghost use Rattle.air_cli.specs.Private.OutputPieces.{IsStopped, IsWritten};
ghost use Rattle.air_cli.specs.Answers.{Leaves, QuietAnswers};
ghost use Rattle.air_cli.specs.Script.{script_meaning};
ghost use Rattle.air_cli.specs.Private.BeforeDelivery.{IsMade, IsUnmade, ReadsInputs};
ghost use Rattle.air_cli.specs.Private.GivenTexts.{script_given};

use crate::commands::reports::script_report;
use crate::endings::refuse_unmade;
use crate::files::runnable::read_runnable_deck;
use crate::outputs::pieces::{NamedOutput, begin_output, print_written};
use crate::truths::shows_script_truth;
use air_base::NoMemory;
use air_base::limits::MOST_TAPE_BYTES;
use air_devices::Shelf;
use air_report::Status;
use air_sender::tape_len;
use chunk_program::Planned;
use scripts::{air_script, hear_script};
use std::alloc::Global;

/// Airs the script of the named deck, writes its tape to the output of this name, if one is named, and prints the report; or refuses.
pub(crate) fn script<S: Shelf>(
    alloc: Global,
    shelf: &mut S,
    name: &str,
    output: Option<&str>,
) -> Status
    ensures answers { QuietAnswers (script_meaning name.now (option_map (λ name. name.now) output.entry)) (S.state shelf.old) (S.state shelf.new) result }
    ensures leaves { Leaves (script_meaning name.now (option_map (λ name. name.now) output.entry)) (S.state shelf.old) (S.state shelf.new) }
{
    match read_script(alloc, shelf, name) {
        Ok(planned) => {
            let written = air_to_output(alloc, shelf, output, &planned);
            print_written(shelf, written)
        }
        Err(status) => refuse_unmade(alloc, shelf, status),
    }
}

/// Reads and plans the named deck; refuses an overlong tape.
fn read_script<S: Shelf>(alloc: Global, shelf: &mut S, name: &str) -> Result<Planned, Status>
    ensures few { IfOk result (λ deck. length (script_tape deck) ≤ MOST_TAPE_BYTES) }
    ensures made { IfOk result (λ deck. IsMade (script_meaning name.now None) (S.state shelf.old) (S.state shelf.new) (script_given deck)) }
    ensures unmade { IfErr result (IsUnmade (script_meaning name.now None) (S.state shelf.old) (S.state shelf.new)) }
    ensures reads { ReadsInputs (script_meaning name.now None) (S.state shelf.old) (S.state shelf.new) }
{
    let planned = read_runnable_deck(alloc, shelf, name)?;
    let bytes = tape_len(&planned);
    if bytes > MOST_TAPE_BYTES as u64 {
        return Err(Status::TooLong { bytes });
    }
    shows_script_truth(&planned);
    Ok(planned)
}

/// Airs a deck's script, writes its tape to the output of this name, if one is named, and returns the text of the report.
fn air_to_output<S: Shelf>(
    alloc: Global,
    shelf: &mut S,
    output: Option<&str>,
    planned: &Planned,
) -> Result<Vec<u8>, Status>
    requires { length (script_tape planned.now) ≤ MOST_TAPE_BYTES }
    ensures text { IfOk result (λ text. text.items ≡ script_output planned.now) }
    ensures whole { OnOk result (IsWritten (option_map (λ name. name.now) output.entry) (script_tape planned.now) (S.state shelf.old) (S.state shelf.new)) }
    ensures stopped { IfErr result (IsStopped (option_map (λ name. name.now) output.entry) (script_tape planned.now) (S.state shelf.old) (S.state shelf.new)) }
{
    let Ok(()) = begin_output(shelf, output) else {
        return Err(Status::WriteFault);
    };
    if output.is_none() {
        let text = hear_to_text(alloc, planned)?;
        return Ok(text);
    }
    let sink = NamedOutput { name: output };
    let aired = air_script(alloc, planned, &sink, shelf)?;
    let text = script_report(alloc, planned, aired)?;
    Ok(text)
}

/// Returns the text of the report of a deck's script, whose tape goes nowhere: few buckets are encoded that no reader opens.
fn hear_to_text(alloc: Global, planned: &Planned) -> Result<Vec<u8>, NoMemory>
    requires { length (script_tape planned.now) ≤ MOST_TAPE_BYTES }
    ensures { IfOk result (λ text. text.items ≡ script_output planned.now) }
{
    let aired = hear_script(alloc, planned)?;
    let text = script_report(alloc, planned, aired)?;
    Ok(text)
}
