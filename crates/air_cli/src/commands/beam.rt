//! The command `beam`: the script of a named deck, written as an indexed tape piece by piece.
//!
//! Each piece of the script is aired, beamed and added to the output, and no reader hears it. The line is made at the end, and then printed.

ghost use Rattle.std.specs.Prelude.{◌≡◌, IfErr, IfOk, OnOk, Some, count_by, length};
ghost use Rattle.air_base.specs.declared.limits.TheConstants.{MOST_TAPE_BYTES};
ghost use Rattle.air_index.specs.Indexes.{is_index};
ghost use Rattle.air_index.specs.IndexedTapes.{beam_tape_of};
ghost use Rattle.air_cli.specs.Answers.{Leaves, QuietAnswers};
ghost use Rattle.air_cli.specs.Beam.{beam_given, beam_line, beam_meaning, beam_records};
ghost use Rattle.air_cli.specs.Private.BeforeDelivery.{IsMade, IsUnmade, ReadsInputs};
ghost use Rattle.air_cli.specs.Private.OutputPieces.{IsStopped, IsWritten};

use crate::endings::refuse_unmade;
use crate::files::runnable::read_runnable_deck;
use crate::outputs::lines::line_text;
use crate::outputs::pieces::{NamedOutput, begin_output, print_written};
use air_base::NoMemory;
use air_base::limits::MOST_TAPE_BYTES;
use air_devices::Shelf;
use air_index::{beam_bytes, beam_counts};
use air_report::Status;
use air_sender::own_form;
use chunk_program::Planned;
use scripts::beam_script;
use std::alloc::Global;

/// Beams the script of the named deck to the output of this name, and prints the line; or refuses.
pub(crate) fn beam<S: Shelf>(alloc: Global, shelf: &mut S, name: &str, output: &str) -> Status
    ensures answers { QuietAnswers (beam_meaning name.now output.now) (S.state shelf.old) (S.state shelf.new) result }
    ensures leaves { Leaves (beam_meaning name.now output.now) (S.state shelf.old) (S.state shelf.new) }
{
    match read_beam(alloc, shelf, name, output) {
        Ok(planned) => {
            let written = beam_to_output(alloc, shelf, output, &planned);
            print_written(shelf, written)
        }
        Err(status) => refuse_unmade(alloc, shelf, status),
    }
}

/// The named deck with its plans, if its script can be beamed.
fn read_beam<S: Shelf>(
    alloc: Global,
    shelf: &mut S,
    name: &str,
    output: &str,
) -> Result<Planned, Status>
    ensures made { IfOk result (λ deck. IsMade (beam_meaning name.now output.now) (S.state shelf.old) (S.state shelf.new) (beam_given deck)) }
    ensures unmade { IfErr result (IsUnmade (beam_meaning name.now output.now) (S.state shelf.old) (S.state shelf.new)) }
    ensures reads { ReadsInputs (beam_meaning name.now output.now) (S.state shelf.old) (S.state shelf.new) }
{
    let planned = read_runnable_deck(alloc, shelf, name)?;
    let bytes = beam_len(&planned);
    if bytes > MOST_TAPE_BYTES as u64 {
        return Err(Status::TooLong { bytes });
    }
    Ok(planned)
}

/// The number of bytes of the indexed tape of a deck's script.
fn beam_len(planned: &Planned) -> u64
    ensures { result ≡ length (beam_tape_of planned.now) }
{
    let deck = planned.deck();
    let form = own_form(planned);
    beam_bytes(planned.plans(), deck.items(), deck.script_starts(), form)
}

/// Beams a deck's script to the output of this name: the text of the line.
fn beam_to_output<S: Shelf>(
    alloc: Global,
    shelf: &mut S,
    output: &str,
    planned: &Planned,
) -> Result<Vec<u8>, Status>
    ensures text { IfOk result (λ text. text.items ≡ beam_line planned.now) }
    ensures whole { OnOk result (IsWritten (Some output.now) (beam_tape_of planned.now) (S.state shelf.old) (S.state shelf.new)) }
    ensures stopped { IfErr result (IsStopped (Some output.now) (beam_tape_of planned.now) (S.state shelf.old) (S.state shelf.new)) }
{
    let Ok(()) = begin_output(shelf, Some(output)) else {
        return Err(Status::WriteFault);
    };
    let sink = NamedOutput { name: Some(output) };
    beam_script(alloc, planned, &sink, shelf)?;
    let text = beam_text(alloc, planned)?;
    Ok(text)
}

/// The line of a deck whose script was beamed.
fn beam_text(alloc: Global, planned: &Planned) -> Result<Vec<u8>, NoMemory>
    ensures { IfOk result (λ text. text.items ≡ beam_line planned.now) }
{
    let (records, indexes) = count_records(planned);
    let bytes = beam_len(planned);
    let text = line_text(alloc, b"beam", &[records, bytes, indexes])?;
    Ok(text)
}

/// The number of records of the indexed tape of a deck's script, and how many of them are index records.
fn count_records(planned: &Planned) -> (u64, u64)
    ensures records { result.0 ≡ length (beam_records planned.now) }
    ensures indexes { result.1 ≡ count_by is_index (beam_records planned.now) }
{
    beam_counts(planned.plans(), planned.deck().script_starts())
}
