//! The command `tune`: what a named deck's readers hear of a named tape.
//!
//! The tape is read piece by piece, and all readers hear each piece side by side (`tapes`). Nothing is printed here, and no output is written: the
//! report is delivered at the end.

ghost use Rattle.std.specs.Prelude.{◌≡◌, ◌≤◌, length, None, IfErr, IfOk};
ghost use Rattle.air_base.specs.declared.limits.TheConstants.{MOST_TAPE_BYTES};
ghost use Rattle.air_model.specs.Outputs.{tune_output};
ghost use Rattle.air_model.specs.Tapes.{tape_read};
ghost use Rattle.air_cli.specs.HeardTapes.{UnheardCause};
ghost use Rattle.air_cli.specs.NamedFiles.{HasBytes, ReadsInput};
ghost use Rattle.air_cli.specs.Private.BeforeDelivery.{IsMade, IsUnmade, ReadsInputs};
ghost use Rattle.air_cli.specs.Tune.{tune_meaning};

use crate::commands::reports::heard_report;
use crate::files::runnable::read_runnable_deck;
use crate::outputs::report_and_tape::ReportAndTape;
use crate::tapes::file_sessions;
use crate::truths::shows_tape_truth;
use air_devices::Shelf;
use air_report::Status;
use chunk_program::Planned;
use std::alloc::Global;
use std::thread::Threads;

/// The report of a deck's readers over the named tape.
#[tactic(auto, unfolding(crate::specs::HeardTapes::UnheardCause, crate::specs::NamedFiles::UnreadCause))]
fn tape_report<T: Threads + Sync, S: Shelf>(
    threads: &T,
    alloc: Global,
    shelf: &mut S,
    tape: &str,
    planned: &Planned,
) -> Result<Vec<u8>, Status>
    ensures heard { IfOk result (λ text. HasBytes tape.now (S.state shelf.old) (λ bytes. (length bytes ≤ MOST_TAPE_BYTES) × ((tape_read bytes).cut ≡ None) × (text.items ≡ tune_output planned.now (tape_read bytes).records))) }
    ensures refused { IfErr result (UnheardCause tape.now MOST_TAPE_BYTES (S.state shelf.old) (S.state shelf.new)) }
    ensures reads { ReadsInput tape.now result (S.state shelf.old) (S.state shelf.new) }
{
    let sessions = file_sessions(threads, alloc, shelf, tape, planned)?;
    let text = heard_report(alloc, sessions)?;
    Ok(text)
}

/// The report of the named deck's readers over the named tape.
pub(crate) fn tune<T: Threads + Sync, S: Shelf>(
    threads: &T,
    alloc: Global,
    shelf: &mut S,
    name: &str,
    tape: &str,
) -> Result<ReportAndTape, Status>
    ensures made { IfOk result (IsMade (tune_meaning name.now tape.now) (S.state shelf.old) (S.state shelf.new)) }
    ensures unmade { IfErr result (IsUnmade (tune_meaning name.now tape.now) (S.state shelf.old) (S.state shelf.new)) }
    ensures reads { ReadsInputs (tune_meaning name.now tape.now) (S.state shelf.old) (S.state shelf.new) }
{
    let planned = read_runnable_deck(alloc, shelf, name)?;
    let text = tape_report(threads, alloc, shelf, tape, &planned)?;
    shows_tape_truth(&planned);
    Ok(ReportAndTape {
        text,
        tape: None,
        differs: false,
    })
}
