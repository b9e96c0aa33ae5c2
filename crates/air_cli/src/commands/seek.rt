//! The command `seek`: where an item is found on a named indexed tape, from a record on.
//!
//! The tape is read in pieces, and each record is heard once (`tapes`). Nothing is printed here: the line is delivered at the end.

ghost use Rattle.std.specs.Prelude.{◌≡◌, IfErr, IfOk};
ghost use Rattle.air_cli.specs.Private.BeforeDelivery.{IsMade, IsUnmade, ReadsInputs};
ghost use Rattle.air_cli.specs.Seek.{seek_meaning, sought_line};

use crate::outputs::lines::line_text;
use crate::outputs::report_and_tape::ReportAndTape;
use crate::tapes::searches::file_sought;
use air_base::NoMemory;
use air_devices::Shelf;
use air_index::Sought;
use air_report::Status;
use std::alloc::Global;
use std::thread::Threads;

/// The line of a search on the named tape for an item, from a record on.
#[tactic(auto, using(crate::proofs::MakeLemmas::is_unmade, crate::proofs::MakeLemmas::wanting))]
pub(crate) fn seek<T: Threads + Sync, S: Shelf>(
    threads: &T,
    alloc: Global,
    shelf: &mut S,
    tape: &str,
    item: u16,
    from: u32,
) -> Result<ReportAndTape, Status>
    ensures made { IfOk result (IsMade (seek_meaning tape.now item from) (S.state shelf.old) (S.state shelf.new)) }
    ensures unmade { IfErr result (IsUnmade (seek_meaning tape.now item from) (S.state shelf.old) (S.state shelf.new)) }
    ensures reads { ReadsInputs (seek_meaning tape.now item from) (S.state shelf.old) (S.state shelf.new) }
{
    let answer = file_sought(threads, alloc, shelf, tape, item, from)?;
    let text = sought_text(alloc, item, answer)?;
    Ok(ReportAndTape {
        text,
        tape: None,
        differs: false,
    })
}

/// The line of this result of a search for an item.
fn sought_text(alloc: Global, item: u16, answer: Sought) -> Result<Vec<u8>, NoMemory>
    ensures { IfOk result (λ text. text.items ≡ sought_line item answer) }
{
    match answer {
        Sought::Found {
            opens,
            place,
            cycle,
            value,
        } => {
            let (item, opens, cycle) = (u64::from(item), u64::from(opens), u64::from(cycle));
            line_text(alloc, b"found", &[item, opens, place, cycle, value])
        }
        Sought::Lost { opens } => {
            line_text(alloc, b"lost", &[u64::from(item), u64::from(opens)])
        }
    }
}
