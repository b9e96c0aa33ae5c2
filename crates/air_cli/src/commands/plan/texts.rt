//! The text of a plan: the rows of the deck's own disks, then for each replan its row and those of its disks.

ghost use Rattle.std.specs.Prelude.{◌≡◌, ◌<◌, ◌+◌, ◌++◌, length, slice_get, IfOk, IfSome, OnOk};
ghost use Rattle.std.specs.List.{enumerate_from, flat_map};
ghost use Rattle.air_model.specs.Decks.{rates_in};
ghost use Rattle.air_model.specs.PlanTexts.{replan_rows};
ghost use Rattle.air_model.specs.Outputs.{plan_output};
ghost use Rattle.air_model.specs.Rows.{rows_text};
ghost use Rattle.air_report.specs.RowWriters.{IsRowWriter, written_text};

use crate::commands::plan::rows::put_edition;
use air_base::NoMemory;
use air_report::{add_numbers, finish, row_writer};
use chunk_program::Planned;
use csv::Writer;
use std::alloc::Global;

/// The text of the plan of a deck.
pub(crate) fn plan_text(alloc: Global, planned: &Planned) -> Result<Vec<u8>, NoMemory>
    ensures { IfOk result (λ text. text.items ≡ plan_output planned.now) }
{
    let mut wtr = row_writer(Vec::new(alloc));
    put_edition(alloc, &mut wtr, planned, 0)?;
    put_replans(alloc, &mut wtr, planned)?;
    let text = finish(wtr)?;
    Ok(text)
}

/// Adds the rows of the replans.
fn put_replans(alloc: Global, wtr: &mut Writer<Vec<u8>>, planned: &Planned) -> Result<(), NoMemory>
    requires { IsRowWriter wtr.old }
    ensures ready { OnOk result (IsRowWriter wtr.new) }
    ensures text { OnOk result (written_text wtr.new
        ≡ written_text wtr.old ++ rows_text (flat_map (replan_rows (rates_in planned.now)) (enumerate_from 1 planned.now.replans))) }
{
    let deck = planned.deck();
    for k in 0..deck.replans() {
        put_replan(alloc, wtr, planned, k)?;
    }
    Ok(())
}

/// Adds the row of a replan, and those of its disks.
fn put_replan(
    alloc: Global,
    wtr: &mut Writer<Vec<u8>>,
    planned: &Planned,
    k: u32,
) -> Result<(), NoMemory>
    requires ready { IsRowWriter wtr.old }
    requires replan { k < length planned.now.replans }
    ensures ready { OnOk result (IsRowWriter wtr.new) }
    ensures text { OnOk result (IfSome (slice_get planned.now.replans k) (λ replan.
        written_text wtr.new ≡ written_text wtr.old ++ rows_text (replan_rows (rates_in planned.now) (k + 1, replan)))) }
{
    let deck = planned.deck();
    let edition = k + 1;
    let ns = [u64::from(edition), u64::from(deck.replan(k).cycle())];
    add_numbers(alloc, wtr, b"replan", &ns)?;
    put_edition(alloc, wtr, planned, edition)?;
    Ok(())
}
