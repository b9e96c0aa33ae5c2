//! Reports read from texts, with the row numbers of their lines.

ghost use Rattle.std.specs.Prelude.{◌≡◌, ◌+◌, ◌≤◌, ◌^◌, length, IfErr, IfOk};
ghost use Rattle.std.specs.List.{range_with_len};
ghost use Rattle.air_report.specs.declared.reading.limits.TheConstants.{MOST_REPORT_BYTES};
ghost use Rattle.air_report.specs.LineGrammar.{SpellsLines};
ghost use Rattle.air_report.specs.ReportGrammar.{IsReportAnswer};
ghost use Rattle.air_report.specs.ReadReports.{IsReportOf};
ghost use Rattle.air_report.specs.KeptReports.{KeepsGrammar};
ghost use Rattle.air_report.specs.Private.ReportsOfLines.{IsMadeOf};

pub(crate) mod draft;
pub(crate) mod events;
pub mod faults;
pub(crate) mod kinds;
pub mod limits;
pub mod lines;
pub(crate) mod parsing;
pub(crate) mod reads;
pub(crate) mod rules;
pub mod sections;
pub(crate) mod tags;
pub(crate) mod texts;

use crate::reading::events::events_in;
use crate::reading::faults::ReportError;
use crate::reading::sections::ReadLines;
use crate::reading::texts::read_lines;
use crate::writing::report::Report;
use air_base::{NoMemory, Rows};
use air_history::History;
use item_catalog::Deck;
use std::alloc::Global;

/// A report that was read, and the row number of each of its verdict, glance and look lines, counted from 1.
#[derive(Debug, Drop)]
pub struct ReadReport {
    pub report: Report,
    pub verdict_rows: Rows,
    pub glance_rows: Rows,
    pub look_rows: Rows,
}

/// The deck's report that a text spells, or the row number of the first faulty record with the least kind that applies to it.
pub fn read_report(alloc: Global, deck: &Deck, bytes: &[u8]) -> Result<ReadReport, ReportError>
    requires limit { length bytes.now ≤ MOST_REPORT_BYTES }
    ensures report { IfOk result (IsReportOf deck.now bytes.now) }
    ensures kept { IfOk result (KeepsGrammar deck.now) }
    ensures fault { IfErr result (IsReportAnswer deck.now bytes.now) }
{
    let lines = read_lines(alloc, deck, bytes)?;
    let report = report_of(alloc, deck, bytes, lines)?;
    Ok(report)
}

/// The report that lines stand for, and the row numbers of its verdict, glance and look lines.
fn report_of(
    alloc: Global,
    deck: &Deck,
    bytes: &[u8],
    lines: ReadLines,
) -> Result<ReadReport, NoMemory>
    requires limit { length bytes.now ≤ MOST_REPORT_BYTES }
    requires spelled { SpellsLines deck.now bytes.now lines }
    ensures { IfOk result (IsMadeOf deck.now lines) }
{
    let ReadLines {
        events,
        verdicts,
        counts,
        glances,
        looks,
    } = lines;
    let verdict_row = 1 + events.len() as u32;
    let glance_row = verdict_row + verdicts.len() as u32 + counts.len() as u32;
    let look_row = glance_row + glances.len() as u32;
    let verdict_rows = rows_from(alloc, verdict_row, verdicts.len())?;
    let glance_rows = rows_from(alloc, glance_row, glances.len())?;
    let look_rows = rows_from(alloc, look_row, looks.len())?;
    let history = History::from_events(events_in(alloc, deck, &events)?);
    Ok(ReadReport {
        report: Report {
            history,
            verdicts,
            counts,
            glances,
            looks,
        },
        verdict_rows,
        glance_rows,
        look_rows,
    })
}

/// `count` consecutive row numbers, from `first` on.
fn rows_from(alloc: Global, first: u32, count: usize) -> Result<Rows, NoMemory>
    requires { first + count ≤ 2 ^ 31 }
    ensures { IfOk result (λ rows. rows ≡ range_with_len first count) }
{
    let mut rows = Vec::with_capacity(alloc, count)?;
    for place in 0..count {
        rows.push(first + place as u32)?;
    }
    Ok(Rows::from_vec(rows))
}
