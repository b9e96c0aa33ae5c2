//! The lines of reports read from texts: one walk over the records, each dropped once its line is read.

ghost use Rattle.std.specs.Prelude.{◌≤◌, length, IfErr, IfOk};
ghost use Rattle.air_report.specs.declared.reading.limits.TheConstants.{MOST_REPORT_BYTES};
ghost use Rattle.air_report.specs.LineGrammar.{SpellsLines};
ghost use Rattle.air_report.specs.ReportGrammar.{IsReportAnswer};

use crate::reading::draft::ReportDraft;
use crate::reading::faults::ReportError;
use crate::reading::sections::ReadLines;
use csv::ByteRecord;
use item_catalog::{Deck, Records, Refusal};
use std::alloc::Global;

/// The lines of the deck's report that a text spells, or the row number of the first faulty record with the least kind that applies to it.
pub fn read_lines(alloc: Global, deck: &Deck, bytes: &[u8]) -> Result<ReadLines, ReportError>
    requires limit { length bytes.now ≤ MOST_REPORT_BYTES }
    ensures lines { IfOk result (SpellsLines deck.now bytes.now) }
    ensures fault { IfErr result (IsReportAnswer deck.now bytes.now) }
{
    let mut draft = ReportDraft::new(alloc);
    let mut records = Records::new(alloc, bytes);
    let mut record = ByteRecord::new(alloc);
    for row in 1..u32::MAX {
        if !records.next(&mut record)? {
            return Ok(draft.into_lines());
        }
        match draft.add(alloc, deck, &record) {
            Ok(()) => {}
            Err(Refusal::Kind(kind)) => return Err(ReportError::at(row, kind)),
            Err(Refusal::NoMemory) => return Err(ReportError::NoMemory),
        }
    }
    unreachable!()
}
