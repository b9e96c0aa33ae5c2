//! Cases of reports read from texts: their lines and rows, or the fault of the text.
//!
//! `report` adds only that the text is a report, `lines` its lines section by section, `rows` the rows of its lines and the text that is written of
//! it. The audits of a report are in `audits`.

ghost use Rattle.std.specs.Prelude.{◌≤◌, length};
ghost use Rattle.air_report.specs.declared.reading.limits.TheConstants.{MOST_REPORT_BYTES};

use crate::audits::add_audit;
use crate::lines::{add_counts, add_events, add_looks, add_verdicts};
use crate::texts::tell;
use air_base::NoMemory;
use air_report::reading::limits::MOST_REPORT_BYTES;
use air_report::{ReadReport, ReportError, read_lines, read_report, write_report};
use case_lines::{add_entries, add_line};
use item_catalog::Deck;
use std::alloc::Global;

/// Adds the fault of a text that is no report.
fn add_fault(error: ReportError, came: &mut Vec<u8>) -> Result<(), NoMemory> {
    match error {
        ReportError::Fault { row, kind } => {
            add_line(b"fault", &[u64::from(row), u64::from(kind)], came)
        }
        ReportError::NoMemory => Err(NoMemory),
    }
}

/// Adds the lines of a text, section by section.
fn add_lines(alloc: Global, deck: &Deck, text: &[u8], came: &mut Vec<u8>) -> Result<(), NoMemory>
    requires { length text.now ≤ MOST_REPORT_BYTES }
{
    match read_lines(alloc, deck, text) {
        Ok(lines) => {
            add_events(&lines.events, came)?;
            add_verdicts(&lines.verdicts, came)?;
            add_counts(&lines.counts, came)?;
            add_looks(b"glance", &lines.glances, came)?;
            add_looks(b"look", &lines.looks, came)
        }
        Err(error) => add_fault(error, came),
    }
}

/// Adds the rows of a report's lines, and the text that is written of it.
fn add_rows(alloc: Global, read: &ReadReport, came: &mut Vec<u8>) -> Result<(), NoMemory> {
    add_entries(b"verdicts", read.verdict_rows.as_slice(), came)?;
    add_entries(b"glances", read.glance_rows.as_slice(), came)?;
    add_entries(b"looks", read.look_rows.as_slice(), came)?;
    let mut text = Vec::new(alloc);
    write_report(alloc, &read.report, &mut text)?;
    tell(&text, came)
}

/// Reads the text as a report of the deck, and adds what the word asks for.
pub fn ask(
    alloc: Global,
    deck: &Deck,
    word: &[u8],
    text: &[u8],
    came: &mut Vec<u8>,
) -> Result<(), NoMemory> {
    if text.len() > MOST_REPORT_BYTES {
        return add_line(b"too long", &[], came);
    }
    if word == b"lines".as_slice() {
        return add_lines(alloc, deck, text, came);
    }
    match read_report(alloc, deck, text) {
        Ok(read) => match word {
            b"report" => add_line(b"report", &[], came),
            b"rows" => add_rows(alloc, &read, came),
            word => add_audit(alloc, deck, &read, word, came),
        },
        Err(error) => add_fault(error, came),
    }
}
