//! A report, and its text.

ghost use Rattle.std.specs.Prelude.{◌≡◌, ◌++◌, IfOk, OnErr, OnOk};
ghost use Rattle.air_model.specs.Reports.{report_text};

use crate::writing::fields::{finish, row_writer};
use crate::writing::sections::{put_all_counts, put_history, put_looks, put_verdicts};
use air_base::NoMemory;
use air_history::History;
use air_model::reports::{CountsLine, LookLine, VerdictLine};
use std::alloc::Global;
use std::marker::Model;

/// The sections of a report, each in the order of its rows.
#[derive(Debug, Drop)]
pub struct Report {
    pub history: History,
    pub verdicts: Vec<VerdictLine>,
    pub counts: Vec<CountsLine>,
    pub glances: Vec<LookLine>,
    pub looks: Vec<LookLine>,
}

impl Model for Report {
    ghost use Rattle.air_model.specs.Reports.{Report};

    ghost Value = { Report };

    ghost view = { λ r. record { history = r.history; verdicts = r.verdicts.items; counts = r.counts.items; glances = r.glances.items; looks = r.looks.items } };
}

/// Appends the text of a report. Out of memory, it leaves `out` as it was.
pub fn write_report(alloc: Global, report: &Report, out: &mut Vec<u8>) -> Result<(), NoMemory>
    ensures text { OnOk result (out.new.items ≡ out.old.items ++ report_text report.now) }
    ensures kept { OnErr result (out.new.items ≡ out.old.items) }
{
    let mut text = text_of(alloc, report)?;
    if out.is_empty() {
        *out = text;
    } else {
        out.append(&mut text)?;
    }
    Ok(())
}

/// The text of a report.
fn text_of(alloc: Global, report: &Report) -> Result<Vec<u8>, NoMemory>
    ensures { IfOk result (λ text. text.items ≡ report_text report.now) }
{
    let mut wtr = row_writer(Vec::new(alloc));
    put_history(alloc, &mut wtr, report.history.events())?;
    put_verdicts(alloc, &mut wtr, &report.verdicts)?;
    put_all_counts(alloc, &mut wtr, &report.counts)?;
    put_looks(alloc, &mut wtr, b"glance", &report.glances)?;
    put_looks(alloc, &mut wtr, b"look", &report.looks)?;
    let text = finish(wtr)?;
    Ok(text)
}
