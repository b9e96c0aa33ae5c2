//! The sections of a report: each call adds the rows of its lines after those already written.

ghost use Rattle.std.specs.Prelude.{◌≡◌, ◌++◌, OnOk, map};
ghost use Rattle.air_model.specs.Reports.{counts_row, event_row, look_row, verdict_row};
ghost use Rattle.air_model.specs.Rows.{rows_text};
ghost use Rattle.air_report.specs.RowWriters.{IsRowWriter, written_text};

use crate::writing::rows::{put_counts, put_event, put_look, put_verdict};
use air_base::NoMemory;
use air_history::Event;
use air_model::reports::{CountsLine, LookLine, VerdictLine};
use csv::Writer;
use std::alloc::Global;

/// Adds the rows of a history.
pub(crate) fn put_history(
    alloc: Global,
    wtr: &mut Writer<Vec<u8>>,
    events: &[Event],
) -> Result<(), NoMemory>
    requires { IsRowWriter wtr.old }
    ensures ready { OnOk result (IsRowWriter wtr.new) }
    ensures text { OnOk result
        (written_text wtr.new ≡ written_text wtr.old ++ rows_text (map event_row events.now)) }
{
    for event in events {
        put_event(alloc, wtr, event)?;
    }
    Ok(())
}

/// Adds the rows of verdicts.
pub(crate) fn put_verdicts(
    alloc: Global,
    wtr: &mut Writer<Vec<u8>>,
    lines: &[VerdictLine],
) -> Result<(), NoMemory>
    requires { IsRowWriter wtr.old }
    ensures ready { OnOk result (IsRowWriter wtr.new) }
    ensures text { OnOk result
        (written_text wtr.new ≡ written_text wtr.old ++ rows_text (map verdict_row lines.now)) }
{
    for line in lines {
        put_verdict(alloc, wtr, line)?;
    }
    Ok(())
}

/// Adds the rows of counts.
pub(crate) fn put_all_counts(
    alloc: Global,
    wtr: &mut Writer<Vec<u8>>,
    lines: &[CountsLine],
) -> Result<(), NoMemory>
    requires { IsRowWriter wtr.old }
    ensures ready { OnOk result (IsRowWriter wtr.new) }
    ensures text { OnOk result
        (written_text wtr.new ≡ written_text wtr.old ++ rows_text (map counts_row lines.now)) }
{
    for line in lines {
        put_counts(alloc, wtr, line)?;
    }
    Ok(())
}

/// Adds the rows of what monitors saw.
pub(crate) fn put_looks(
    alloc: Global,
    wtr: &mut Writer<Vec<u8>>,
    tag: &[u8],
    lines: &[LookLine],
) -> Result<(), NoMemory>
    requires { IsRowWriter wtr.old }
    ensures ready { OnOk result (IsRowWriter wtr.new) }
    ensures text { OnOk result
        (written_text wtr.new ≡ written_text wtr.old ++ rows_text (map (look_row tag.now) lines.now)) }
{
    for line in lines {
        put_look(alloc, wtr, tag, line)?;
    }
    Ok(())
}
