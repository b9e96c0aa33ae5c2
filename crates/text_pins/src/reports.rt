//! These pins fix what `write_report` writes for small reports, whose numbers differ wherever a text could exchange them. They
//! also fix how `row_writer` sets up a writer, and how `refusal_line` gives a refusal by its number and its line.

ghost use Rattle.std.specs.Prelude.{◌≡◌, ◌++◌, [], codes, true, IfOk, OnOk};
ghost use Rattle.csv.specs.Writing.{default_writer, with_flexible, writer_setup};
ghost use Rattle.text_pins.specs.SmallReports.{of_a_glance_and_a_look, of_a_start, of_an_abort, of_an_aged_attempt, of_counts, of_two_events, with_newline};

use air_base::NoMemory;
use air_report::{Report, Status, refusal_line, row_writer, write_report};
use csv::Writer;
use std::alloc::Global;

/// Rows may have lengths of their own.
/// Promise: script, drill and plan print their texts
pub fn rows_of_one_length(text: Vec<u8>) -> Writer<Vec<u8>>
    ensures { writer_setup result ≡ with_flexible default_writer true }
{
    row_writer(text)
}

/// A commit's row has its updater before its number. It also refuses that a start has no row.
/// Promise: script, drill and plan print their texts
#[tactic(auto, using(crate::proofs::ReportLemmas::text_of_two_events))]
pub fn by_and_seq_swapped(alloc: Global, report: &Report, out: &mut Vec<u8>) -> Result<(), NoMemory>
    requires report { report.now ≡ of_two_events }
    requires out { out.old.items ≡ [] }
    ensures { OnOk result (out.new.items ≡ with_newline (codes "start") ++ with_newline (codes "commit,1,0")) }
{
    write_report(alloc, report, out)
}

/// A verdict's row has its reader, query and attempt, and then its reads. It also refuses that a read has its cycle for its
/// item, and that two spaces are between reads.
/// Promise: script, drill and plan print their texts
#[tactic(auto, using(crate::proofs::ReportLemmas::text_of_an_abort))]
pub fn attempt_told_as_query(
    alloc: Global,
    report: &Report,
    out: &mut Vec<u8>,
) -> Result<(), NoMemory>
    requires report { report.now ≡ of_an_abort }
    requires out { out.old.items ≡ [] }
    ensures { OnOk result (out.new.items ≡ with_newline (codes "abort,0,1,2,3@4=9 7@4=8,5@6,7")) }
{
    write_report(alloc, report, out)
}

/// The row of an aged attempt has a tag of its own, and ends with the refused read: it names no clash.
/// Promise: script, drill and plan print their texts
#[tactic(auto, using(crate::proofs::ReportLemmas::text_of_an_aged_attempt))]
pub fn aged_told_as_an_abort(
    alloc: Global,
    report: &Report,
    out: &mut Vec<u8>,
) -> Result<(), NoMemory>
    requires report { report.now ≡ of_an_aged_attempt }
    requires out { out.old.items ≡ [] }
    ensures { OnOk result (out.new.items ≡ with_newline (codes "aged,0,1,2,3@4=9 7@4=8,5@6")) }
{
    write_report(alloc, report, out)
}

/// Counts are in this order: opened, dozed, late, refused, foreign and copied.
/// Promise: script, drill and plan print their texts
#[tactic(auto, using(crate::proofs::ReportLemmas::text_of_counts))]
pub fn refused_told_as_late(
    alloc: Global,
    report: &Report,
    out: &mut Vec<u8>,
) -> Result<(), NoMemory>
    requires report { report.now ≡ of_counts }
    requires out { out.old.items ≡ [] }
    ensures { OnOk result (out.new.items ≡ with_newline (codes "counts,0,1,2,3,4,5,6")) }
{
    write_report(alloc, report, out)
}

/// What was seen during the run is written as a glance, and what was seen at its end as a look. It refuses that the report's
/// writer or the row's writer exchanges them.
/// Promise: script, drill and plan print their texts
#[tactic(auto, using(crate::proofs::ReportLemmas::text_of_a_glance_and_a_look))]
pub fn glances_written_as_looks(
    alloc: Global,
    report: &Report,
    out: &mut Vec<u8>,
) -> Result<(), NoMemory>
    requires report { report.now ≡ of_a_glance_and_a_look }
    requires out { out.old.items ≡ [] }
    ensures { OnOk result (out.new.items ≡ with_newline (codes "glance,0,1,30") ++ with_newline (codes "look,0,2,31")) }
{
    write_report(alloc, report, out)
}

/// A report is added after the text that is there.
/// Promise: script, drill and plan print their texts
#[tactic(auto, using(crate::proofs::ReportLemmas::text_of_a_start))]
pub fn report_in_place_of_the_text(
    alloc: Global,
    report: &Report,
    out: &mut Vec<u8>,
) -> Result<(), NoMemory>
    requires report { report.now ≡ of_a_start }
    requires out { out.old.items ≡ with_newline (codes "ok") }
    ensures { OnOk result (out.new.items ≡ with_newline (codes "ok") ++ with_newline (codes "start")) }
{
    write_report(alloc, report, out)
}

/// The line of a cut tape has the number 6, and names the byte.
/// Promise: what each status leaves outside
#[tactic(auto, unfolding(air_model::specs::Rows::rows_text, air_base::specs::Numbers::number_text, csv::specs::Writing::fields_text, csv::specs::Writing::is_blank))]
pub fn cut_told_as_too_large(alloc: Global, status: &Status) -> Result<Vec<u8>, NoMemory>
    requires { status.now ≡ Status.TapeCut 36 }
    ensures { IfOk result (λ text. text.items ≡ with_newline (codes "fault,6,36")) }
{
    refusal_line(alloc, status)
}

/// A fault in writing has the number 4.
/// Promise: every answer is a named one
pub fn number_of_a_read_fault(status: &Status) -> u8
    requires { status.now ≡ Status.WriteFault }
    ensures { result ≡ 4 }
{
    status.code()
}
