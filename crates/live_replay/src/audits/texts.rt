//! The text of an audit's findings: a row for each, and one that counts them.

ghost use Rattle.std.specs.Prelude.{◌≡◌, ◌++◌, IfOk, OnOk, count_by, map};
ghost use Rattle.csv.specs.Writing.{row_text};
ghost use Rattle.air_model.specs.Rows.{row_writer, rows_text};
ghost use Rattle.air_report.specs.RowWriters.{IsRowWriter, written_text};
ghost use Rattle.live_replay.specs.FindingTexts.{cause_word, differs, finding_row, findings_text};

use crate::findings::{Cause, Finding};
use air_base::{NoMemory, write_u64};
use air_report::{finish, put_numbers, row_writer};
use csv::Writer;
use std::alloc::Global;

/// The text of findings.
pub fn findings_text(alloc: Global, found: &[Finding]) -> Result<Vec<u8>, NoMemory>
    ensures { IfOk result (λ text. text.items ≡ findings_text found.now) }
{
    let mut wtr = row_writer(Vec::new(alloc));
    put_findings(alloc, &mut wtr, found)?;
    let ns = [found.len() as u64, differing_count(found)];
    let wtr = put_numbers(alloc, wtr, b"audited", &ns)?;
    let text = finish(wtr)?;
    Ok(text)
}

/// How many findings differ.
pub(crate) fn differing_count(found: &[Finding]) -> u64
    ensures { result ≡ count_by differs found.now }
{
    let mut count = 0;
    for finding in found {
        if finding.differs.is_some() {
            count += 1;
        }
    }
    count
}

/// Adds the rows of findings. The writer stays in its place: it has a buffer, so moving it costs more than a row.
fn put_findings(alloc: Global, wtr: &mut Writer<Vec<u8>>, found: &[Finding]) -> Result<(), NoMemory>
    requires { IsRowWriter wtr.old }
    ensures ready { OnOk result (IsRowWriter wtr.new) }
    ensures text { OnOk result (written_text wtr.new ≡ written_text wtr.old ++ rows_text (map finding_row found.now)) }
{
    for finding in found {
        put_finding(alloc, wtr, *finding)?;
    }
    Ok(())
}

/// Adds the row of a finding.
fn put_finding(alloc: Global, wtr: &mut Writer<Vec<u8>>, finding: Finding) -> Result<(), NoMemory>
    requires { IsRowWriter wtr.old }
    ensures ready { OnOk result (IsRowWriter wtr.new) }
    ensures text { OnOk result (written_text wtr.new ≡ written_text wtr.old ++ row_text row_writer (finding_row finding)) }
{
    let mut row = Vec::new(alloc);
    write_u64(u64::from(finding.row), &mut row)?;
    match finding.differs {
        None => add_row(wtr, &[b"agrees".as_slice(), row.as_slice()]),
        Some(cause) => add_row(
            wtr,
            &[b"differs".as_slice(), row.as_slice(), cause_word(cause)],
        ),
    }
}

/// Adds the row of these fields.
fn add_row<'a>(wtr: &mut Writer<Vec<u8>>, fields: &[&'a [u8]]) -> Result<(), NoMemory>
    requires { IsRowWriter wtr.old }
    ensures ready { OnOk result (IsRowWriter wtr.new) }
    ensures text { OnOk result
        (written_text wtr.new ≡ written_text wtr.old ++ row_text row_writer (map (λ f. f.now) fields.now)) }
{
    wtr.write_fields(fields).map_err(|_| NoMemory)
}

/// The word of a cause.
fn cause_word(cause: Cause) -> &'static [u8]
    ensures { result.now ≡ cause_word cause }
{
    match cause {
        Cause::Value => b"value",
        Cause::Verdict => b"verdict",
        Cause::Clash => b"clash",
        Cause::Total => b"total",
    }
}
