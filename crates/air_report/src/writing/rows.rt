//! The rows of a report, one a line, written field by field.

ghost use Rattle.std.specs.Prelude.{◌≡◌, ◌+◌, ◌<◌, ◌^◌, ◌++◌, ◌∷◌, [], ℕ, List, OnOk, length, map};
ghost use Rattle.csv.specs.Writing.{row_text};
ghost use Rattle.air_base.specs.Numbers.{number_text};
ghost use Rattle.air_base.specs.NumberLists.{list_text};
ghost use Rattle.air_model.specs.Reports.{attempt_row, counts_row, event_row, look_row, place_text, read_text, verdict_row};
ghost use Rattle.air_model.specs.Rows.{row_writer};
ghost use Rattle.air_report.specs.Private.BegunRows.{IsBegun};
ghost use Rattle.air_report.specs.RowWriters.{IsRowWriter, written_text};

use crate::writing::fields::{add_numbers, add_row, end_row, put_field};
use air_base::{NoMemory, ReadOf, VerdictKind, write_u64};
use air_history::Event;
use air_model::reports::{CountsLine, LookLine, VerdictLine};
use csv::Writer;
use std::alloc::Global;

/// Adds the row of an event.
pub(crate) fn put_event(
    alloc: Global,
    wtr: &mut Writer<Vec<u8>>,
    event: &Event,
) -> Result<(), NoMemory>
    requires { IsRowWriter wtr.old }
    ensures ready { OnOk result (IsRowWriter wtr.new) }
    ensures text { OnOk result
        (written_text wtr.new ≡ written_text wtr.old ++ row_text row_writer (event_row event.now)) }
{
    match event {
        Event::Commit { by, seq, .. } => {
            let ns = [u64::from(*by), u64::from(*seq)];
            add_numbers(alloc, wtr, b"commit", &ns)
        }
        Event::Start => add_row(wtr, &[b"start".as_slice()]),
    }
}

/// Adds the row of a reader's counts.
pub(crate) fn put_counts(
    alloc: Global,
    wtr: &mut Writer<Vec<u8>>,
    line: &CountsLine,
) -> Result<(), NoMemory>
    requires { IsRowWriter wtr.old }
    ensures ready { OnOk result (IsRowWriter wtr.new) }
    ensures text { OnOk result
        (written_text wtr.new ≡ written_text wtr.old ++ row_text row_writer (counts_row line.now)) }
{
    let counts = &line.counts;
    let ns = [
        u64::from(line.reader),
        counts.opened,
        counts.dozed,
        counts.late,
        counts.refused,
        counts.foreign,
        counts.copied,
    ];
    add_numbers(alloc, wtr, b"counts", &ns)
}

/// Adds the row of what a monitor saw.
pub(crate) fn put_look(
    alloc: Global,
    wtr: &mut Writer<Vec<u8>>,
    tag: &[u8],
    line: &LookLine,
) -> Result<(), NoMemory>
    requires { IsRowWriter wtr.old }
    ensures ready { OnOk result (IsRowWriter wtr.new) }
    ensures text { OnOk result
        (written_text wtr.new ≡ written_text wtr.old ++ row_text row_writer (look_row tag.now line.now)) }
{
    let ns = [u64::from(line.monitor), u64::from(line.cycle), line.total];
    add_numbers(alloc, wtr, tag, &ns)
}

/// Adds the row of a verdict.
pub(crate) fn put_verdict(
    alloc: Global,
    wtr: &mut Writer<Vec<u8>>,
    line: &VerdictLine,
) -> Result<(), NoMemory>
    requires { IsRowWriter wtr.old }
    ensures ready { OnOk result (IsRowWriter wtr.new) }
    ensures text { OnOk result
        (written_text wtr.new ≡ written_text wtr.old ++ row_text row_writer (verdict_row line.now)) }
{
    match line.verdict.kind {
        VerdictKind::Accept => put_attempt(alloc, wtr, b"accept", line)?,
        VerdictKind::Abort { item, cycle, clash } => {
            put_attempt(alloc, wtr, b"abort", line)?;
            put_clash(alloc, wtr, item, cycle, clash)?;
        }
        VerdictKind::Aged { item, cycle } => {
            put_attempt(alloc, wtr, b"aged", line)?;
            put_place(alloc, wtr, item, cycle)?;
        }
        VerdictKind::Unfinished => put_attempt(alloc, wtr, b"unfinished", line)?,
    }
    end_row(wtr)?;
    Ok(())
}

/// Begins the row of a verdict: its tag, the reader, the query, the attempt and the reads.
fn put_attempt(
    alloc: Global,
    wtr: &mut Writer<Vec<u8>>,
    tag: &[u8],
    line: &VerdictLine,
) -> Result<(), NoMemory>
    requires { IsRowWriter wtr.old }
    ensures { OnOk result (IsBegun (written_text wtr.old) (attempt_row tag.now line.now) wtr.new) }
{
    let mut text = Vec::new(alloc);
    put_field(wtr, tag)?;
    put_number(wtr, &mut text, u64::from(line.reader))?;
    put_number(wtr, &mut text, u64::from(line.verdict.query))?;
    put_number(wtr, &mut text, u64::from(line.verdict.attempt))?;
    text.clear();
    add_reads(line.reads.as_slice(), &mut text)?;
    put_field(wtr, &text)?;
    Ok(())
}

/// Adds the fields of a refused read and of the item with which it clashes.
fn put_clash(
    alloc: Global,
    wtr: &mut Writer<Vec<u8>>,
    item: u16,
    cycle: u32,
    clash: u16,
) -> Result<(), NoMemory>
    ensures { OnOk result ((before : List ℕ) (fields : List (List ℕ)) → length fields + 2 < 2 ^ 64
        → IsBegun before fields wtr.old → IsBegun before (fields ++ place_text item cycle ∷ number_text clash ∷ []) wtr.new) }
{
    put_place(alloc, wtr, item, cycle)?;
    let mut text = Vec::new(alloc);
    put_number(wtr, &mut text, u64::from(clash))
}

/// Adds the field of a refused read: its place on the air.
fn put_place(
    alloc: Global,
    wtr: &mut Writer<Vec<u8>>,
    item: u16,
    cycle: u32,
) -> Result<(), NoMemory>
    ensures { OnOk result ((before : List ℕ) (fields : List (List ℕ)) → length fields + 1 < 2 ^ 64
        → IsBegun before fields wtr.old → IsBegun before (fields ++ place_text item cycle ∷ []) wtr.new) }
{
    let mut text = Vec::new(alloc);
    add_place(item, cycle, &mut text)?;
    put_field(wtr, &text)
}

/// Adds the field of a number; `text` has room for its digits.
fn put_number(wtr: &mut Writer<Vec<u8>>, text: &mut Vec<u8>, n: u64) -> Result<(), NoMemory>
    ensures { OnOk result ((before : List ℕ) (fields : List (List ℕ)) → length fields + 1 < 2 ^ 64
        → IsBegun before fields wtr.old → IsBegun before (fields ++ number_text n ∷ []) wtr.new) }
{
    text.clear();
    write_u64(n, text)?;
    put_field(wtr, text)
}

/// Appends the text of a place on the air.
fn add_place(item: u16, cycle: u32, text: &mut Vec<u8>) -> Result<(), NoMemory>
    ensures { OnOk result (text.new.items ≡ text.old.items ++ place_text item cycle) }
{
    write_u64(u64::from(item), text)?;
    text.extend_from_slice(b"@")?;
    write_u64(u64::from(cycle), text)?;
    Ok(())
}

/// Appends the text of a read.
fn add_read(read: &ReadOf, text: &mut Vec<u8>) -> Result<(), NoMemory>
    ensures { OnOk result (text.new.items ≡ text.old.items ++ read_text read.now) }
{
    add_place(read.item, read.cycle, text)?;
    text.extend_from_slice(b"=")?;
    write_u64(read.value, text)?;
    Ok(())
}

/// Writes the text of reads into an empty text, separated by single spaces.
fn add_reads(reads: &[ReadOf], text: &mut Vec<u8>) -> Result<(), NoMemory>
    requires { text.old.items ≡ [] }
    ensures { OnOk result (text.new.items ≡ list_text (map read_text reads.now)) }
{
    for (i, read) in reads.iter().enumerate() {
        if i > 0 {
            text.extend_from_slice(b" ")?;
        }
        add_read(read, text)?;
    }
    Ok(())
}
