//! Rows written as CSV after a text: those of reports, plans and fault lines.
//!
//! A writer is ready between two rows. `add_row` and `add_numbers` add a row, and the calls that write part of a row add that. Their contracts say
//! nothing of the writer once they are out of memory: the caller then drops it. `put_numbers` takes a writer and returns it with one row more; out of
//! memory it drops it, with its text. `finish` returns the text of all rows.

ghost use Rattle.std.specs.Prelude.{◌≡◌, ◌+◌, ◌<◌, ◌^◌, ◌++◌, ◌∷◌, [], ℕ, List, IfOk, OnOk, length, map};
ghost use Rattle.csv.specs.Writing.{row_text};
ghost use Rattle.air_base.specs.Numbers.{number_text};
ghost use Rattle.air_model.specs.Rows.{row_writer};
ghost use Rattle.air_report.specs.RowWriters.{IsRowWriter, written_text};
ghost use Rattle.air_report.specs.Private.BegunRows.{IsBegun};

use air_base::{NoMemory, write_u64};
use csv::{Writer, WriterBuilder};
use std::alloc::Global;

/// A writer of rows after a text.
pub fn row_writer(text: Vec<u8>) -> Writer<Vec<u8>>
    ensures ready { IsRowWriter result }
    ensures text { written_text result ≡ text.items }
{
    WriterBuilder::new().flexible(true).from_writer(text)
}

/// Adds the row of these fields.
pub fn add_row<'a>(wtr: &mut Writer<Vec<u8>>, fields: &[&'a [u8]]) -> Result<(), NoMemory>
    requires { IsRowWriter wtr.old }
    ensures ready { OnOk result (IsRowWriter wtr.new) }
    ensures text { OnOk result
        (written_text wtr.new ≡ written_text wtr.old ++ row_text row_writer (map (λ f. f.now) fields.now)) }
{
    wtr.write_fields(fields).map_err(|_| NoMemory)
}

/// The writer after the row of a tag and numbers.
pub fn put_numbers(
    alloc: Global,
    wtr: Writer<Vec<u8>>,
    tag: &[u8],
    ns: &[u64],
) -> Result<Writer<Vec<u8>>, NoMemory>
    requires { IsRowWriter wtr }
    ensures ready { IfOk result IsRowWriter }
    ensures text { IfOk result (λ more.
        written_text more ≡ written_text wtr ++ row_text row_writer (tag.now ∷ map number_text ns.now)) }
{
    let mut wtr = wtr;
    add_numbers(alloc, &mut wtr, tag, ns)?;
    Ok(wtr)
}

/// Adds the row of a tag and numbers.
pub fn add_numbers(
    alloc: Global,
    wtr: &mut Writer<Vec<u8>>,
    tag: &[u8],
    ns: &[u64],
) -> Result<(), NoMemory>
    requires { IsRowWriter wtr.old }
    ensures ready { OnOk result (IsRowWriter wtr.new) }
    ensures text { OnOk result
        (written_text wtr.new ≡ written_text wtr.old ++ row_text row_writer (tag.now ∷ map number_text ns.now)) }
{
    put_field(wtr, tag)?;
    let mut text = Vec::new(alloc);
    for n in ns {
        text.clear();
        write_u64(*n, &mut text)?;
        put_field(wtr, &text)?;
    }
    end_row(wtr)?;
    Ok(())
}

/// The text of all rows.
pub fn finish(wtr: Writer<Vec<u8>>) -> Result<Vec<u8>, NoMemory>
    ensures { IfOk result (λ text. text.items ≡ written_text wtr) }
{
    wtr.into_inner().map_err(|_| NoMemory)
}

/// Adds a field to the row that is begun. Between two rows, a row of no fields is.
pub fn put_field(wtr: &mut Writer<Vec<u8>>, field: &[u8]) -> Result<(), NoMemory>
    ensures { OnOk result ((before : List ℕ) (fields : List (List ℕ)) → length fields + 1 < 2 ^ 64
        → IsBegun before fields wtr.old → IsBegun before (fields ++ field.now ∷ []) wtr.new) }
{
    match wtr.write_field(field) {
        Ok(()) => Ok(()),
        Err(_) => Err(NoMemory),
    }
}

/// Ends the row that is begun.
pub fn end_row(wtr: &mut Writer<Vec<u8>>) -> Result<(), NoMemory>
    ensures ready { OnOk result ((before : List ℕ) (fields : List (List ℕ)) → IsBegun before fields wtr.old → IsRowWriter wtr.new) }
    ensures text { OnOk result ((before : List ℕ) (fields : List (List ℕ)) → IsBegun before fields wtr.old
        → written_text wtr.new ≡ before ++ row_text row_writer fields) }
{
    wtr.end_record().map_err(|_| NoMemory)
}
