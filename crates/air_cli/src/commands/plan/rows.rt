//! The rows of an edition of a deck, written as those of a report.
//!
//! There is a row for the program, then one for each disk, each minor cycle and each item. The numbers are those of the deck and the program.

ghost use Rattle.std.specs.Prelude.{◌≡◌, ◌<◌, ◌++◌, None, get_or, length, map, slice_get, IfOk, IfSome, OnOk};
ghost use Rattle.std.specs.List.{enumerate_from, range_with_len};
ghost use Rattle.csv.specs.Writing.{row_text};
ghost use Rattle.air_base.specs.NumberLists.{list_text};
ghost use Rattle.air_model.specs.Decks.{count_editions, disks_in, rates_in, specs_in};
ghost use Rattle.air_model.specs.Programs.{minor_cycle, minor_len, num_minors};
ghost use Rattle.air_model.specs.PlanTexts.{disk_row, edition_rows, item_row, minor_row, program_row, slot_text};
ghost use Rattle.air_model.specs.Rows.{row_writer, rows_text};
ghost use Rattle.air_report.specs.RowWriters.{IsRowWriter, written_text};

use air_base::{NoMemory, write_u64};
use air_model::program::slots_law;
use air_report::{add_numbers, add_row};
use chunk_program::{Planned, Program, disk_count, disk_freq};
use csv::Writer;
use std::alloc::Global;

/// Adds the rows of an edition: one for the program, then one for each disk, each minor cycle and each item.
pub(crate) fn put_edition(
    alloc: Global,
    wtr: &mut Writer<Vec<u8>>,
    planned: &Planned,
    edition: u32,
) -> Result<(), NoMemory>
    requires ready { IsRowWriter wtr.old }
    requires edition { edition < count_editions planned.now }
    ensures ready { OnOk result (IsRowWriter wtr.new) }
    ensures text { OnOk result (written_text wtr.new
        ≡ written_text wtr.old ++ rows_text (edition_rows (rates_in planned.now) (specs_in planned.now edition))) }
{
    let program = planned.program(edition);
    put_program(alloc, wtr, program)?;
    put_disks(alloc, wtr, planned, edition)?;
    put_minors(alloc, wtr, program)?;
    put_items(alloc, wtr, planned, edition)?;
    Ok(())
}

/// Adds the row of the program.
fn put_program(alloc: Global, wtr: &mut Writer<Vec<u8>>, program: &Program) -> Result<(), NoMemory>
    requires { IsRowWriter wtr.old }
    ensures ready { OnOk result (IsRowWriter wtr.new) }
    ensures text { OnOk result (written_text wtr.new ≡ written_text wtr.old ++ row_text row_writer (program_row program.now.disks)) }
{
    let ns = [
        u64::from(program.slots()),
        u64::from(program.minors()),
        u64::from(program.minor_len()),
    ];
    add_numbers(alloc, wtr, b"program", &ns)?;
    Ok(())
}

/// Adds the rows of the disks.
fn put_disks(
    alloc: Global,
    wtr: &mut Writer<Vec<u8>>,
    planned: &Planned,
    edition: u32,
) -> Result<(), NoMemory>
    requires ready { IsRowWriter wtr.old }
    requires edition { edition < count_editions planned.now }
    ensures ready { OnOk result (IsRowWriter wtr.new) }
    ensures text { OnOk result (written_text wtr.new
        ≡ written_text wtr.old ++ rows_text (map (disk_row (num_minors (disks_in planned.now edition))) (enumerate_from 0 (disks_in planned.now edition)))) }
{
    let deck = planned.deck();
    for d in 0..disk_count(deck, edition) {
        put_disk(alloc, wtr, planned, edition, d)?;
    }
    Ok(())
}

/// Adds the row of a disk.
fn put_disk(
    alloc: Global,
    wtr: &mut Writer<Vec<u8>>,
    planned: &Planned,
    edition: u32,
    d: u32,
) -> Result<(), NoMemory>
    requires ready { IsRowWriter wtr.old }
    requires edition { edition < count_editions planned.now }
    requires disk { d < length (specs_in planned.now edition) }
    ensures ready { OnOk result (IsRowWriter wtr.new) }
    ensures text { OnOk result (IfSome (slice_get (disks_in planned.now edition) d) (λ disk.
        written_text wtr.new ≡ written_text wtr.old ++ row_text row_writer (disk_row (num_minors (disks_in planned.now edition)) (d, disk)))) }
{
    let program = planned.program(edition);
    let ns = [
        u64::from(d),
        u64::from(disk_freq(planned.deck(), edition, d)),
        u64::from(program.chunks(d)),
        u64::from(program.chunk_len(d)),
    ];
    add_numbers(alloc, wtr, b"disk", &ns)?;
    Ok(())
}

/// Adds the rows of the minor cycles.
fn put_minors(alloc: Global, wtr: &mut Writer<Vec<u8>>, program: &Program) -> Result<(), NoMemory>
    requires { IsRowWriter wtr.old }
    ensures ready { OnOk result (IsRowWriter wtr.new) }
    ensures text { OnOk result (written_text wtr.new
        ≡ written_text wtr.old ++ rows_text (map (minor_row program.now.disks) (range_with_len 0 (num_minors program.now.disks)))) }
{
    for k in 0..program.minors() {
        put_minor(alloc, wtr, program, k)?;
    }
    Ok(())
}

/// Adds the row of a minor cycle.
fn put_minor(
    alloc: Global,
    wtr: &mut Writer<Vec<u8>>,
    program: &Program,
    k: u32,
) -> Result<(), NoMemory>
    requires ready { IsRowWriter wtr.old }
    requires minor { k < num_minors program.now.disks }
    ensures ready { OnOk result (IsRowWriter wtr.new) }
    ensures text { OnOk result (written_text wtr.new ≡ written_text wtr.old ++ row_text row_writer (minor_row program.now.disks k)) }
{
    let mut number = Vec::new(alloc);
    write_u64(u64::from(k), &mut number)?;
    let slots = slots_text(alloc, program, k)?;
    let fields = [b"minor".as_slice(), number.as_slice(), slots.as_slice()];
    add_row(wtr, &fields)?;
    Ok(())
}

/// The slots of a minor cycle, separated by single spaces.
fn slots_text(alloc: Global, program: &Program, k: u32) -> Result<Vec<u8>, NoMemory>
    requires { k < num_minors program.now.disks }
    ensures { IfOk result (λ text.
        text.items ≡ list_text (map slot_text (minor_cycle (num_minors program.now.disks) program.now.disks k))) }
{
    let mut text = Vec::new(alloc);
    for j in 0..program.minor_len() {
        if j > 0 {
            text.extend_from_slice(b" ")?;
        }
        put_slot(slot_at(program, k, j), &mut text)?;
    }
    Ok(text)
}

/// The item of a slot of a minor cycle, or `None` if the slot is idle.
fn slot_at(program: &Program, k: u32, j: u32) -> Option<u16>
    requires minor { k < num_minors program.now.disks }
    requires slot { j < minor_len (num_minors program.now.disks) program.now.disks }
    ensures { result ≡ get_or (minor_cycle (num_minors program.now.disks) program.now.disks k) j None }
{
    slots_law();
    let _slots = program.slots();
    program.slot_item(k * program.minor_len() + j)
}

/// Appends the text of a slot.
fn put_slot(slot: Option<u16>, text: &mut Vec<u8>) -> Result<(), NoMemory>
    ensures { OnOk result (text.new.items ≡ text.old.items ++ slot_text slot) }
{
    match slot {
        Some(item) => write_u64(u64::from(item), text)?,
        None => text.extend_from_slice(b"-")?,
    }
    Ok(())
}

/// Adds the rows of the items.
fn put_items(
    alloc: Global,
    wtr: &mut Writer<Vec<u8>>,
    planned: &Planned,
    edition: u32,
) -> Result<(), NoMemory>
    requires ready { IsRowWriter wtr.old }
    requires edition { edition < count_editions planned.now }
    ensures ready { OnOk result (IsRowWriter wtr.new) }
    ensures text { OnOk result (written_text wtr.new
        ≡ written_text wtr.old ++ rows_text (map (item_row (disks_in planned.now edition)) (enumerate_from 0 (rates_in planned.now)))) }
{
    let deck = planned.deck();
    for i in 0..deck.items() {
        put_item(alloc, wtr, planned, edition, i)?;
    }
    Ok(())
}

/// Adds the row of an item.
fn put_item(
    alloc: Global,
    wtr: &mut Writer<Vec<u8>>,
    planned: &Planned,
    edition: u32,
    i: u16,
) -> Result<(), NoMemory>
    requires ready { IsRowWriter wtr.old }
    requires edition { edition < count_editions planned.now }
    requires item { i < length planned.now.items }
    ensures ready { OnOk result (IsRowWriter wtr.new) }
    ensures text { OnOk result (IfSome (slice_get planned.now.items i) (λ item.
        written_text wtr.new ≡ written_text wtr.old ++ row_text row_writer (item_row (disks_in planned.now edition) (i, item.rate)))) }
{
    let deck = planned.deck();
    let program = planned.program(edition);
    let ns = [
        u64::from(i),
        u64::from(program.disk_of(i)),
        u64::from(program.times(i)),
        u64::from(program.gap(i)),
        u64::from(program.next_wake(0, i)),
        program.pix(i, deck.rate(i)),
    ];
    add_numbers(alloc, wtr, b"item", &ns)?;
    Ok(())
}
