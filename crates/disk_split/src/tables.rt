//! The tables of least weights: one for the disks from each one on.
//!
//! A table has a table row for each place from which these disks take the items, and in it a cell for each number of slots of a minor
//! cycle: the least weight of all sizes with that number, or none.

ghost use Rattle.std.specs.Prelude.{◌≡◌, ◌<◌, ℕ, ◌+◌, ◌^◌, [], ◌∷◌, Some, None, IfOk, drop, if◌then◌else◌, length, slice_index_or};
ghost use Rattle.disk_split.specs.Rests.{AreChunks, AreSums};
ghost use Rattle.disk_split.specs.Private.Tables.{AreTables, HasCellsUpTo, IsTableRow, IsTable, improved, lesser_weight};

use crate::lengths::chunk_slots;
use std::alloc::{AllocError, Global};
use std::marker::Model;

/// The cells of a table row.
#[derive(Drop)]
pub struct TableRow {
    pub cells: Vec<Option<u64>>,
}

impl Model for TableRow {
    ghost use Rattle.std.specs.Prelude.{List, Option, ℕ};

    ghost Value = { List (Option ℕ) };

    ghost view = { λ row. row.cells.items };
}

impl TableRow {
    /// The cell of a number of slots.
    pub fn cell(&self, slots: usize) -> Option<u64>
        ensures { result ≡ slice_index_or self.now slots None }
    {
        if slots < self.cells.len() {
            self.cells[slots]
        } else {
            None
        }
    }
}

/// The table rows of a table.
#[derive(Drop)]
pub struct Table {
    pub rows: Vec<TableRow>,
}

impl Model for Table {
    ghost use Rattle.std.specs.Prelude.{List, Option, ℕ};

    ghost Value = { List (List (Option ℕ)) };

    ghost view = { λ table. table.rows.items };
}

/// The lesser of a cell and a weight.
fn lesser_weight(cell: Option<u64>, weight: u64) -> Option<u64>
    ensures { result ≡ lesser_weight cell weight }
{
    match cell {
        Some(old) => Some(old.min(weight)),
        None => Some(weight),
    }
}

/// Lets a disk also take the next number of items: a chunk then has `chunk` slots, and the disk weighs `more`.
fn improve(cells: &mut [Option<u64>], next: &[Option<u64>], chunk: usize, more: u64)
    requires short { chunk + length next.now < 2 ^ 64 }
    requires room { HasCellsUpTo more next.now }
    ensures { (len : ℕ) → len < length cells.old →
        slice_index_or cells.new len None ≡ improved next.now chunk more len (slice_index_or cells.old len None) }
{
    for len in chunk..cells.len().min(chunk + next.len()) {
        if let Some(rest) = next[len - chunk] {
            cells[len] = lesser_weight(cells[len], rest + more);
        }
    }
}

/// The table row of a place for the disks of these chunks, from the table of the disks after the first.
fn row_from(
    alloc: Global,
    chunks: &[u64],
    sums: &[u64],
    next: &[TableRow],
    from: usize,
    width: usize,
) -> Result<TableRow, AllocError>
    requires sums { AreSums sums.now }
    requires chunks { AreChunks chunks.now }
    requires some { 0 < length chunks.now }
    requires next { IsTable sums.now (drop 1 chunks.now) width next.now }
    requires within { from < length sums.now }
    ensures { IfOk result (IsTableRow sums.now chunks.now from width) }
{
    let mut cells = vec![in alloc; None; width.min(sums.len() - from)]?;
    for size in 1..sums.len() - from {
        let chunk = chunk_slots(chunks[0], size as u64) as usize;
        let more = chunks[0] * (sums[from + size] - sums[from]);
        let row = &next[from + size];
        improve(&mut cells, &row.cells, chunk, more);
    }
    Ok(TableRow { cells })
}

/// The table of the disks of these chunks, from that of the disks after the first.
fn table_from(
    alloc: Global,
    chunks: &[u64],
    sums: &[u64],
    next: &[TableRow],
    width: usize,
) -> Result<Table, AllocError>
    requires sums { AreSums sums.now }
    requires chunks { AreChunks chunks.now }
    requires some { 0 < length chunks.now }
    requires next { IsTable sums.now (drop 1 chunks.now) width next.now }
    ensures { IfOk result (IsTable sums.now chunks.now width) }
{
    let mut rows = Vec::new(alloc);
    for from in 0..sums.len() {
        rows.push(row_from(alloc, chunks, sums, next, from, width)?)?;
    }
    Ok(Table { rows })
}

/// The table row of a place for no disk: only after the last item nothing is left to take, in no slots and with no weight.
fn last_row(alloc: Global, is_end: bool) -> Result<TableRow, AllocError>
    ensures { IfOk result (λ row. row ≡ (if is_end then Some 0 ∷ [] else [])) }
{
    let mut cells = Vec::new(alloc);
    if is_end {
        cells.push(Some(0))?;
    }
    Ok(TableRow { cells })
}

/// The table of no disk.
fn last_table(alloc: Global, sums: &[u64], width: usize) -> Result<Table, AllocError>
    requires sums { AreSums sums.now }
    requires wide { 0 < width }
    ensures { IfOk result (IsTable sums.now [] width) }
{
    let mut rows = Vec::new(alloc);
    for from in 0..sums.len() {
        rows.push(last_row(alloc, from + 1 == sums.len())?)?;
    }
    Ok(Table { rows })
}

/// The tables of the disks from each one on, from that of no disk to that of all.
pub fn tables(
    alloc: Global,
    chunks: &[u64],
    sums: &[u64],
    width: usize,
) -> Result<Vec<Table>, AllocError>
    requires sums { AreSums sums.now }
    requires chunks { AreChunks chunks.now }
    requires wide { 0 < width }
    ensures { IfOk result (λ tables. AreTables sums.now chunks.now width tables.items) }
{
    let mut tables = Vec::new(alloc);
    tables.push(last_table(alloc, sums, width)?)?;
    for count in 0..chunks.len() {
        let rest = &chunks[chunks.len() - (count + 1)..];
        let next = &tables[count];
        let table = table_from(alloc, rest, sums, &next.rows, width)?;
        tables.push(table)?;
    }
    Ok(tables)
}
