//! The control columns, one after another in one flat list, and their step by a commit.
//!
//! All columns that the commit reads are gathered before one is written, so a commit may read what it writes.

ghost use Rattle.std.specs.Prelude.{◌≡◌, ◌==◌, ◌<◌, ◌*◌, ℕ, cond, length, get_or, All, EachIndex, slice_index};
ghost use Rattle.std.specs.List.{list_any};
ghost use Rattle.air_history.specs.Places.{greatest_of};
ghost use Rattle.air_history.specs.Histories.{writes, reads, ItemsFit};
ghost use Rattle.control_matrix.specs.Columns.{column_in, columns_in, next_columns};

use air_history::{Event, Write};
use air_lanes::{max_into, stamp};

/// The column of an item.
#[tactic(auto, using(crate::proofs::FlatLemmas::column_ends, crate::proofs::FlatLemmas::column_begins))]
pub fn column_of(entries: &[u32], n: usize, item: u16) -> &[u32]
    requires square { length entries.now ≡ n * n }
    requires within { item < n }
    ensures { result.now ≡ column_in n entries.now item }
{
    let from = item as usize * n;
    &entries[from..from + n]
}

/// Puts this column in place of the item's.
fn put_column(entries: &mut [u32], item: u16, column: &[u32])
    requires square { length entries.old ≡ length column.now * length column.now }
    requires within { item < length column.now }
    ensures { (j : ℕ) → j < length column.now →
        column_in (length column.now) entries.new j ≡ cond (item == j) column.now (column_in (length column.now) entries.old j) }
{
    let n = column.len();
    let from = item as usize * n;
    entries[from..from + n].copy_from_slice(column);
}

/// Puts at each place the greatest entry that a column read by the commit has there.
fn merge(entries: &[u32], reads: &[u16], out: &mut [u32])
    requires square { length entries.now ≡ length out.old * length out.old }
    requires within { All (λ r. r < length out.old) reads.now }
    ensures { EachIndex out.new
        (λ k. slice_index out.new k ≡ greatest_of (λ r. get_or (column_in (length out.old) entries.now r) k 0) reads.now) }
{
    out.fill(0);
    for item in reads {
        max_into(out, column_of(entries, out.len(), *item));
    }
}

/// Puts the column in place of that of each item that is written.
fn store(entries: &mut [u32], writes: &[Write], column: &[u32])
    requires square { length entries.old ≡ length column.now * length column.now }
    requires within { All (λ w. w.item < length column.now) writes.now }
    ensures { (j : ℕ) → j < length column.now →
        column_in (length column.now) entries.new j ≡
        cond (list_any (λ w. w.item == j) writes.now) column.now (column_in (length column.now) entries.old j) }
{
    for write in writes {
        put_column(entries, write.item, column);
    }
}

/// Changes the columns by a commit in the given cycle. `spare` is room for one column, and `marks` has the items that the
/// commit writes.
pub fn step_columns(
    entries: &mut [u32],
    spare: &mut [u32],
    marks: &[u32],
    event: &Event,
    cycle: u32,
)
    requires square { length entries.old ≡ length spare.old * length spare.old }
    requires fits { ItemsFit (length spare.old) event.now }
    requires long { length marks.now ≡ length spare.old }
    requires marked { EachIndex marks.now (λ k. slice_index marks.now k ≡ cond (writes event.now k) 1 0) }
    ensures { columns_in (length spare.old) entries.new ≡
        next_columns (length spare.old) cycle (columns_in (length spare.old) entries.old) event.now }
{
    merge(entries, event.reads(), spare);
    stamp(spare, marks, cycle);
    store(entries, event.writes(), spare);
}
