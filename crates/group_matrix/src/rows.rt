//! The columns of the groups, one after another in one flat list.

ghost use Rattle.std.specs.Prelude.{◌≡◌, ◌≤◌, ◌<◌, ◌-◌, ◌*◌, ◌/◌, length, map};
ghost use Rattle.std.specs.List.{range_with_len};
ghost use Rattle.air_base.specs.declared.limits.TheConstants.{MOST_VALUES};
ghost use Rattle.air_history.specs.Places.{greatest_of};
ghost use Rattle.control_matrix.specs.Columns.{column_in, entry_in_columns};
ghost use Rattle.group_matrix.specs.GroupBoards.{count_groups, group_column_on};
ghost use Rattle.group_matrix.specs.GroupFields.{rows_in};

use air_lanes::max_into;
use control_matrix::Board;

/// How many groups of `group` items `n` items make.
pub fn count_groups(group: u16, n: usize) -> usize
    requires some { 1 ≤ group }
    requires few { n ≤ MOST_VALUES }
    ensures counted { result ≡ count_groups group n }
    ensures within { result ≤ n }
{
    let group = usize::from(group);
    (n + (group - 1)) / group
}

/// The column of an item's group.
pub fn row_of(entries: &[u32], group: u16, n: usize, item: u16) -> &[u32]
    requires long { length entries.now ≡ count_groups group n * n }
    requires some { 1 ≤ group }
    requires few { n ≤ MOST_VALUES }
    requires within { item < n }
    ensures { result.now ≡ column_in n entries.now (item / group) }
{
    let from = usize::from(item / group) * n;
    &entries[from..from + n]
}

/// Puts into each group's column the greatest entries of its items' columns.
pub fn fill_rows(entries: &mut [u32], group: u16, board: &Board)
    requires long { length entries.old ≡ count_groups group (length board.now.values) * length board.now.values }
    requires some { 1 ≤ group }
    ensures { rows_in (count_groups group (length board.now.values)) (length board.now.values) entries.new
        ≡ map (λ k. group_column_on board.now group (group * k)) (range_with_len 0 (count_groups group (length board.now.values))) }
{
    let n = usize::from(board.n());
    for row in 0..count_groups(group, n) {
        let first = row * usize::from(group);
        let end = n.min(first + usize::from(group));
        let from = row * n;
        fill_row(&mut entries[from..from + n], first, end, board);
    }
}

/// Puts at each place the greatest entry that the columns of the items from the first one up to the end have there.
fn fill_row(column: &mut [u32], first: usize, end: usize, board: &Board)
    requires long { length column.old ≡ length board.now.values }
    requires order { first ≤ end }
    requires within { end ≤ length board.now.values }
    requires few { length board.now.values ≤ MOST_VALUES }
    ensures { column.new ≡ map (λ i. greatest_of (λ q. entry_in_columns board.now.columns q i) (range_with_len first (end - first))) (range_with_len 0 (length board.now.values)) }
{
    column.fill(0);
    for item in first..end {
        max_into(column, board.column(item as u16));
    }
}
