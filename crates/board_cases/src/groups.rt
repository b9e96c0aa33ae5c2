//! Cases of boards by groups: what a history's board says by groups.

use crate::scans::add_entries;
use air_base::limits::MOST_GROUP;
use air_base::{NoMemory, write_u64};
use case_lines::{BadCase, Parts, add_line};
use control_matrix::Board;
use group_matrix::GroupBoard;
use std::alloc::Global;

/// The cycle of the board by groups, and each item's value and column.
pub fn tell_groups(
    alloc: Global,
    board: &Board,
    parts: &mut Parts<'_>,
    came: &mut Vec<u8>,
) -> Result<(), NoMemory> {
    let group = parts.small();
    if group == 0 || u64::from(group) > MOST_GROUP {
        parts.refuse(BadCase::NoCall);
        return Ok(());
    }
    let mut groups = GroupBoard::new(alloc, board.n(), group)?;
    groups.fill(board);
    add_line(b"cycle", &[u64::from(groups.cycle())], came)?;
    for item in 0..groups.n() {
        write_u64(u64::from(item), came)?;
        came.extend_from_slice(b" has value ")?;
        write_u64(groups.value(item), came)?;
        came.extend_from_slice(b", column")?;
        add_entries(groups.column(item), came)?;
    }
    Ok(())
}
