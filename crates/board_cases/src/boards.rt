//! Cases of boards: all that the board of a history says.
//!
//! The board is stepped by one event after another from the values before the first.

use crate::groups::tell_groups;
use crate::scans::add_entries;
use air_base::limits::MOST_VALUES;
use air_base::{NoMemory, write_u64};
use air_history::History;
use case_lines::{BadCase, Parts, add_line};
use control_matrix::Board;
use std::alloc::Global;

/// Adds for each item its value and its column.
fn add_items(board: &Board, out: &mut Vec<u8>) -> Result<(), NoMemory> {
    for item in 0..board.n() {
        write_u64(u64::from(item), out)?;
        out.extend_from_slice(b" has value ")?;
        write_u64(board.value(item), out)?;
        out.extend_from_slice(b", column")?;
        add_entries(board.column(item), out)?;
    }
    Ok(())
}

/// The board of the history, stepped from the first values, or `None` if an event doesn't fit.
fn stepped(alloc: Global, history: &History, first: &[u64]) -> Result<Option<Board>, NoMemory> {
    if first.is_empty() || first.len() > MOST_VALUES {
        return Ok(None);
    }
    let mut board = Board::new(alloc, first)?;
    for event in history.events() {
        if !event.fits(board.n()) || board.cycle() == u32::MAX {
            return Ok(None);
        }
        board.apply(event);
    }
    Ok(Some(board))
}

/// The board of the history by groups.
pub fn tell_board_groups(
    alloc: Global,
    history: &History,
    first: &[u64],
    parts: &mut Parts<'_>,
    came: &mut Vec<u8>,
) -> Result<(), NoMemory> {
    let Some(board) = stepped(alloc, history, first)? else {
        parts.refuse(BadCase::NoCall);
        return Ok(());
    };
    tell_groups(alloc, &board, parts, came)
}

/// The board of the history: its number of items, its cycle, its vector, and each item's value and column.
pub fn tell_board(
    alloc: Global,
    history: &History,
    first: &[u64],
    parts: &mut Parts<'_>,
    came: &mut Vec<u8>,
) -> Result<(), NoMemory> {
    let Some(board) = stepped(alloc, history, first)? else {
        parts.refuse(BadCase::NoCall);
        return Ok(());
    };
    add_line(b"items", &[u64::from(board.n())], came)?;
    add_line(b"cycle", &[u64::from(board.cycle())], came)?;
    came.extend_from_slice(b"vector")?;
    add_entries(board.vector(), came)?;
    add_items(&board, came)
}
