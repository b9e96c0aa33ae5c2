//! Cases of drawn boards: each entry of their groups is the greatest of the columns of the group's items.

ghost use Rattle.std.specs.Prelude.{◌≡◌, ◌<◌, ◌≤◌, length, IfOk};
ghost use Rattle.air_base.specs.declared.limits.TheConstants.{MOST_VALUES};

use air_base::NoMemory;
use air_base::limits::{MOST_GROUP, MOST_VALUES};
use air_history::{Event, Update, Write};
use case_lines::{BadCase, Parts, add_line};
use control_matrix::Board;
use group_matrix::GroupBoard;
use std::alloc::Global;

/// A prime below which the drawn numbers are.
const PRIME: u64 = 2_147_483_647;

/// The drawn number after this one.
fn next(number: u64) -> u64 {
    (number % PRIME) * 48_271 % PRIME
}

/// Two items below `n`, or one if they are the same.
fn drawn_items(alloc: Global, n: u16, number: u64) -> Result<Vec<u16>, NoMemory> {
    let mut items = Vec::new(alloc);
    let first = (number % u64::from(n.max(1))) as u16;
    let second = (number / 2048 % u64::from(n.max(1))) as u16;
    items.push(first)?;
    if second != first {
        items.push(second)?;
    }
    Ok(items)
}

/// A commit that reads and writes drawn items, or a start.
fn drawn_event(alloc: Global, n: u16, number: u64) -> Result<Event, NoMemory> {
    let reads = drawn_items(alloc, n, number)?;
    let mut writes = Vec::new(alloc);
    for item in drawn_items(alloc, n, next(number))? {
        writes.push(Write {
            item,
            base: None,
            minus: false,
            amount: number,
        })?;
    }
    match Update::new(alloc, &reads, &writes) {
        Ok(update) if number % 3 > 0 => Ok(Event::Commit {
            by: 0,
            seq: 0,
            update,
        }),
        _ => Ok(Event::Start),
    }
}

/// The board of `n` items after this number of drawn events.
fn drawn_board(alloc: Global, n: u16, events: u32) -> Result<Board, NoMemory>
    requires some { 1 ≤ n }
    requires few { n ≤ MOST_VALUES }
    ensures { IfOk result (λ board. length board.values ≡ n) }
{
    let values = vec![in alloc; 7; usize::from(n)]?;
    let mut board = Board::new(alloc, &values)?;
    let mut number = 75;
    for _ in 0..events {
        number = next(number);
        let event = drawn_event(alloc, n, number)?;
        if event.fits(n) && board.cycle() < u32::MAX {
            board.apply(&event);
        }
    }
    Ok(board)
}

/// The greatest entry at a place in the columns of the items from the first one up to the end, one after another.
fn greatest(board: &Board, first: u16, end: u16, place: usize) -> u32
    requires end { end ≤ length board.now.values }
    requires place { place < length board.now.values }
{
    let mut most = 0;
    for item in first..end {
        most = most.max(board.column(item)[place]);
    }
    most
}

/// How many entries of the first item of a group are the greatest of the group.
fn count_greatest(board: &Board, groups: &GroupBoard, first: u16, end: u16) -> u64
    requires first { first < length groups.now.values }
    requires items { length groups.now.values ≡ length board.now.values }
    requires end { end ≤ length board.now.values }
{
    let mut count = 0u64;
    for (place, entry) in groups.column(first).iter().enumerate() {
        if *entry == greatest(board, first, end, place) {
            count = count.saturating_add(1);
        }
    }
    count
}

/// How many entries are the greatest of their groups. The items of a group have the column of its first one.
fn count_all(board: &Board, groups: &GroupBoard) -> u64
    requires items { length groups.now.values ≡ length board.now.values }
{
    let mut count = 0u64;
    let group = groups.group();
    let mut of_first = 0;
    for item in 0..groups.n() {
        let first = item / group * group;
        if first == item {
            of_first = count_greatest(board, groups, item, board.n().min(first + group));
        } else if groups.column(item) != groups.column(first) {
            of_first = 0;
        }
        count = count.saturating_add(of_first);
    }
    count
}

/// The sum of the entries of a column.
fn sum(column: &[u32]) -> u64 {
    let mut sum = 0u64;
    for entry in column {
        sum = sum.saturating_add(u64::from(*entry));
    }
    sum
}

/// The sum of the entries of all items' group columns.
fn group_sum(groups: &GroupBoard) -> u64 {
    let mut all = 0u64;
    for item in 0..groups.n() {
        all = all.saturating_add(sum(groups.column(item)));
    }
    all
}

/// The sum of the entries of all items' own columns.
fn own_sum(board: &Board) -> u64 {
    let mut all = 0u64;
    for item in 0..board.n() {
        all = all.saturating_add(sum(board.column(item)));
    }
    all
}

/// A board of drawn columns by groups, and then an earlier one by the same groups: how many of the entries are the greatest of their groups each time,
/// whether some of the first are greater than the items' own, and whether some fell.
pub fn tell_drawn(
    alloc: Global,
    parts: &mut Parts<'_>,
    came: &mut Vec<u8>,
) -> Result<(), NoMemory> {
    let n = parts.small();
    let group = parts.small();
    if group == 0 || u64::from(group) > MOST_GROUP || n == 0 || usize::from(n) > MOST_VALUES {
        parts.refuse(BadCase::NoCall);
        return Ok(());
    }
    let later = drawn_board(alloc, n, 3 * u32::from(n) + 12)?;
    let earlier = drawn_board(alloc, n, u32::from(n) + 4)?;
    let mut groups = GroupBoard::new(alloc, n, group)?;
    add_line(b"entries", &[u64::from(n) * u64::from(n)], came)?;
    groups.fill(&later);
    add_line(b"the greatest", &[count_all(&later, &groups)], came)?;
    let first = group_sum(&groups);
    if first > own_sum(&later) {
        came.extend_from_slice(b"some are greater than the item's own\n")?;
    }
    groups.fill(&earlier);
    add_line(b"then the greatest", &[count_all(&earlier, &groups)], came)?;
    if group_sum(&groups) < first {
        came.extend_from_slice(b"some fell\n")?;
    }
    Ok(())
}
