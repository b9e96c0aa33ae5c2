//! The slow calls: the last writer, descent and control columns, found by scanning the history.
//!
//! Each is proved to give what its definition says, for every history. Faster implementations are compared with them.

ghost use Rattle.std.specs.Prelude.{◌≡◌, ◌==◌, ◌<◌, ◌≤◌, ◌^◌, ℕ, false, not, ◌&&◌, ◌||◌, cond, All, length, map, get_or, IfOk, OnOk, OnErr, slice_index_or};
ghost use Rattle.std.specs.List.{list_any, range_with_len};
ghost use Rattle.air_history.specs.Places.{greatest};
ghost use Rattle.air_history.specs.Histories.{writes, event_at, cycle_at, writer, front, starts, ItemsFit};
ghost use Rattle.air_history.specs.Columns.{column};
ghost use Rattle.air_history.specs.Descents.{descends};

use crate::histories::{Event, History};
use crate::updates::Write;
use air_base::NoMemory;
use air_base::limits::ITEM_NUMBERS;
use std::alloc::Global;

/// The last place before the cycle's start whose commit writes the item; `None` if and only if there is none. Cycle 0 has an
/// empty front.
pub fn writer_at(h: &History, cycle: u32, item: u16) -> Option<u64>
    requires { cycle ≤ starts h.now }
    ensures { result ≡ writer (front h.now cycle) item }
{
    let mut last = None;
    let mut seen = 0;
    for (place, event) in h.events().iter().enumerate() {
        if event.is_start() {
            seen += 1;
        } else if seen < cycle && event.writes_item(item) {
            last = Some(place as u64);
        }
    }
    last
}

/// A flag for each of `count` items, none of which is looked for.
fn none_sought(alloc: Global, count: usize) -> Result<Vec<bool>, NoMemory>
    ensures sized { IfOk result (λ sought. length sought.items ≡ count) }
    ensures clear { IfOk result (λ sought. (i : ℕ) → get_or sought.items i false ≡ false) }
{
    Ok(vec![in alloc; false; count]?)
}

/// Whether a write is of an item that is looked for.
fn writes_sought(writes: &[Write], sought: &[bool]) -> bool
    requires { 2 ^ 16 ≤ length sought.now }
    ensures { result ≡ list_any (λ w. get_or sought.now w.item false) writes.now }
{
    for write in writes {
        if sought[write.item as usize] {
            return true;
        }
    }
    false
}

/// Removes the items that are written from those looked for.
fn forget_written(writes: &[Write], sought: &mut [bool])
    requires { 2 ^ 16 ≤ length sought.old }
    ensures { (i : ℕ) → get_or sought.new i false ≡
        (get_or sought.old i false && not (list_any (λ w. w.item == i) writes.now)) }
{
    for write in writes {
        sought[write.item as usize] = false;
    }
}

/// Adds the items that are read to those looked for.
fn seek_read(reads: &[u16], sought: &mut [bool])
    requires { 2 ^ 16 ≤ length sought.old }
    ensures { (i : ℕ) → get_or sought.new i false ≡
        (get_or sought.old i false || list_any (λ r. r == i) reads.now) }
{
    for item in reads {
        sought[*item as usize] = true;
    }
}

/// Marks the places from which the commit at `place` descends, itself included. Of a start, only the start is marked.
///
/// One walk backwards. A commit that writes an item looked for is marked. The items that it writes are then found, and those
/// that it reads are looked for before it.
pub fn descends(alloc: Global, h: &History, place: u64) -> Result<Vec<bool>, NoMemory>
    requires { place < length h.now }
    ensures { IfOk result (λ marks. marks.items ≡ map (descends h.now place) (range_with_len 0 (length h.now))) }
{
    let events = h.events();
    let place = place as usize;
    let mut marks = vec![in alloc; false; events.len()]?;
    let mut sought = none_sought(alloc, ITEM_NUMBERS)?;
    marks[place] = true;
    seek_read(events[place].reads(), &mut sought);
    for at in (0..place).rev() {
        if writes_sought(events[at].writes(), &sought) {
            marks[at] = true;
            forget_written(events[at].writes(), &mut sought);
            seek_read(events[at].reads(), &mut sought);
        }
    }
    Ok(marks)
}

/// Puts the cycle at the place of each item that is written.
fn stamp(out: &mut [u32], writes: &[Write], cycle: u32)
    requires { All (λ w. w.item < length out.old) writes.now }
    ensures { (i : ℕ) → i < length out.old →
        slice_index_or out.new i 0 ≡ cond (list_any (λ w. w.item == i) writes.now) cycle (slice_index_or out.old i 0) }
{
    for write in writes {
        out[write.item as usize] = cycle;
    }
}

/// Puts at the place of each item the cycle of the last marked commit that writes it, and leaves zeros elsewhere.
fn stamp_marked(events: &[Event], marks: &[bool], out: &mut [u32])
    requires sized { length marks.now ≡ length events.now }
    requires few { starts events.now < 2 ^ 32 }
    requires fits { All (ItemsFit (length out.old)) events.now }
    requires clear { (i : ℕ) → i < length out.old → slice_index_or out.old i 0 ≡ 0 }
    ensures { (i : ℕ) → i < length out.old →
        slice_index_or out.new i 0 ≡ greatest (length events.now)
        (λ q. get_or marks.now q false && writes (event_at events.now q) i) (cycle_at events.now) }
{
    let mut seen = 0;
    for (place, event) in events.iter().enumerate() {
        if event.is_start() {
            seen += 1;
        } else if marks[place] {
            stamp(out, event.writes(), seen);
        }
    }
}

/// Fills the control column of the item at the cycle by scanning. After `NoMemory` nothing is filled.
pub fn column_scan(
    alloc: Global,
    h: &History,
    cycle: u32,
    item: u16,
    out: &mut [u32],
) -> Result<(), NoMemory>
    requires within { cycle ≤ starts h.now }
    requires fits { All (ItemsFit (length out.old)) h.now }
    ensures ok { OnOk result (out.new ≡ column (length out.old) (front h.now cycle) item) }
    ensures err { OnErr result (out.new ≡ out.old) }
{
    let Some(writer) = writer_at(h, cycle, item) else {
        out.fill(0);
        return Ok(());
    };
    let marks = descends(alloc, h, writer)?;
    out.fill(0);
    stamp_marked(h.events(), &marks, out);
    Ok(())
}
