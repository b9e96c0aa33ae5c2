//! Whether reads are consistent: one backward walk over the commits from which they descend.
//!
//! When these commits run alone, none of them may write a read's item after that read's origin. The walk begins at the last origin. It ends
//! at the first write that follows one of the origins, so there is no walk if no item was written again before the last origin.

ghost use Rattle.std.specs.Prelude.{◌≡◌, ◌≤◌, ◌<◌, ◌&&◌, ℕ, true, false, length, get_or, map, All, IfOk, IfSome, OnOk, Some};
ghost use Rattle.std.specs.List.{list_any};
ghost use Rattle.air_history.specs.Consistency.{consistent};
ghost use Rattle.air_history.specs.Histories.{ItemsFit, event_at, writes};
ghost use Rattle.air_history.specs.Places.{same_place};
ghost use Rattle.air_history.specs.Reads.{origin};
ghost use Rattle.live_replay.specs.Findings.{place_of_line, places_read};
ghost use Rattle.live_replay.specs.Private.Alone.{overwrites_read, is_after, is_met};

use crate::replay::{Replay, same_place};
use crate::sought::{clear_flags, forget_written, seek_read, writes_sought};
use air_base::{NoMemory, ReadOf};
use air_history::Event;
use std::alloc::Global;

/// The places at which a walk for reads may begin and end. No commit before the first place writes an item after its read's origin, and each origin is
/// before the end.
#[derive(Clone, Copy, Debug, PartialEq, Eq)]
struct WalkRange {
    first: u64,
    end: u64,
}

/// Lists that one question after another uses again: the origins of reads, and the items that a walk looks for.
#[derive(Debug, Drop)]
pub struct WalkLists {
    origins: Vec<Option<u64>>,
    sought: Vec<bool>,
}

impl WalkLists {
    /// Empty lists.
    pub fn new(alloc: Global) -> WalkLists {
        WalkLists {
            origins: Vec::new(alloc),
            sought: Vec::new(alloc),
        }
    }
}

/// Makes a list that of the origin of each read. What was in it before doesn't matter.
fn list_origins(
    replay: &Replay<'_>,
    reads: &[ReadOf],
    origins: &mut Vec<Option<u64>>,
) -> Result<(), NoMemory>
    ensures { OnOk result (origins.new.items ≡ map (origin replay.now.history) (places_read reads.now)) }
{
    origins.clear();
    for read in reads {
        origins.push(replay.origin(read.item, read.cycle))?;
    }
    Ok(())
}

/// The origin of each read.
pub fn origins_of(
    alloc: Global,
    replay: &Replay<'_>,
    reads: &[ReadOf],
) -> Result<Vec<Option<u64>>, NoMemory>
    ensures { IfOk result (λ origins. origins.items ≡ map (origin replay.now.history) (places_read reads.now)) }
{
    let mut origins = Vec::new(alloc);
    list_origins(replay, reads, &mut origins)?;
    Ok(origins)
}

/// The place after the last origin, 0 if there is none.
pub fn end_of(count: usize, origins: &[Option<u64>]) -> usize
    requires { All (λ o. IfSome o (λ w. w < count)) origins.now }
    ensures within { result ≤ count }
    ensures all { All (λ o. IfSome o (λ w. w < result)) origins.now }
{
    let mut end = 0;
    for origin in origins {
        if let Some(place) = origin {
            end = end.max(*place as usize + 1);
        }
    }
    end
}

/// Whether the place is an origin.
fn is_origin(origins: &[Option<u64>], place: u64) -> bool
    ensures { result ≡ list_any (λ o. same_place o (Some place)) origins.now }
{
    origins
        .iter()
        .any(|origin| same_place(*origin, Some(place)))
}

/// Whether one of these origins is at the place, or its commit writes an item that is looked for.
fn is_met(events: &[Event], place: usize, origins: &[Option<u64>], sought: &[bool]) -> bool
    requires within { place < length events.now }
    requires fits { All (ItemsFit (length sought.now)) events.now }
    ensures { result ≡ is_met events.now origins.now place sought.now }
{
    is_origin(origins, place as u64) || writes_sought(events[place].writes(), sought)
}

/// Whether a place comes after an origin.
fn is_after(origin: Option<u64>, place: u64) -> bool
    ensures { result ≡ is_after origin place }
{
    match origin {
        None => true,
        Some(first) => first < place,
    }
}

/// Whether an event at a place writes an item after an origin.
fn writes_after(event: &Event, place: u64, item: u16, origin: Option<u64>) -> bool
    ensures { result ≡ (writes event.now item && is_after origin place) }
{
    event.writes_item(item) && is_after(origin, place)
}

/// Whether the commit at a place writes an item of these reads after its origin.
fn overwrites_read(
    events: &[Event],
    place: usize,
    reads: &[ReadOf],
    origins: &[Option<u64>],
) -> bool
    requires within { place < length events.now }
    requires origins { origins.now ≡ map (origin events.now) (places_read reads.now) }
    ensures { result ≡ overwrites_read events.now (places_read reads.now) place }
{
    for (k, read) in reads.iter().enumerate() {
        if writes_after(&events[place], place as u64, read.item, origins[k]) {
            return true;
        }
    }
    false
}

/// Whether the reads of these origins are consistent. No commit before the first place comes late for them, and there is no origin from
/// the end on. The items that are looked for are none to begin with.
fn none_late(
    events: &[Event],
    reads: &[ReadOf],
    origins: &[Option<u64>],
    first: usize,
    end: usize,
    sought: &mut [bool],
) -> bool
    requires origins { origins.now ≡ map (origin events.now) (places_read reads.now) }
    requires first { (q : ℕ) → overwrites_read events.now (places_read reads.now) q ≡ true → first ≤ q }
    requires within { end ≤ length events.now }
    requires end { All (λ o. IfSome o (λ w. w < end)) origins.now }
    requires fits { All (ItemsFit (length sought.old)) events.now }
    requires clear { (i : ℕ) → get_or sought.old i false ≡ false }
    ensures { result ≡ consistent events.now (places_read reads.now) }
{
    for at in (first..end).rev() {
        if is_met(events, at, origins, sought) {
            if overwrites_read(events, at, reads, origins) {
                return false;
            }
            forget_written(events[at].writes(), sought);
            seek_read(events[at].reads(), sought);
        }
    }
    true
}

/// The place after an origin, 0 if there is none.
fn after_origin(origin: Option<u64>, count: usize) -> u64
    requires { IfSome origin (λ w. w < count) }
    ensures within { result ≤ count }
    ensures after { IfSome origin (λ w. w < result) }
{
    match origin {
        None => 0,
        Some(place) => place + 1,
    }
}

/// Finds the places at which a walk for a read may begin and end.
fn range_of(replay: &Replay<'_>, read: &ReadOf) -> WalkRange
    ensures within { result.end ≤ length replay.now.history }
    ensures late { (q : ℕ) → (writes (event_at replay.now.history q) read.now.item && is_after (origin replay.now.history (place_of_line read.now)) q) ≡ true → result.first ≤ q }
    ensures before { IfSome (origin replay.now.history (place_of_line read.now)) (λ w. w < result.end) }
{
    let near = replay.around(read.item, read.cycle);
    WalkRange {
        first: near.next,
        end: after_origin(near.origin, replay.events().len()),
    }
}

/// Finds the places at which a walk for reads may begin and end.
fn range_of_all(replay: &Replay<'_>, reads: &[ReadOf]) -> WalkRange
    ensures within { result.end ≤ length replay.now.history }
    ensures late { (q : ℕ) → overwrites_read replay.now.history (places_read reads.now) q ≡ true → result.first ≤ q }
    ensures before { All (λ o. IfSome o (λ w. w < result.end)) (map (origin replay.now.history) (places_read reads.now)) }
{
    let mut first = replay.events().len() as u64;
    let mut end = 0;
    for read in reads {
        let range = range_of(replay, read);
        first = first.min(range.first);
        end = end.max(range.end);
    }
    WalkRange { first, end }
}

/// Whether the reads are consistent, by a walk.
fn walk(
    replay: &Replay<'_>,
    reads: &[ReadOf],
    first: usize,
    end: usize,
    lists: &mut WalkLists,
) -> Result<bool, NoMemory>
    requires within { end ≤ length replay.now.history }
    requires first { (q : ℕ) → overwrites_read replay.now.history (places_read reads.now) q ≡ true → first ≤ q }
    requires end { All (λ o. IfSome o (λ w. w < end)) (map (origin replay.now.history) (places_read reads.now)) }
    ensures { IfOk result (λ told. told ≡ consistent replay.now.history (places_read reads.now)) }
{
    list_origins(replay, reads, &mut lists.origins)?;
    clear_flags(replay.items() as usize, &mut lists.sought)?;
    Ok(none_late(
        replay.events(),
        reads,
        &lists.origins,
        first,
        end,
        &mut lists.sought,
    ))
}

/// Whether the reads are consistent. If no write that can come late for one of them is before the last origin, they are.
pub fn is_consistent(
    replay: &Replay<'_>,
    reads: &[ReadOf],
    lists: &mut WalkLists,
) -> Result<bool, NoMemory>
    ensures { IfOk result (λ told. told ≡ consistent replay.now.history (places_read reads.now)) }
{
    let range = range_of_all(replay, reads);
    let (first, end) = (range.first, range.end);
    if end <= first {
        return Ok(true);
    }
    walk(replay, reads, first as usize, end as usize, lists)
}
