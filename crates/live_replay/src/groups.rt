//! The commits from which the last writers of a group's items descend: marked by one backward walk, for each read once.
//!
//! A read has its group read in its own cycle, and the origins of these reads are the first marks. The walk begins at the last origin. It
//! ends at the first write that another read is asked about, so nothing is marked if there is no such write.

ghost use Rattle.std.specs.Prelude.{◌≡◌, ◌<◌, ◌≤◌, ◌+◌, ◌==◌, ◌||◌, ℕ, List, false, nat_lt, length, get_or, map, All, IfOk, IfSome};
ghost use Rattle.std.specs.List.{list_any};
ghost use Rattle.air_history.specs.Histories.{ItemsFit, writes_of};
ghost use Rattle.air_history.specs.Reads.{ReadAt, origin};
ghost use Rattle.air_model.specs.Decks.{values_in};
ghost use Rattle.live_replay.specs.Findings.{place_of_line, places_read};
ghost use Rattle.live_replay.specs.Private.Groups.{AreMarksOf, HaveMarks, MarksAlone, MarksOrigins, group_reads, writes_between};

use crate::alone::{end_of, origins_of};
use crate::replay::Replay;
use crate::sought::{forget_written, none_set, seek_read, writes_sought};
use air_base::{NoMemory, ReadOf};
use air_history::Event;
use std::alloc::Global;

/// Marks at places, from a first one on: at the commits from which the reads of a group descend.
#[derive(Debug, Drop)]
pub struct GroupMarks {
    pub first: usize,
    pub marks: Vec<bool>,
}

/// Whether a number is below that of items, or is this item.
fn is_item(item: u32, items: u32, own: u32) -> bool
    ensures { result ≡ (nat_lt item items || (item == own)) }
{
    item < items || item == own
}

/// The reads of a read's group in its cycle, of no value.
fn group_reads(alloc: Global, replay: &Replay<'_>, read: &ReadOf) -> Result<Vec<ReadOf>, NoMemory>
    requires { 0 < replay.now.deck.settings.group }
    ensures { IfOk result (λ reads. places_read reads.items
        ≡ group_reads replay.now.deck.settings.group (length replay.now.deck.items) (place_of_line read.now)) }
{
    let group = u32::from(replay.group());
    let own = u32::from(read.item);
    let items = u32::from(replay.items());
    let first = group * (own / group);
    let mut reads = Vec::new(alloc);
    for item in first..first + group {
        if is_item(item, items, own) {
            reads.push(ReadOf {
                item: item as u16,
                cycle: read.cycle,
                value: 0,
            })?;
        }
    }
    Ok(reads)
}

/// Marks the origins from the first place on.
fn mark_origins(origins: &[Option<u64>], first: usize, marks: &mut [bool])
    requires clear { (k : ℕ) → get_or marks.old k false ≡ false }
    requires within { All (λ o. IfSome o (λ w. w < first + length marks.old)) origins.now }
    ensures { MarksOrigins origins.now first marks.new }
{
    for origin in origins {
        if let Some(place) = origin {
            let place = *place as usize;
            if first <= place {
                marks[place - first] = true;
            }
        }
    }
}

/// Whether a commit has a mark or writes an item that is looked for.
fn is_reached(event: &Event, is_origin: bool, sought: &[bool]) -> bool
    requires { All (λ w. w.item < length sought.now) (writes_of event.now) }
    ensures { result ≡ (is_origin || list_any (λ w. get_or sought.now w.item false) (writes_of event.now)) }
{
    is_origin || writes_sought(event.writes(), sought)
}

/// Marks the commits from which those descend that are marked already. The items that are looked for are none to begin with.
fn mark_back(events: &[Event], first: usize, marks: &mut [bool], sought: &mut [bool])
    requires within { first + length marks.old ≤ length events.now }
    requires fits { All (ItemsFit (length sought.old)) events.now }
    requires clear { (i : ℕ) → get_or sought.old i false ≡ false }
    ensures { (R : List ReadAt) → MarksOrigins (map (origin events.now) R) first marks.old → MarksAlone events.now R first marks.new }
{
    for at in (0..marks.len()).rev() {
        let event = &events[first + at];
        if is_reached(event, marks[at], sought) {
            marks[at] = true;
            forget_written(event.writes(), sought);
            seek_read(event.reads(), sought);
        }
    }
}

/// Marks the commits from which reads with these origins descend. No place is marked to begin with, and no item is looked for.
fn mark_all(
    events: &[Event],
    origins: &[Option<u64>],
    first: usize,
    marks: &mut [bool],
    sought: &mut [bool],
)
    requires within { first + length marks.old ≤ length events.now }
    requires unmarked { (k : ℕ) → get_or marks.old k false ≡ false }
    requires origins { All (λ o. IfSome o (λ w. w < first + length marks.old)) origins.now }
    requires fits { All (ItemsFit (length sought.old)) events.now }
    requires clear { (i : ℕ) → get_or sought.old i false ≡ false }
    ensures { (R : List ReadAt) → origins.now ≡ map (origin events.now) R → MarksAlone events.now R first marks.new }
{
    mark_origins(origins, first, marks);
    mark_back(events, first, marks, sought);
}

/// The marks of a read's group, from a place on.
fn marks_from(
    alloc: Global,
    replay: &Replay<'_>,
    read: &ReadOf,
    first: usize,
) -> Result<Vec<bool>, NoMemory>
    requires some { 0 < replay.now.deck.settings.group }
    requires within { first ≤ length replay.now.history }
    ensures { IfOk result (λ marks. MarksAlone replay.now.history
        (group_reads replay.now.deck.settings.group (length replay.now.deck.items) (place_of_line read.now)) first marks.items) }
{
    let events = replay.events();
    let group = group_reads(alloc, replay, read)?;
    let origins = origins_of(alloc, replay, &group)?;
    let places = origins.as_slice();
    let end = first.max(end_of(events.len(), places));
    let mut marks = none_set(alloc, end - first)?;
    let mut sought = none_set(alloc, replay.items() as usize)?;
    mark_all(events, places, first, &mut marks, &mut sought);
    Ok(marks)
}

/// The place of the first write that follows a read and comes before a cycle; that after the last event if there is none.
fn first_after(replay: &Replay<'_>, read: &ReadOf, cycle: u32) -> usize
    requires { read.now.item < length replay.now.deck.items }
    ensures within { result ≤ length replay.now.history }
    ensures least { All (λ w. result ≤ w.place) (writes_between (values_in replay.now.deck) replay.now.history read.now.item read.now.cycle cycle) }
{
    let writes = replay.writes_between(read.item, read.cycle, cycle);
    if writes.is_empty() {
        return replay.events().len();
    }
    writes[0].place as usize
}

/// The place of the first write that follows one of the reads and comes before a cycle; that after the last event if there is none.
fn first_of_all(replay: &Replay<'_>, reads: &[ReadOf], cycle: u32) -> usize
    requires { All (λ r. r.item < length replay.now.deck.items) reads.now }
    ensures within { result ≤ length replay.now.history }
    ensures least { All (λ r. All (λ w. result ≤ w.place) (writes_between (values_in replay.now.deck) replay.now.history r.item r.cycle cycle)) reads.now }
{
    let mut first = replay.events().len();
    for read in reads {
        first = first.min(first_after(replay, read, cycle));
    }
    first
}

/// The marks of a read's group, as far back as the other reads need them.
pub fn marks_of(
    alloc: Global,
    replay: &Replay<'_>,
    others: &[ReadOf],
    read: &ReadOf,
) -> Result<GroupMarks, NoMemory>
    requires some { 0 < replay.now.deck.settings.group }
    requires items { All (λ r. r.item < length replay.now.deck.items) others.now }
    ensures { IfOk result (AreMarksOf replay.now others.now read.now) }
{
    let first = first_of_all(replay, others, read.cycle);
    if first == replay.events().len() {
        return Ok(GroupMarks {
            first,
            marks: Vec::new(alloc),
        });
    }
    let marks = marks_from(alloc, replay, read, first)?;
    Ok(GroupMarks { first, marks })
}

/// The marks of each read's group, as far back as the other reads need them.
pub fn all_marks(
    alloc: Global,
    replay: &Replay<'_>,
    others: &[ReadOf],
    reads: &[ReadOf],
) -> Result<Vec<GroupMarks>, NoMemory>
    requires some { 0 < replay.now.deck.settings.group }
    requires items { All (λ r. r.item < length replay.now.deck.items) others.now }
    ensures { IfOk result (λ marks. HaveMarks replay.now others.now reads.now marks.items) }
{
    let mut marks = Vec::new(alloc);
    for read in reads {
        marks.push(marks_of(alloc, replay, others, read)?)?;
    }
    Ok(marks)
}
