//! Updates and events as cases spell them, and the history of events.
//!
//! An update is spelled as in a deck: the items that it reads, a comma, and its writes, each list with single spaces. A number and a comma come
//! before it: the number of items, or the updater that commits it.

use air_base::limits::MOST_EVENTS;
use air_base::{NoMemory, after_byte, leading_number, read_u64};
use air_history::{Event, History, Update, UpdateFault, Write};
use case_lines::{BadCase, Parts, first_part};
use std::alloc::Global;

/// The items that a text lists.
fn items_of(alloc: Global, text: &[u8], parts: &mut Parts<'_>) -> Result<Vec<u16>, NoMemory> {
    let mut items = Vec::new(alloc);
    let mut rest = text;
    for _ in 0..text.len() {
        if !rest.is_empty() {
            let (item, more) = first_part(rest, b' ');
            items.push(parts.small_of(item))?;
            rest = more;
        }
    }
    Ok(items)
}

/// The write that a text spells, as `3=7`, `3=0+7` or `3=0-7`.
fn write_of(text: &[u8]) -> Option<Write> {
    let (item, rest) = leading_number(text)?;
    let (first, rest) = leading_number(after_byte(rest, b'=')?)?;
    let item = u16::try_from(item).ok()?;
    let (minus, amount) = match rest {
        [] => {
            return Some(Write {
                item,
                base: None,
                minus: false,
                amount: first,
            });
        }
        [b'+', amount @ ..] => (false, amount),
        [b'-', amount @ ..] => (true, amount),
        _ => return None,
    };
    Some(Write {
        item,
        base: Some(u16::try_from(first).ok()?),
        minus,
        amount: read_u64(amount)?,
    })
}

/// The writes that a text lists.
fn writes_of(alloc: Global, text: &[u8], parts: &mut Parts<'_>) -> Result<Vec<Write>, NoMemory> {
    let mut writes = Vec::new(alloc);
    let mut rest = text;
    for _ in 0..text.len() {
        if !rest.is_empty() {
            let (write, more) = first_part(rest, b' ');
            match write_of(write) {
                Some(write) => writes.push(write)?,
                None => parts.refuse(BadCase::NoWrite),
            }
            rest = more;
        }
    }
    Ok(writes)
}

/// The number before the first comma, and the update of the lists after it.
pub fn update_of(alloc: Global, parts: &mut Parts<'_>) -> Result<(u16, Update), UpdateFault> {
    let (number, lists) = first_part(parts.rest(), b',');
    let (reads, writes) = first_part(lists, b',');
    let number = parts.small_of(number);
    let Ok(reads) = items_of(alloc, reads, parts) else {
        return Err(UpdateFault::NoMemory);
    };
    let Ok(writes) = writes_of(alloc, writes, parts) else {
        return Err(UpdateFault::NoMemory);
    };
    Ok((number, Update::new(alloc, &reads, &writes)?))
}

/// The commit of an updater.
pub fn commit_of(alloc: Global, parts: &mut Parts<'_>) -> Result<Event, UpdateFault> {
    let (by, update) = update_of(alloc, parts)?;
    Ok(Event::Commit {
        by: u32::from(by),
        seq: 0,
        update,
    })
}

/// The history of the events, or `None` if there are more than a script has.
#[tactic(auto, using(crate::proofs::Starts::starts_within))]
pub fn history_of(alloc: Global, events: &[Event]) -> Result<Option<History>, NoMemory> {
    let mut copies = Vec::new(alloc);
    for event in events {
        copies.push(copy_of(alloc, event)?)?;
    }
    if copies.len() > MOST_EVENTS {
        return Ok(None);
    }
    Ok(Some(History::from_events(copies)))
}

/// An equal event.
fn copy_of(alloc: Global, event: &Event) -> Result<Event, NoMemory> {
    match event {
        Event::Start => Ok(Event::Start),
        Event::Commit { by, seq, update } => Ok(Event::Commit {
            by: *by,
            seq: *seq,
            update: update.copy(alloc)?,
        }),
    }
}
