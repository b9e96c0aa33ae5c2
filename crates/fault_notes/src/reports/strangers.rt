//! Lines of a report that name what the deck doesn't have: updates, readers, queries, attempts, items and monitors.

use crate::records::Record;
use crate::records::before::RecordsBefore;
use crate::records::lists::{item_of, parts_in, times_in};
use crate::records::tags::RecordTag;
use crate::words::sentences::Sentence;
use air_base::limits::MOST_UPDATERS;
use item_catalog::Deck;

/// The number of updates of an updater in the deck.
fn updates_of(deck: &Deck, by: u64) -> u64 {
    if by < deck.updaters() as u64 {
        deck.updates(by as u32).len() as u64
    } else {
        0
    }
}

/// The number of updates of an updater that the records above commit.
fn committed_by(before: &RecordsBefore, by: u64) -> u64 {
    if by < MOST_UPDATERS as u64 {
        before.commits_by[by as usize]
    } else {
        0
    }
}

/// A note that a commit isn't its updater's next in the deck.
pub fn commit_note(deck: &Deck, before: &RecordsBefore, record: &Record) -> Sentence<'static> {
    let by = record.number(1);
    let there = updates_of(deck, by);
    let next = committed_by(before, by);
    let seq = record.number(2);
    if next < there {
        let wording =
            "has the seq #first#, and #second# is the next of updater #last#: the commits of an updater run from 0 without a gap";
        return Sentence::numbers(wording, seq, next, by);
    }
    let wording = if there == 0 {
        "has the updater #last#, of which the deck has "
    } else {
        "has the seq #first#, and each update of updater #last# is committed above it: the deck has "
    };
    Sentence::numbers(wording, seq, 0, by).only(there, "update", "updates")
}

/// A note that a number is no reader or monitor of the deck, which has this many, or `None`.
fn stranger(
    number: u64,
    count: u64,
    one: &'static str,
    several: &'static str,
) -> Option<Sentence<'static>> {
    if number < count {
        return None;
    }
    let wording = "has the #why# #first#, and the deck has ";
    Some(Sentence::numbers(wording, number, 0, 0).only(count, one, several))
}

/// A note on the first read that isn't of the query's item in its place, or `None`.
fn read_note(query: &[u16], reads: &str) -> Option<Sentence<'static>> {
    let mut rest = query;
    for part in reads.split(' ') {
        let first = item_of(part)?;
        let Some((item, more)) = rest.split_first() else {
            let wording = "has item #first# among its reads, behind the last item of its query";
            return Some(Sentence::numbers(wording, first, 0, 0));
        };
        rest = more;
        let second = *item as u64;
        if first != second {
            let wording =
                "has item #first# among its reads in the place of item #second#: reads stand in the order of the query";
            return Some(Sentence::numbers(wording, first, second, 0));
        }
    }
    None
}

/// A note that the refused read isn't of the item that the query has next, or `None`.
fn refused_note(next: u64, record: &Record) -> Option<Sentence<'static>> {
    let first = item_of(record.field(5))?;
    if first == next {
        return None;
    }
    let wording = "has the refused item #first#, and item #second# is the next of its query";
    Some(Sentence::numbers(wording, first, next, 0))
}

/// A note that the clash of an abort is no item of its reads, or `None`.
fn clash_note(record: &Record) -> Option<Sentence<'static>> {
    let first = record.number(6);
    if 0 < times_in(record.field(4), first) {
        return None;
    }
    let wording = "has the clash #first#, which is no item of its reads";
    Some(Sentence::numbers(wording, first, 0, 0))
}

/// A note that the reads of an attempt don't follow its query, or `None`.
fn items_note(query: &[u16], record: &Record, tag: RecordTag) -> Option<Sentence<'static>> {
    if let Some(sentence) = read_note(query, record.field(4)) {
        return Some(sentence);
    }
    let count = parts_in(record.field(4));
    let wording = match query.get(count as usize) {
        Some(_) if tag == RecordTag::Accept => {
            "has #first# of the #second# items of its query, and an accept has each"
        }
        Some(item) if tag == RecordTag::Abort => {
            return refused_note(*item as u64, record).or(clash_note(record));
        }
        Some(item) if tag == RecordTag::Aged => return refused_note(*item as u64, record),
        Some(_) => return None,
        None if tag == RecordTag::Accept => return None,
        None => "has each item of its query, as an accept alone has",
    };
    Some(Sentence::numbers(wording, count, query.len() as u64, 0))
}

/// A note that a verdict isn't on an attempt of the deck, by its reader, its attempt, its query or its items, or `None`.
fn attempt_note(deck: &Deck, record: &Record, tag: RecordTag) -> Option<Sentence<'static>> {
    let last = record.number(1);
    let readers = deck.readers() as u64;
    if readers <= last {
        return stranger(last, readers, "reader", "readers");
    }
    let reader = last as u32;
    let first = record.number(3);
    let second = deck.reader(reader).tries as u64;
    if first < 1 || second < first {
        let wording = "has the attempt #first#: for reader #last# it is 1 to #second#";
        return Some(Sentence::numbers(wording, first, second, last));
    }
    let first = record.number(2);
    let count = deck.queries(reader) as u64;
    if first < count {
        return items_note(deck.query(reader, first as u32), record, tag);
    }
    let wording = "has the query #first#, and reader #last# has ";
    Some(Sentence::numbers(wording, first, 0, last).only(count, "query", "queries"))
}

/// A note that what a line names isn't the deck's, or `None`.
pub fn stranger_note(deck: &Deck, record: &Record, tag: RecordTag) -> Option<Sentence<'static>> {
    let number = record.number(1);
    match tag {
        RecordTag::Counts => stranger(number, deck.readers() as u64, "reader", "readers"),
        RecordTag::Glance | RecordTag::Look => {
            let count = deck.settings().monitors as u64;
            stranger(number, count, "monitor", "monitors")
        }
        _ => attempt_note(deck, record, tag),
    }
}
