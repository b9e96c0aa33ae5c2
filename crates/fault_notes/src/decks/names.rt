//! Items and readers that are named: out of turn, undeclared, twice, or as a base that isn't read.

use crate::records::Record;
use crate::records::before::RecordsBefore;
use crate::records::lists::{Test, first_failing};
use crate::records::tags::RecordTag;
use crate::words::sentences::Sentence;

/// A note that an item's id isn't the number of items before it.
pub fn id_note<'a>(before: &RecordsBefore, record: &'a Record) -> Sentence<'a> {
    let wording =
        "the item has the id #text#, and #first# is the next: ids run from 0 without a gap";
    Sentence::words(wording, record.field(1), "", "").with(before.items, 0, "")
}

/// A note on the first part of a list that names an item which isn't declared, or `None`.
fn first_undeclared<'a>(
    list: &str,
    test: Test<'_>,
    name: &'a str,
    items: u64,
) -> Option<Sentence<'a>> {
    let (_, item) = first_failing(list, test)?;
    let wording = "has item #first# among its #text#, and up to here the deck has ";
    let sentence = Sentence::words(wording, name, "", "").with(item, 0, "");
    Some(sentence.only(items, "item", "items"))
}

/// A note that an item or a reader isn't declared before the record, or `None`.
pub fn undeclared_note(
    before: &RecordsBefore,
    record: &Record,
    tag: RecordTag,
) -> Option<Sentence<'static>> {
    let items = before.items;
    let writes = record.field(3);
    if tag == RecordTag::Update {
        return first_undeclared(record.field(2), Test::Item(items), "reads", items)
            .or(first_undeclared(writes, Test::Item(items), "writes", items))
            .or(first_undeclared(writes, Test::Base(items), "bases", items));
    }
    let reader = record.number(1);
    if reader < before.readers {
        return first_undeclared(record.field(2), Test::Item(items), "items", items);
    }
    let wording = "is of reader #first#, and up to here the deck has ";
    Some(Sentence::numbers(wording, reader, 0, 0).only(before.readers, "reader", "readers"))
}

/// A note that an item is in a list twice, or `None`.
pub fn twice_note(record: &Record, tag: RecordTag) -> Option<Sentence<'static>> {
    let reads = record.field(2);
    let writes = record.field(3);
    let (wording, item) = match first_failing(reads, Test::Once(reads)) {
        Some((_, item)) if tag == RecordTag::Query => (
            "has item #first# twice: each stands once",
            item,
        ),
        Some((_, item)) => (
            "has item #first# twice among its reads: each stands once",
            item,
        ),
        None => {
            let (_, item) = first_failing(writes, Test::Once(writes))?;
            (
                "has item #first# twice among its writes: each stands once",
                item,
            )
        }
    };
    Some(Sentence::numbers(wording, item, 0, 0))
}

/// A note that a base isn't among the reads, or `None`.
pub fn unread_note(record: &Record) -> Option<Sentence<'_>> {
    let (text, base) = first_failing(record.field(3), Test::Read(record.field(2)))?;
    let wording =
        "the write #text# has item #first# for its base, and the update doesn't have it among its reads";
    Some(Sentence::words(wording, text, "", "").with(base, 0, ""))
}
