//! Totals that pass a limit, numbers of a script, and updaters that commit more updates than they have.

use crate::decks::replans::early_note;
use crate::records::Record;
use crate::records::before::RecordsBefore;
use crate::records::lists::{Test, first_failing};
use crate::records::tags::RecordTag;
use crate::words::sentences::Sentence;
use air_base::limits::{
    MOST_DISKS, MOST_EVENTS, MOST_ITEMS, MOST_QUERIES, MOST_READERS, MOST_REPLANS, MOST_STARTS,
    MOST_UPDATERS, MOST_UPDATES,
};

/// A note that a total is above its limit, or `None`.
fn total(count: u64, name: &'static str, most: u64) -> Option<Sentence<'static>> {
    if count <= most {
        return None;
    }
    let wording = "makes #first# #name#: at most #second#";
    Some(Sentence::words(wording, "", name, "").with(count, most, ""))
}

/// A note on the first updater of a script record whose number is too great, or `None`.
fn passing_updater(events: &str) -> Option<Sentence<'static>> {
    let (_, by) = first_failing(events, Test::Item(MOST_UPDATERS as u64))?;
    let wording = "has updater #first#: at most #second#";
    Some(Sentence::numbers(wording, by, MOST_UPDATERS as u64 - 1, 0))
}

/// A note that a script record passes a limit, or `None`.
fn script_note(before: &RecordsBefore, record: &Record) -> Option<Sentence<'static>> {
    let mut all = *before;
    all.add_events(record.field(1));
    passing_updater(record.field(1))
        .or(total(all.events, "events", MOST_EVENTS as u64))
        .or(total(all.starts, "starts", MOST_STARTS as u64))
}

/// A note that with this record a total passes a limit, or that its script has an updater with too great a number, or `None`.
pub fn total_note(
    before: &RecordsBefore,
    record: &Record,
    tag: RecordTag,
) -> Option<Sentence<'static>> {
    if tag == RecordTag::Replan {
        return total(before.edition(), "replans", MOST_REPLANS as u64).or(early_note(
            before, record,
        ));
    }
    let (before, name, most) = match tag {
        RecordTag::Item => (before.items, "items", MOST_ITEMS as u64),
        RecordTag::Disk => (before.disks, "disks", MOST_DISKS as u64),
        RecordTag::Update => (before.updates, "updates", MOST_UPDATES as u64),
        RecordTag::Reader => (before.readers, "readers", MOST_READERS as u64),
        RecordTag::Query => (before.queries, "queries", MOST_QUERIES as u64),
        _ => return script_note(before, record),
    };
    total(before.saturating_add(1), name, most)
}

/// A note that an updater commits more updates than are declared before the record, or `None`.
pub fn overdrawn_note(before: &RecordsBefore, record: &Record) -> Option<Sentence<'static>> {
    let mut all = *before;
    all.add_events(record.field(1));
    for by in 0..MOST_UPDATERS {
        let committed = all.commits_by[by];
        let there = all.updates_by[by];
        if there < committed {
            let wording = if committed == 1 {
                "up to here the script commits 1 update of updater #last#, which has "
            } else {
                "up to here the script commits #first# updates of updater #last#, which has "
            };
            let sentence = Sentence::numbers(wording, committed, 0, by as u64);
            return Some(sentence.only(there, "update", "updates"));
        }
    }
    None
}
