//! What is wrong with a refused report.

pub(crate) mod strangers;

use crate::records::before::RecordsBefore;
use crate::records::fields::report_field_note;
use crate::records::lists::{Test, first_failing};
use crate::records::shapes::{count_note, tag_note};
use crate::records::tags::{RecordTag, TaggedForm, report_form, section};
use crate::records::{FoundRecord, Kind, Record, find};
use crate::reports::strangers::{commit_note, stranger_note};
use crate::words::sentences::Sentence;
use air_base::NoMemory;
use item_catalog::Deck;
use std::alloc::Global;

/// The tags of a report's lines if no attempt ends as aged, and if one may.
const TAGS: [&str; 2] = [
    "start, commit, accept, abort, unfinished, counts, glance and look",
    "start, commit, accept, abort, aged, unfinished, counts, glance and look",
];

/// The place of a line, compared with that of a later one above it, if no attempt ends as aged, and if one may.
const ORDERS: [&str; 2] = [
    "stands below the #name# line of record #first#: first come start and commit, then accept, abort and unfinished, then counts, then glance, then look",
    "stands below the #name# line of record #first#: first come start and commit, then accept, abort, aged and unfinished, then counts, then glance, then look",
];

/// The rules that a line of a report may break, by the numbers of the faults' kinds; no kind has the number 0.
const RULES: [&str; 8] = [
    "it has a fault",
    "its tag has another number of fields",
    "a field, or a part of its reads, isn't of its form, or its number is too great",
    "its tag is unknown",
    "a line of a later section stands above it",
    "its commit isn't the next one of its updater in the deck",
    "its reader, query, attempt or monitor isn't the deck's, or its items don't follow the query",
    "a cycle of it hasn't been started above it",
];

/// The rule that a fault of this kind breaks.
fn rule_of(kind: u8) -> Sentence<'static> {
    let rules = RULES;
    let place = kind as usize;
    let rule = if place < rules.len() {
        rules[place]
    } else {
        rules[0]
    };
    Sentence::numbers(rule, 0, 0, 0)
}

/// Whether the deck is given, and its attempts may end as aged.
fn may_age(deck: Option<&Deck>) -> bool {
    match deck {
        Some(deck) => 2 <= deck.settings().version,
        None => false,
    }
}

/// A note that the tag isn't one of the report's. For `aged` it says that the deck has another version.
fn unknown_tag_note<'a>(deck: Option<&Deck>, record: &'a Record) -> Sentence<'a> {
    if report_form(record.field(0)).is_some() {
        let wording = "the tag is #text#: only reports of decks of version 2 have it";
        return Sentence::words(wording, record.field(0), "", "");
    }
    tag_note(record, if may_age(deck) { TAGS[1] } else { TAGS[0] })
}

/// The row number and the name of a line of a later section above, or `None`.
fn later_line(before: &RecordsBefore, tag: RecordTag) -> Option<(u32, &'static str)> {
    for place in section(tag) + 1..5 {
        if before.begun[place].is_some() {
            return before.begun[place];
        }
    }
    None
}

/// A note that a line of a later section is above, or `None`.
fn order_note(
    deck: Option<&Deck>,
    before: &RecordsBefore,
    tag: RecordTag,
) -> Option<Sentence<'static>> {
    let (row, name) = later_line(before, tag)?;
    let wording = if may_age(deck) { ORDERS[1] } else { ORDERS[0] };
    Some(Sentence::words(wording, "", name, "").with(row as u64, 0, ""))
}

/// A note that a cycle which a line names hasn't been started above it.
fn cycle_note<'a>(starts: u64, record: &'a Record, tag: RecordTag) -> Sentence<'a> {
    let (wording, text) = match tag {
        RecordTag::Glance | RecordTag::Look => (
            "has the cycle #text#: it is at most the number of start lines above, which is #second#",
            record.field(2),
        ),
        _ => match first_failing(record.field(4), Test::Cycle(starts)) {
            Some((text, _)) => (
                "has #text# among its reads: its cycle is from 1 to the number of start lines above, which is #second#",
                text,
            ),
            None => (
                "has the refused read #text#: its cycle is from 1 to the number of start lines above, which is #second#",
                record.field(5),
            ),
        },
    };
    Sentence::words(wording, text, "", "").with(0, starts, "")
}

/// What is wrong with a line of a report, or `None` if that isn't found.
fn sentence_of<'a>(
    deck: Option<&Deck>,
    found: &'a FoundRecord,
    known: TaggedForm,
    kind: u8,
) -> Option<Sentence<'a>> {
    let FoundRecord { record, before, .. } = found;
    match (kind, deck) {
        (1, _) => Some(count_note(record, known)),
        (2, _) => report_field_note(record, known.form),
        (4, _) => order_note(deck, before, known.tag),
        (5, Some(deck)) => Some(commit_note(deck, before, record)),
        (6, Some(deck)) => stranger_note(deck, record, known.tag),
        (7, _) => Some(cycle_note(before.starts, record, known.tag)),
        _ => None,
    }
}

/// What a note is about, and what is wrong.
fn note_parts<'a>(
    deck: Option<&Deck>,
    found: &'a FoundRecord,
    kind: u8,
) -> (Sentence<'a>, Sentence<'a>) {
    let nobody = Sentence::numbers("", 0, 0, 0);
    let record = &found.record;
    if !matches!(found.kind, Kind::Record) {
        return (nobody, rule_of(kind));
    }
    let known = match report_form(record.field(0)) {
        Some(known) if kind != 3 => known,
        _ => return (nobody, unknown_tag_note(deck, record)),
    };
    match sentence_of(deck, found, known, kind) {
        Some(sentence) if kind == 1 => (nobody, sentence),
        Some(sentence) => (
            Sentence::words("the #name# line ", "", known.name, ""),
            sentence,
        ),
        None => (nobody, rule_of(kind)),
    }
}

/// A note on a report: the file's name and the line at which the faulty record begins, its row number, and the fault. If the deck is given, also what
/// of it the record would have to name.
pub fn report_note(
    alloc: Global,
    name: &str,
    deck: Option<&Deck>,
    bytes: &[u8],
    row: u32,
    kind: u8,
) -> Result<String, NoMemory> {
    let found = find(alloc, bytes, row)?;
    let (subject, sentence) = note_parts(deck, &found, kind);
    found.note(alloc, name, row, subject, sentence)
}
