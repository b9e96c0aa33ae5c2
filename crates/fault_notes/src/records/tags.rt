//! The records of decks and reports: the tag of each, and its form.

ghost use Rattle.std.specs.Prelude.{◌<◌};

/// The tags of records.
#[derive(Clone, Copy, PartialEq, Eq)]
pub enum RecordTag {
    Item,
    Disk,
    Replan,
    Update,
    Reader,
    Query,
    Script,
    Set,
    Start,
    Commit,
    Accept,
    Abort,
    Aged,
    Unfinished,
    Counts,
    Glance,
    Look,
}

/// A kind of record: its tag, the tag's name, and the form.
#[derive(Clone, Copy)]
pub struct TaggedForm {
    pub tag: RecordTag,
    pub name: &'static str,
    pub form: &'static str,
}

/// A record that is known by its tag.
type KnownRecord = (RecordTag, &'static str, &'static str);

/// The records of a deck.
const DECK: [KnownRecord; 8] = [
    (RecordTag::Item, "item", "item,<id>,<value>,<rate>"),
    (RecordTag::Disk, "disk", "disk,<size>,<freq>"),
    (
        RecordTag::Replan,
        "replan",
        "replan,<cycle>,<sizes>,<freqs>",
    ),
    (RecordTag::Update, "update", "update,<by>,<reads>,<writes>"),
    (RecordTag::Reader, "reader", "reader,<room>,<age>,<tries>"),
    (RecordTag::Query, "query", "query,<reader>,<items>"),
    (RecordTag::Script, "script", "script,<events>"),
    (RecordTag::Set, "set", "set,<name>,<value>"),
];

/// The records of a report.
const REPORT: [KnownRecord; 9] = [
    (RecordTag::Start, "start", "start"),
    (RecordTag::Commit, "commit", "commit,<by>,<seq>"),
    (
        RecordTag::Accept,
        "accept",
        "accept,<reader>,<query>,<attempt>,<reads>",
    ),
    (
        RecordTag::Abort,
        "abort",
        "abort,<reader>,<query>,<attempt>,<reads>,<item>@<cycle>,<clash>",
    ),
    (
        RecordTag::Aged,
        "aged",
        "aged,<reader>,<query>,<attempt>,<reads>,<item>@<cycle>",
    ),
    (
        RecordTag::Unfinished,
        "unfinished",
        "unfinished,<reader>,<query>,<attempt>,<reads>",
    ),
    (
        RecordTag::Counts,
        "counts",
        "counts,<reader>,<opened>,<dozed>,<late>,<refused>,<foreign>,<copied>",
    ),
    (
        RecordTag::Glance,
        "glance",
        "glance,<monitor>,<cycle>,<total>",
    ),
    (RecordTag::Look, "look", "look,<monitor>,<cycle>,<total>"),
];

/// The record with this name in a table.
fn form_in(rows: &[KnownRecord], wanted: &str) -> Option<TaggedForm> {
    for (tag, name, form) in rows {
        if *name == wanted {
            return Some(TaggedForm {
                tag: *tag,
                name,
                form,
            });
        }
    }
    None
}

/// The record of a deck with this name.
pub fn deck_form(name: &str) -> Option<TaggedForm> {
    form_in(&DECK, name)
}

/// The name of the record of a deck that differs from this one only in capitals.
pub fn known_tag(wanted: &str) -> Option<&'static str> {
    for (_, name, _) in &DECK {
        if name.eq_ignore_ascii_case(wanted) {
            return Some(name);
        }
    }
    None
}

/// The record of a report with this name.
pub fn report_form(name: &str) -> Option<TaggedForm> {
    form_in(&REPORT, name)
}

/// The section of a report to which a record belongs: history, verdicts, counts, glances and looks.
pub fn section(tag: RecordTag) -> usize
    ensures { result < 5 }
{
    match tag {
        RecordTag::Accept | RecordTag::Abort | RecordTag::Aged | RecordTag::Unfinished => 1,
        RecordTag::Counts => 2,
        RecordTag::Glance => 3,
        RecordTag::Look => 4,
        _ => 0,
    }
}

/// Whether the records of a tag have a list.
pub fn has_list(tag: RecordTag) -> bool {
    matches!(
        tag,
        RecordTag::Replan
            | RecordTag::Update
            | RecordTag::Query
            | RecordTag::Script
            | RecordTag::Accept
            | RecordTag::Abort
            | RecordTag::Aged
            | RecordTag::Unfinished
    )
}
