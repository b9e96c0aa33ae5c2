//! Common mistakes in the text of a deck: encoding, separators, quotes, comments, header lines and capitals.

use crate::records::quotes::is_utf_16;
use crate::records::tags::known_tag;
use crate::records::{FoundRecord, Kind, Record};
use crate::words::sentences::Sentence;

/// What a comment begins with in other formats.
const COMMENTS: [&str; 5] = ["#", "//", "--", ";", "%"];

/// Whether a tag begins a comment.
fn begins_comment(tag: &str) -> bool {
    for mark in COMMENTS {
        if tag.trim_start().starts_with(mark) {
            return true;
        }
    }
    false
}

/// The separators of other formats that a field contains, or `None`.
fn separators_in(text: &str) -> Option<&'static str> {
    if text.contains(';') {
        Some("semicolons")
    } else if text.contains('\t') {
        Some("tabs")
    } else {
        None
    }
}

/// A note that the fields of a record are separated by something other than commas, or `None`.
fn separator_note(record: &Record) -> Option<Sentence<'static>> {
    for place in 0..record.len() {
        if let Some(name) = separators_in(record.field(place)) {
            let wording = "it has #name# between its fields, and commas separate fields";
            return Some(Sentence::words(wording, "", name, ""));
        }
    }
    None
}

/// Whether a text has a digit.
fn has_digit(text: &str) -> bool {
    for byte in text.as_bytes() {
        if byte.is_ascii_digit() {
            return true;
        }
    }
    false
}

/// Whether a record has no digit in any of its fields, and more fields than one.
fn is_wordy(record: &Record) -> bool {
    for place in 0..record.len() {
        if has_digit(record.field(place)) {
            return false;
        }
    }
    1 < record.len()
}

/// A note on why the tag of the record at a row number is unknown, or `None` if no reason is found.
fn tag_slip(record: &Record, row: u32) -> Option<Sentence<'_>> {
    let tag = record.field(0);
    if begins_comment(tag) {
        return Some(Sentence::words("the tag is #text#: a deck has no comments", tag, "", ""));
    }
    if let Some(sentence) = separator_note(record) {
        return Some(sentence);
    }
    if let Some(name) = known_tag(tag) {
        let wording = "the tag is #text#: it is written #name#, in small letters";
        return Some(Sentence::words(wording, tag, name, ""));
    }
    if row == 1 && is_wordy(record) {
        let wording = "the tag is #text#: a deck has no header line";
        return Some(Sentence::words(wording, tag, "", ""));
    }
    None
}

/// A note that a field has a line feed, or `None`.
fn line_feed_note(record: &Record) -> Option<Sentence<'_>> {
    for place in 0..record.len() {
        let text = record.field(place);
        if text.contains('\n') || text.contains('\r') {
            let wording =
                "the field #text# has a line feed: a quote opens in it and closes on a later line";
            return Some(Sentence::words(wording, text, "", ""));
        }
    }
    None
}

/// A note that a quote never closes, or closes on a later line, or `None`.
fn quote_note(record: &Record, open_quote: Option<u64>) -> Option<Sentence<'_>> {
    if let Some(line) = open_quote {
        let wording = "the quote that opens in line #first# never closes";
        return Some(Sentence::numbers(wording, line, 0, 0));
    }
    line_feed_note(record)
}

/// Whether the record at a row number looks like the header line of a table of items.
fn is_item_header(record: &Record, row: u32) -> bool {
    let tag = record.field(0);
    row == 1 && tag == "item" && is_wordy(record)
}

/// A note on a common mistake in a record with a fault of this kind, or `None`.
fn record_slip(record: &Record, row: u32, kind: u8) -> Option<Sentence<'_>> {
    if kind == 1 {
        return separator_note(record);
    }
    if kind == 2 && is_item_header(record, row) {
        let wording = "its fields have no number: a deck has no header line";
        return Some(Sentence::numbers(wording, 0, 0, 0));
    }
    if kind == 9 {
        return tag_slip(record, row);
    }
    None
}

/// A note on a common mistake in a text with a fault of this kind at this row number, or `None`. `open_quote` is the line of an opening quote of the
/// record that never closes.
pub fn slip_note<'a>(
    found: &'a FoundRecord,
    bytes: &[u8],
    open_quote: Option<u64>,
    row: u32,
    kind: u8,
) -> Option<Sentence<'a>> {
    if is_utf_16(bytes) {
        return Some(Sentence::numbers("the text is UTF-16, and a deck is UTF-8", 0, 0, 0));
    }
    if !matches!(found.kind, Kind::Record) {
        return None;
    }
    let record = &found.record;
    let sentence = match kind {
        1 | 2 | 9 | 10 => quote_note(record, open_quote),
        _ => None,
    };
    sentence.or(record_slip(record, row, kind))
}
