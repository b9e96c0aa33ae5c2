//! The fields of records: what each has to spell, and within which limits.

use crate::records::Record;
use crate::records::lists::{first_outside, parts_in};
use crate::words::sentences::{Sentence, range};
use crate::words::texts::{parted_at, parted_at_sign, why_no_number};
use air_base::limits::{
    MOST_AGE, MOST_ASKED, MOST_CYCLES, MOST_DISKS, MOST_FREQ, MOST_RATE, MOST_READS, MOST_ROOM,
    MOST_SIZE, MOST_TRIES, MOST_UPDATERS, MOST_WRITES,
};
use air_base::read_u64;

/// What a field is, or each part of its list.
#[derive(Clone, Copy)]
enum Sort {
    Number,
    Frequency,
    Place,
    Items,
    Sizes,
    Frequencies,
    Writes,
    Events,
    Reads,
}

/// A field as forms write it, its name, and its limits: of the number, or of the length of the list.
type Field = (&'static str, &'static str, Sort, u64, u64);

/// The greatest number of 32 bits.
const SHORT: u64 = u32::MAX as u64;

/// The greatest updater.
const LAST_UPDATER: u64 = MOST_UPDATERS as u64 - 1;

/// The fields of a deck's records.
const DECK: [Field; 17] = [
    ("<id>", "id", Sort::Number, 0, u64::MAX),
    ("<value>", "value", Sort::Number, 0, u64::MAX),
    ("<rate>", "rate", Sort::Number, 0, MOST_RATE),
    ("<size>", "size", Sort::Number, 1, MOST_SIZE),
    ("<freq>", "frequency", Sort::Frequency, 1, MOST_FREQ),
    ("<cycle>", "cycle", Sort::Number, 2, MOST_CYCLES),
    ("<sizes>", "sizes", Sort::Sizes, 1, MOST_DISKS as u64),
    ("<freqs>", "frequencies", Sort::Frequencies, 0, u64::MAX),
    ("<by>", "updater", Sort::Number, 0, LAST_UPDATER),
    ("<reads>", "reads", Sort::Items, 0, MOST_READS as u64),
    ("<writes>", "writes", Sort::Writes, 1, MOST_WRITES as u64),
    ("<room>", "room", Sort::Number, 0, MOST_ROOM),
    ("<age>", "age", Sort::Number, 0, MOST_AGE),
    ("<tries>", "number of tries", Sort::Number, 1, MOST_TRIES),
    ("<reader>", "reader", Sort::Number, 0, u64::MAX),
    ("<items>", "items", Sort::Items, 1, MOST_ASKED as u64),
    ("<events>", "events", Sort::Events, 0, u64::MAX),
];

/// The fields of a report's records.
const REPORT: [Field; 17] = [
    ("<by>", "updater", Sort::Number, 0, SHORT),
    ("<seq>", "seq", Sort::Number, 0, SHORT),
    ("<reader>", "reader", Sort::Number, 0, SHORT),
    ("<query>", "query", Sort::Number, 0, SHORT),
    ("<attempt>", "attempt", Sort::Number, 0, SHORT),
    ("<reads>", "reads", Sort::Reads, 0, u64::MAX),
    ("<item>@<cycle>", "refused read", Sort::Place, 0, u64::MAX),
    ("<clash>", "clash", Sort::Number, 0, u16::MAX as u64),
    ("<opened>", "count of opened", Sort::Number, 0, u64::MAX),
    ("<dozed>", "count of dozed", Sort::Number, 0, u64::MAX),
    ("<late>", "count of late", Sort::Number, 0, u64::MAX),
    ("<refused>", "count of refused", Sort::Number, 0, u64::MAX),
    ("<foreign>", "count of foreign", Sort::Number, 0, u64::MAX),
    ("<copied>", "count of copied", Sort::Number, 0, u64::MAX),
    ("<monitor>", "monitor", Sort::Number, 0, SHORT),
    ("<cycle>", "cycle", Sort::Number, 0, SHORT),
    ("<total>", "total", Sort::Number, 0, u64::MAX),
];

/// The field that a form writes like this.
fn field_in(fields: &[Field], written: &str) -> Option<Field> {
    for field in fields {
        if field.0 == written {
            return Some(*field);
        }
    }
    None
}

/// Whether a text spells a number up to `most`.
fn is_number(text: &[u8], most: u64) -> bool {
    match read_u64(text) {
        Some(number) => number <= most,
        None => false,
    }
}

/// Why a text is no item at a cycle, or `None` if it is one. `told` is why, if it has no `@`.
fn why_no_place(text: &[u8], told: &'static str) -> Option<&'static str> {
    let Some((item, cycle)) = parted_at(text, b'@') else {
        return Some(told);
    };
    if !is_number(item, u16::MAX as u64) {
        return Some("its item isn't a number up to 65535");
    }
    if !is_number(cycle, SHORT) {
        return Some("its cycle isn't a number up to 4294967295");
    }
    None
}

/// Why a text is no read, or `None` if it is one.
fn why_no_read(text: &[u8]) -> Option<&'static str> {
    let told = "it isn't item@cycle=value";
    let Some((place, value)) = parted_at(text, b'=') else {
        return Some(told);
    };
    let why = why_no_place(place, told);
    if why.is_none() && !is_number(value, u64::MAX) {
        return Some("its value isn't a number up to 18446744073709551615");
    }
    why
}

/// Whether a text spells a write.
fn is_write(text: &[u8]) -> bool {
    let Some((item, value)) = parted_at(text, b'=') else {
        return false;
    };
    if !is_number(item, u64::MAX) {
        return false;
    }
    match parted_at_sign(value) {
        Some((base, amount)) => is_number(base, u64::MAX) && is_number(amount, u64::MAX),
        None => is_number(value, u64::MAX),
    }
}

impl Sort {
    /// Whether the field is a list.
    fn is_list(self) -> bool {
        matches!(
            self,
            Sort::Items
                | Sort::Sizes
                | Sort::Frequencies
                | Sort::Writes
                | Sort::Events
                | Sort::Reads
        )
    }

    /// Why a field or a part of a list isn't of this form, or `None` if it is.
    fn why_not(self, text: &str) -> Option<&'static str> {
        let bytes = text.as_bytes();
        match self {
            Sort::Place => why_no_place(bytes, "it isn't item@cycle"),
            Sort::Reads => why_no_read(bytes),
            Sort::Writes if is_write(bytes) => None,
            Sort::Writes => { Some("none of item=amount, item=base+amount and item=base-amount") }
            _ if is_number(bytes, u64::MAX) => None,
            Sort::Frequency if text == "-" => None,
            Sort::Frequencies if text == "-" => None,
            Sort::Frequencies => Some("neither - nor a number"),
            Sort::Events if text == "s" => None,
            Sort::Events => Some("neither s nor the number of an updater"),
            _ => Some(why_no_number(text)),
        }
    }
}

/// The marks of writes with a space before or after them.
const SPACED_MARKS: [&str; 6] = [" =", "= ", " +", "+ ", " -", "- "];

/// Whether a write of the list has a space within it.
fn has_inner_space(list: &str) -> bool {
    for mark in SPACED_MARKS {
        if list.contains(mark) {
            return true;
        }
    }
    false
}

/// A note on the first part of a list that isn't of its form, or `None`.
fn list_note<'a>(name: &'static str, sort: Sort, list: &'a str) -> Option<Sentence<'a>> {
    if list.is_empty() {
        return None;
    }
    if matches!(sort, Sort::Writes) && has_inner_space(list) {
        let wording = "has #text# among its #name#: no space stands within a write";
        return Some(Sentence::words(wording, list, name, ""));
    }
    for text in list.split(' ') {
        if text.is_empty() {
            let wording =
                "has an empty part among its #name#: one space stands between two parts, and none at the ends";
            return Some(Sentence::words(wording, text, name, ""));
        }
        if let Some(why) = sort.why_not(text) {
            return Some(Sentence::words("has #text# among its #name#: #why#", text, name, why));
        }
    }
    None
}

/// A note that a field isn't of its form, or `None`.
fn field_note<'a>(field: Field, text: &'a str) -> Option<Sentence<'a>> {
    let (_, name, sort, _, _) = field;
    if sort.is_list() {
        return list_note(name, sort, text);
    }
    let why = sort.why_not(text)?;
    let wording = if matches!(sort, Sort::Frequency) {
        "has the #name# #text#: no single -, and #why#"
    } else {
        "has the #name# #text#: #why#"
    };
    Some(Sentence::words(wording, text, name, why))
}

/// A note that a size or a frequency of a list passes its limit, or `None`, as for any other list.
fn part_note<'a>(name: &'static str, sort: Sort, list: &str) -> Option<Sentence<'a>> {
    let most = match sort {
        Sort::Sizes => MOST_SIZE,
        Sort::Frequencies => MOST_FREQ,
        _ => return None,
    };
    let number = first_outside(list, 1, most)?;
    let wording = "has #first# among its #name#: each is ";
    Some(Sentence::words(wording, "", name, "").with(number, most, range(1)))
}

/// A note that a field passes a limit, or `None`.
fn limit_note<'a>(field: Field, text: &'a str) -> Option<Sentence<'a>> {
    let (_, name, sort, least, most) = field;
    let (wording, number) = if sort.is_list() {
        ("has #first# #name#: ", parts_in(text))
    } else {
        ("has the #name# #first#: ", read_u64(text.as_bytes())?)
    };
    if least <= number && number <= most {
        return part_note(name, sort, text);
    }
    Some(Sentence::words(wording, "", name, "").with(number, most, range(least)))
}

/// A note on the first field of a record that isn't of its form, or that passes a limit, or `None`.
fn first_note<'a>(
    record: &'a Record,
    form: &str,
    fields: &[Field],
    by_limit: bool,
) -> Option<Sentence<'a>> {
    let mut place = 0_usize;
    for written in form.split(',') {
        let text = record.field(place);
        place = place.saturating_add(1);
        let Some(field) = field_in(fields, written) else {
            continue;
        };
        let sentence = if by_limit {
            limit_note(field, text)
        } else {
            field_note(field, text)
        };
        if sentence.is_some() {
            return sentence;
        }
    }
    None
}

/// A note on the first field of a record that isn't of its form, or else on the first that passes a limit, or `None`.
fn faulty_field_note<'a>(record: &'a Record, form: &str, fields: &[Field]) -> Option<Sentence<'a>> {
    match first_note(record, form, fields, false) {
        Some(sentence) => Some(sentence),
        None => first_note(record, form, fields, true),
    }
}

/// A note that a field of a deck's record isn't of its form, or passes a limit, or `None`.
pub fn deck_field_note<'a>(record: &'a Record, form: &str) -> Option<Sentence<'a>> {
    faulty_field_note(record, form, &DECK)
}

/// A note that a field of a report's record isn't of its form, or is above its range, or `None`.
pub fn report_field_note<'a>(record: &'a Record, form: &str) -> Option<Sentence<'a>> {
    faulty_field_note(record, form, &REPORT)
}
