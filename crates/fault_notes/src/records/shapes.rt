//! Notes on the number of a record's fields, and on an unknown tag.

use crate::records::Record;
use crate::records::tags::{TaggedForm, has_list};
use crate::words::sentences::Sentence;
use crate::words::texts::{has_outer_space, is_digits};

/// How many digits a group of a number has.
const GROUP_DIGITS: usize = 3;

/// Whether two neighbouring fields look like one number with a comma between its thousands.
fn has_groups(record: &Record) -> bool {
    let mut is_number = false;
    for place in 1..record.len() {
        let text = record.field(place).as_bytes();
        if is_number && text.len() == GROUP_DIGITS && is_digits(text) {
            return true;
        }
        is_number = text.len() <= GROUP_DIGITS && is_digits(text);
    }
    false
}

/// Why a record may have more fields than its form; empty if no reason is found.
fn why_more(record: &Record, known: TaggedForm) -> &'static str {
    if has_list(known.tag) {
        ": the parts of a list are separated by spaces"
    } else if has_groups(record) {
        ": no comma stands within a number"
    } else {
        ""
    }
}

/// A note that the record has another number of fields than its form.
pub fn count_note<'a>(record: &Record, known: TaggedForm) -> Sentence<'a> {
    let count = record.len() as u64;
    let wanted = known.form.split(',').count() as u64;
    let tail = if wanted < count {
        why_more(record, known)
    } else {
        ""
    };
    let wording = if count == 1 {
        "it has 1 field, and #why# has #second#"
    } else {
        "it has #first# fields, and #why# has #second#"
    };
    Sentence::words(wording, "", "", known.form).with(count, wanted, tail)
}

/// A note that the record's tag is none of those that are known.
pub fn tag_note<'a>(record: &'a Record, name: &'static str) -> Sentence<'a> {
    let text = record.field(0);
    let wording = if has_outer_space(text) {
        "the tag is #text#: it has a space, and is none of #name#"
    } else {
        "the tag is #text#: none of #name#"
    };
    Sentence::words(wording, text, name, "")
}
