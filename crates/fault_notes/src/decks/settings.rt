//! Settings that are unknown, were set before, or can't have their value.

ghost use Rattle.std.specs.Prelude.{◌<◌, IfSome};

use crate::records::Record;
use crate::records::before::RecordsBefore;
use crate::words::sentences::{Sentence, range};
use crate::words::texts::{space_of, why_no_number};
use air_base::limits::{
    MOST_CYCLES, MOST_DELTA, MOST_GROUP, MOST_HEARS, MOST_MONITORS, MOST_SHARE, NEWEST_VERSION,
};
use air_base::read_u64;

/// The settings, each with its least and its greatest value; the first has letters for values.
const SETTINGS: [(&str, u64, u64); 11] = [
    ("policy", 0, 0),
    ("delta", 0, MOST_DELTA),
    ("version", 1, NEWEST_VERSION),
    ("group", 0, MOST_GROUP),
    ("cycles", 0, MOST_CYCLES),
    ("seed", 0, u64::MAX),
    ("loss", 0, MOST_SHARE),
    ("again", 0, MOST_SHARE),
    ("late", 0, MOST_SHARE),
    ("monitors", 0, MOST_MONITORS),
    ("hears", 1, MOST_HEARS),
];

/// The place of a setting among them.
pub fn setting_place(name: &str) -> Option<usize>
    ensures { IfSome result (λ place. place < 11) }
{
    for place in 0..SETTINGS.len() {
        if SETTINGS[place].0 == name {
            return Some(place);
        }
    }
    None
}

/// A note that the value of the policy is none of its letters, or `None`.
fn policy_note(text: &str) -> Option<Sentence<'_>> {
    if text == "F" || text == "D" || text == "R" {
        return None;
    }
    let wording = "the setting policy has the value #text#: #why#F, D and R are the values";
    Some(Sentence::words(wording, text, "", space_of(text)))
}

/// A note that a setting's value is no number within its limits, or `None`.
fn value_note<'a>(
    name: &'static str,
    least: u64,
    most: u64,
    text: &'a str,
) -> Option<Sentence<'a>> {
    let (tail, why) = match read_u64(text.as_bytes()) {
        Some(number) if least <= number && number <= most => return None,
        Some(_) => (range(least), ""),
        None => ("#why#", why_no_number(text)),
    };
    let wording = "the setting #name# has the value #text#: ";
    Some(Sentence::words(wording, text, name, why).with(0, most, tail))
}

/// A note that a setting is unknown, was set before, or can't have its value, or `None`.
pub fn setting_note<'a>(before: &RecordsBefore, record: &'a Record) -> Option<Sentence<'a>> {
    let text = record.field(1);
    let Some(place) = setting_place(text) else {
        let wording =
            "there is no setting #text#: #why#policy, delta, version, group, cycles, seed, loss, again, late, monitors and hears are the settings";
        return Some(Sentence::words(wording, text, "", space_of(text)));
    };
    let (name, least, most) = SETTINGS[place];
    if before.set[place] {
        return Some(Sentence::words(
            "the setting #name# was set above: each is set once",
            "",
            name,
            "",
        ));
    }
    let value = record.field(2);
    if place == 0 {
        policy_note(value)
    } else {
        value_note(name, least, most, value)
    }
}
