//! The tag of a record.

ghost use Rattle.std.specs.Prelude.{◌≡◌, drop};
ghost use Rattle.csv.specs.Records.{fields_of};
ghost use Rattle.air_report.specs.LineTexts.{aged_tag, line_tag, spelled_line, spelled_line_by};

use csv::ByteRecord;

/// The tags of records.
#[derive(Clone, Copy, Debug, PartialEq, Eq)]
pub enum LineTag {
    Commit,
    Start,
    Accept,
    Abort,
    Aged,
    Unfinished,
    Counts,
    Glance,
    Look,
}

/// The tag `aged`, if the version has it.
fn aged_tag(version: u8) -> Option<LineTag>
    ensures { result ≡ aged_tag version }
{
    if version >= 2 {
        Some(LineTag::Aged)
    } else {
        None
    }
}

/// The tag with this name, if the version has it.
fn tag_of(version: u8, text: &[u8]) -> Option<LineTag>
    ensures { result ≡ line_tag version text.now }
{
    if text == b"commit".as_slice() {
        Some(LineTag::Commit)
    } else if text == b"start".as_slice() {
        Some(LineTag::Start)
    } else if text == b"accept".as_slice() {
        Some(LineTag::Accept)
    } else if text == b"abort".as_slice() {
        Some(LineTag::Abort)
    } else if text == b"unfinished".as_slice() {
        Some(LineTag::Unfinished)
    } else if text == b"counts".as_slice() {
        Some(LineTag::Counts)
    } else if text == b"glance".as_slice() {
        Some(LineTag::Glance)
    } else if text == b"look".as_slice() {
        Some(LineTag::Look)
    } else if text == b"aged".as_slice() {
        aged_tag(version)
    } else {
        None
    }
}

/// The tag of a record, if the version has it.
pub fn read_tag(version: u8, fields: &ByteRecord) -> Option<LineTag>
    ensures { spelled_line version (fields_of fields.now) ≡ spelled_line_by result (drop 1 (fields_of fields.now)) }
{
    match fields.get(0) {
        Some(text) => tag_of(version, text),
        None => None,
    }
}
