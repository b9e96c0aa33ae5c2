//! What is wrong with a refused deck.

pub(crate) mod ends;
pub(crate) mod limits;
pub(crate) mod names;
pub(crate) mod replans;
pub(crate) mod settings;
pub(crate) mod slips;

use crate::decks::ends::end_note;
use crate::decks::limits::{overdrawn_note, total_note};
use crate::decks::names::{id_note, twice_note, undeclared_note, unread_note};
use crate::decks::replans::lengths_note;
use crate::decks::settings::setting_note;
use crate::decks::slips::slip_note;
use crate::records::before::RecordsBefore;
use crate::records::fields::deck_field_note;
use crate::records::quotes::open_quote_line;
use crate::records::shapes::{count_note, tag_note};
use crate::records::tags::{RecordTag, TaggedForm, deck_form};
use crate::records::{FoundRecord, Kind, Record, find};
use crate::words::sentences::Sentence;
use crate::words::texts::ShownText;
use air_base::{NoMemory, read_u64};
use item_catalog::DeckFault;
use std::alloc::Global;

/// The tags of a deck's records.
const TAGS: &str = "item, disk, replan, update, reader, query, script and set";

/// The name of what a note on a record is about.
fn subject_of<'a>(before: &RecordsBefore, record: &'a Record, known: TaggedForm) -> Sentence<'a> {
    let text = record.field(1);
    let (wording, number) = match known.tag {
        RecordTag::Item if read_u64(text.as_bytes()).is_some() => ("#name# #text# ", 0),
        RecordTag::Disk => ("#name# #first# ", before.disks),
        RecordTag::Replan => ("#name# #first# ", before.edition()),
        RecordTag::Reader => ("#name# #first# ", before.readers),
        _ => ("the #name# ", 0),
    };
    Sentence::words(wording, text, known.name, "").with(number, 0, "")
}

/// What is wrong with a record, or `None` if that isn't found.
fn sentence_of<'a>(found: &'a FoundRecord, known: TaggedForm, kind: u8) -> Option<Sentence<'a>> {
    let FoundRecord { record, before, .. } = found;
    match kind {
        1 => Some(count_note(record, known)),
        2 => deck_field_note(record, known.form),
        3 => Some(id_note(before, record)),
        4 => undeclared_note(before, record, known.tag),
        5 => twice_note(record, known.tag),
        7 => deck_field_note(record, known.form).or(total_note(before, record, known.tag)),
        8 => unread_note(record),
        10 => setting_note(before, record),
        11 => overdrawn_note(before, record),
        13 => Some(lengths_note(record)),
        _ => None,
    }
}

/// What a note is about, and what is wrong, or `None` if that isn't found.
fn note_parts<'a>(found: &'a FoundRecord, kind: u8) -> Option<(Sentence<'a>, Sentence<'a>)> {
    let FoundRecord { record, before, .. } = found;
    let nobody = Sentence::numbers("", 0, 0, 0);
    match found.kind {
        Kind::Record => {}
        Kind::End => return Some((nobody, end_note(before, kind))),
        Kind::Nothing => return None,
    }
    let Some(known) = deck_form(record.field(0)) else {
        return Some((nobody, tag_note(record, TAGS)));
    };
    let sentence = sentence_of(found, known, kind)?;
    let subject = match kind {
        2 | 4 | 5 | 7 => subject_of(before, record, known),
        _ => nobody,
    };
    Some((subject, sentence))
}

/// A note on a deck: the file's name and the line at which the faulty record begins, its row number, and the fault.
pub fn deck_note(
    alloc: Global,
    name: &str,
    bytes: &[u8],
    fault: DeckFault,
) -> Result<String, NoMemory> {
    let row = fault.row;
    let found = find(alloc, bytes, row)?;
    let open_quote = open_quote_line(alloc, bytes, row)?;
    if let Some(sentence) = slip_note(&found, bytes, open_quote, row, fault.kind) {
        let nobody = Sentence::numbers("", 0, 0, 0);
        return found.note(alloc, name, row, nobody, sentence);
    }
    if let Some((subject, sentence)) = note_parts(&found, fault.kind) {
        return found.note(alloc, name, row, subject, sentence);
    }
    let name = ShownText::whole(name);
    let place = found.place();
    Ok(format!(in alloc; "{name}{place}{fault}")?)
}
