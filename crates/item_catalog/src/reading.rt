//! Decks read from texts: the tag of a record, and one walk over the records, each read once and not kept.

ghost use Rattle.std.specs.Prelude.{◌≡◌, ◌≤◌, drop, length, IfErr, IfOk, None};
ghost use Rattle.csv.specs.Records.{fields_of};
ghost use Rattle.air_base.specs.declared.limits.TheConstants.{MOST_DECK_BYTES};
ghost use Rattle.item_catalog.specs.RecordKinds.{first_of};
ghost use Rattle.item_catalog.specs.Declarations.{declaration_by, spelled_declaration, tag_of};
ghost use Rattle.item_catalog.specs.Private.Drafts.{deck_from};
ghost use Rattle.item_catalog.specs.Private.ReadEnds.{CanEnd, EndsBy};
ghost use Rattle.item_catalog.specs.Faults.{end_tests};
ghost use Rattle.item_catalog.specs.Grammar.{IsErrorOf, Spells};

use crate::deck::Deck;
use crate::deck::draft::Draft;
use crate::faults::DeckError;
use crate::records::Records;
use crate::records::refusals::Refusal;
use csv::ByteRecord;
use std::alloc::Global;

/// The tags of records.
#[derive(Clone, Copy, Debug, PartialEq, Eq)]
pub(crate) enum Tag {
    Item,
    Disk,
    Replan,
    Update,
    Reader,
    Query,
    Script,
    Set,
}

/// The tag of this name.
fn tag_of(text: &[u8]) -> Option<Tag>
    ensures { result ≡ tag_of text.now }
{
    if text == b"item".as_slice() {
        Some(Tag::Item)
    } else if text == b"disk".as_slice() {
        Some(Tag::Disk)
    } else if text == b"update".as_slice() {
        Some(Tag::Update)
    } else if text == b"reader".as_slice() {
        Some(Tag::Reader)
    } else if text == b"query".as_slice() {
        Some(Tag::Query)
    } else if text == b"script".as_slice() {
        Some(Tag::Script)
    } else if text == b"set".as_slice() {
        Some(Tag::Set)
    } else if text == b"replan".as_slice() {
        Some(Tag::Replan)
    } else {
        None
    }
}

/// The tag of a record.
pub(crate) fn read_tag(fields: &ByteRecord) -> Option<Tag>
    ensures { spelled_declaration (fields_of fields.now) ≡ declaration_by result (drop 1 (fields_of fields.now)) }
{
    match fields.get(0) {
        Some(text) => tag_of(text),
        None => None,
    }
}

/// The deck of the draft, if no kind applies at the end, which is the record of this number.
fn finish(draft: Draft, row: u32) -> Result<Deck, DeckError>
    requires { CanEnd draft }
    ensures deck { IfOk result (λ deck. (first_of (end_tests (length draft.items) draft.disks draft.replans draft.set) ≡ None) × (deck ≡ deck_from draft)) }
    ensures fault { IfErr result (EndsBy row (first_of (end_tests (length draft.items) draft.disks draft.replans draft.set))) }
{
    match draft.end_kind() {
        Some(kind) => Err(DeckError::at(row, kind)),
        None => Ok(draft.into_deck()),
    }
}

/// The deck that a text spells, or the first faulty record of the text with the least kind that applies there.
pub fn read_deck(alloc: Global, bytes: &[u8]) -> Result<Deck, DeckError>
    requires limit { length bytes.now ≤ MOST_DECK_BYTES }
    ensures deck { IfOk result (Spells bytes.now) }
    ensures fault { IfErr result (IsErrorOf bytes.now) }
{
    let mut draft = Draft::new(alloc)?;
    let mut records = Records::new(alloc, bytes);
    let mut record = ByteRecord::new(alloc);
    for row in 1..u32::MAX {
        if !records.next(&mut record)? {
            return finish(draft, row);
        }
        match draft.add(alloc, &record) {
            Ok(()) => {}
            Err(Refusal::Kind(kind)) => return Err(DeckError::at(row, kind)),
            Err(Refusal::NoMemory) => return Err(DeckError::NoMemory),
        }
    }
    unreachable!()
}
