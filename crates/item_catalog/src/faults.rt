//! Why a text is no deck: the kinds of fault, each with its number, and the fault that is reported.

ghost use Rattle.std.specs.Prelude.{◌≡◌};
ghost use Rattle.item_catalog.specs.Kinds.{deck_kind_number};

use air_base::NoMemory;
use std::error::Error;
use std::fmt;

/// A kind of fault. Each has a number: of those that apply to a record, the one with the least number is reported.
#[derive(Clone, Copy, Debug, PartialEq, Eq)]
pub enum FaultKind {
    /// The number of fields isn't that of the tag.
    Fields,
    /// A field, or a part of a list, isn't of its form.
    Form,
    /// An item's id isn't the number of items before it.
    Id,
    /// An item or a reader isn't declared before it.
    Undeclared,
    /// An item is twice in a list.
    Twice,
    /// The sizes of the disks, or of those of a replan, don't add up to the number of items.
    Sizes,
    /// A limit is passed, or there is no item or no disk.
    Limit,
    /// A base isn't among the reads.
    Unread,
    /// The tag is unknown.
    Tag,
    /// The setting is unknown, was set before, or has no such value; or there are groups with a policy that has none.
    Setting,
    /// An updater commits more updates than it has.
    Overdrawn,
    /// A replan doesn't have as many sizes as frequencies.
    Lengths,
}

impl FaultKind {
    /// The number of the kind.
    pub fn code(self) -> u8
        ensures { result ≡ deck_kind_number self }
    {
        match self {
            FaultKind::Fields => 1,
            FaultKind::Form => 2,
            FaultKind::Id => 3,
            FaultKind::Undeclared => 4,
            FaultKind::Twice => 5,
            FaultKind::Sizes => 6,
            FaultKind::Limit => 7,
            FaultKind::Unread => 8,
            FaultKind::Tag => 9,
            FaultKind::Setting => 10,
            FaultKind::Overdrawn => 11,
            FaultKind::Lengths => 13,
        }
    }
}

/// The sentence for the kind of each number; no kind has the number 0 or 12.
const SENTENCES: [&str; 14] = [
    "there is a fault",
    "its tag has another number of fields",
    "a field isn't of its form",
    "an item's id isn't the number of items before it",
    "an item or a reader isn't declared before it",
    "an item stands twice in a list",
    "the sizes of the disks, or those of a replan, don't add up to the number of items",
    "a limit is passed, or there is no item or no disk",
    "a base isn't among the reads",
    "its tag is unknown",
    "its setting is unknown, was set before, or has no such value; or there are groups, and the policy isn't F",
    "an updater commits more updates than it has",
    "there is a fault",
    "the sizes and the frequencies of a replan aren't as many",
];

/// The first faulty record of a text, counted from 1, and the least kind of fault that applies there. The end is the record
/// after the last.
#[derive(Clone, Copy, Debug, PartialEq, Eq)]
pub struct DeckFault {
    pub row: u32,
    pub kind: u8,
}

impl fmt::Display for DeckFault {
    fn fmt<W: fmt::Write>(&self, f: &mut fmt::Formatter<W>) -> fmt::Result {
        let what = match SENTENCES.get(usize::from(self.kind)) {
            Some(sentence) => sentence,
            None => SENTENCES[0],
        };
        write!(f, "record {}: {what}", self.row)
    }
}

impl Error for DeckFault {}

/// Why there is no deck.
#[derive(Clone, Copy, Debug, PartialEq, Eq)]
pub enum DeckError {
    /// The text has this fault.
    Fault(DeckFault),
    /// There was no memory.
    NoMemory,
}

impl DeckError {
    /// The fault of this kind at this record.
    pub(crate) fn at(row: u32, kind: FaultKind) -> DeckError
        ensures { result ≡ DeckError.Fault (record { row = row; kind = deck_kind_number kind }) }
    {
        DeckError::Fault(DeckFault {
            row,
            kind: kind.code(),
        })
    }
}

impl fmt::Display for DeckError {
    fn fmt<W: fmt::Write>(&self, f: &mut fmt::Formatter<W>) -> fmt::Result {
        match self {
            DeckError::Fault(fault) => write!(f, "{fault}"),
            DeckError::NoMemory => f.write_str("out of memory"),
        }
    }
}

impl Error for DeckError {}

impl From<NoMemory> for DeckError {
    ghost use Rattle.std.specs.Prelude.{◌≡◌};
    ghost use Rattle.item_catalog.specs.declared.faults.DeckError.TheVariants.{NoMemory};

    ghost from_gives = { λ _ e. e ≡ NoMemory };

    fn from(_error: NoMemory) -> Self {
        DeckError::NoMemory
    }
}
