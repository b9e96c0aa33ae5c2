//! The records of a text, one after another, each read once and not kept.
//!
//! Contracts see `Records` as the records that are still to be given.

ghost use Rattle.std.specs.Prelude.{◌≡◌, ◌∷◌, [], false, IfOk, MatchResult, if◌then◌else◌};
ghost use Rattle.csv.specs.Records.{fields_of};
ghost use Rattle.item_catalog.specs.Records.{records_of};

pub mod fields;
pub mod refusals;

use air_base::NoMemory;
use csv::{ByteRecord, Reader, ReaderBuilder};
use std::alloc::Global;
use std::marker::Model;

/// The records of a text, read one by one. After it ran out of memory it gives no more.
#[derive(Drop)]
pub struct Records<'a> {
    reader: Reader<&'a [u8]>,
    has_ended: bool,
}

impl<'a> Model for Records<'a> {
    ghost use Rattle.std.specs.Prelude.{List, ℕ};
    ghost use Rattle.item_catalog.specs.RecordsLeft.{RecordsKept, records_seen};

    ghost Value = { List (List (List ℕ)) };

    ghost view = { records_seen };

    ghost invariant = { RecordsKept };
}

impl<'a> Records<'a> {
    /// The records of a text, before the first.
    pub fn new(alloc: Global, text: &'a [u8]) -> Records<'a>
        ensures { result ≡ records_of text.now }
    {
        Records {
            reader: ReaderBuilder::new()
                .has_headers(false)
                .flexible(true)
                .from_reader(alloc, text),
            has_ended: false,
        }
    }

    /// Takes the next record, and says whether there is one. Out of memory there are no fields, and no later call gives a
    /// record.
    pub fn next(&mut self, fields: &mut ByteRecord) -> Result<bool, NoMemory>
        ensures taken { MatchResult result (λ found. self.old ≡ (if found then fields_of fields.new ∷ self.new else [])) (λ _. (self.new ≡ []) × (fields_of fields.new ≡ [])) }
        ensures ended { IfOk result (λ found. found ≡ false → self.new ≡ []) }
    {
        if self.has_ended {
            return Ok(false);
        }
        let Ok(found) = self.reader.read_byte_record(fields) else {
            self.has_ended = true;
            fields.clear();
            return Err(NoMemory);
        };
        self.has_ended = !found;
        Ok(found)
    }
}
