//! These pins fix what `Records` of `item_catalog` takes of a record: one field or two after its tag, and no field of another record.
//! They also fix what a reader of records finds, and what is left of its text.

ghost use Rattle.std.specs.Prelude.{◌≡◌, [], ◌∷◌, codes, false, true, None, IfErr, IfOk, IfSome, IsSome};
ghost use Rattle.csv.specs.Records.{fields_of};

use air_base::NoMemory;
use csv::ByteRecord;
use item_catalog::{Records, one, two};

/// If a record has three fields after its tag, no two are taken from it.
/// Promise: texts are exact
pub fn longer_record_taken(fields: &ByteRecord) -> Option<(&[u8], &[u8])>
    requires { fields_of fields.now ≡ codes "t" ∷ codes "a" ∷ codes "b" ∷ codes "c" ∷ [] }
    ensures { result ≡ None }
{
    two(fields)
}

/// The one field is the one after the tag.
/// Promise: texts are exact
pub fn tag_taken_for_the_field(fields: &ByteRecord) -> Option<&[u8]>
    requires { fields_of fields.now ≡ codes "t" ∷ codes "a" ∷ [] }
    ensures some { IsSome result }
    ensures field { IfSome result (λ field. field.now ≡ codes "a") }
{
    one(fields)
}

/// A record of one field is a record, and the end comes after it.
/// Promise: texts are exact
pub fn record_of_one_field_taken_for_the_end(
    records: &mut Records<'_>,
    fields: &mut ByteRecord,
) -> Result<bool, NoMemory>
    requires { records.old ≡ (codes "start" ∷ []) ∷ [] }
    ensures found { IfOk result (λ found. found ≡ true) }
    ensures fields { IfOk result (λ _. fields_of fields.new ≡ codes "start" ∷ []) }
    ensures left { IfOk result (λ _. records.new ≡ []) }
{
    records.next(fields)
}

/// After out of memory no further record is given, and there are no fields.
/// Promise: a refusal leaves its objects
pub fn record_given_after_no_memory(
    records: &mut Records<'_>,
    fields: &mut ByteRecord,
) -> Result<bool, NoMemory>
    requires { records.old ≡ (codes "start" ∷ []) ∷ (codes "start" ∷ []) ∷ [] }
    ensures left { IfErr result (λ _. records.new ≡ []) }
    ensures fields { IfErr result (λ _. fields_of fields.new ≡ []) }
{
    records.next(fields)
}

/// After the end no record is given, and the end is reached for each later call.
/// Promise: a refusal leaves its objects
pub fn record_given_after_the_end(
    records: &mut Records<'_>,
    fields: &mut ByteRecord,
) -> Result<bool, NoMemory>
    requires { records.old ≡ [] }
    ensures found { IfOk result (λ found. found ≡ false) }
    ensures left { IfOk result (λ _. records.new ≡ []) }
{
    records.next(fields)
}
