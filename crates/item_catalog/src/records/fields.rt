//! The fields after a record's tag, if there is the right number of them.

ghost use Rattle.std.specs.Prelude.{◌≡◌, ◌<◌, drop, length, option_map, Some};
ghost use Rattle.csv.specs.Records.{field_at, fields_of};
ghost use Rattle.air_base.specs.Parts.{one_of, three_of, two_of};
ghost use Rattle.item_catalog.specs.RecordFields.{five_of, four_of, seven_of, six_of};

use csv::ByteRecord;

/// The field at a place.
#[tactic(auto, using(crate::proofs::FieldLemmas::field_there))]
fn field(fields: &ByteRecord, place: usize) -> &[u8]
    requires { place < length (fields_of fields.now) }
    ensures { Some result.now ≡ field_at (fields_of fields.now) place }
{
    match fields.get(place) {
        Some(field) => field,
        None => unreachable!(),
    }
}

/// The one field, if there is just one.
#[tactic(auto, using(crate::proofs::FieldLemmas::one_field, crate::proofs::FieldLemmas::other_than_one))]
pub fn one(fields: &ByteRecord) -> Option<&[u8]>
    ensures { option_map (λ f. f.now) result ≡ one_of (drop 1 (fields_of fields.now)) }
{
    if fields.len() != 2 {
        return None;
    }
    Some(field(fields, 1))
}

/// The two fields, if there are just two.
#[tactic(auto, using(crate::proofs::FieldLemmas::two_fields, crate::proofs::FieldLemmas::other_than_two))]
pub fn two(fields: &ByteRecord) -> Option<(&[u8], &[u8])>
    ensures { option_map (λ f. (f.0.now, f.1.now)) result ≡ two_of (drop 1 (fields_of fields.now)) }
{
    if fields.len() != 3 {
        return None;
    }
    Some((field(fields, 1), field(fields, 2)))
}

/// The three fields, if there are just three.
#[tactic(auto, using(crate::proofs::FieldLemmas::three_fields, crate::proofs::FieldLemmas::other_than_three))]
pub fn three(fields: &ByteRecord) -> Option<(&[u8], &[u8], &[u8])>
    ensures { option_map (λ f. (f.0.now, f.1.now, f.2.now)) result ≡ three_of (drop 1 (fields_of fields.now)) }
{
    if fields.len() != 4 {
        return None;
    }
    Some((field(fields, 1), field(fields, 2), field(fields, 3)))
}

/// The four fields, if there are just four.
#[tactic(auto, using(crate::proofs::FieldLemmas::four_fields, crate::proofs::FieldLemmas::other_than_four))]
pub fn four(fields: &ByteRecord) -> Option<(&[u8], &[u8], &[u8], &[u8])>
    ensures { option_map (λ f. (f.0.now, f.1.now, f.2.now, f.3.now)) result ≡ four_of (drop 1 (fields_of fields.now)) }
{
    if fields.len() != 5 {
        return None;
    }
    Some((
        field(fields, 1),
        field(fields, 2),
        field(fields, 3),
        field(fields, 4),
    ))
}

/// The five fields, if there are just five.
#[tactic(auto, using(crate::proofs::ManyFieldLemmas::five_fields, crate::proofs::ManyFieldLemmas::other_than_five))]
pub fn five(fields: &ByteRecord) -> Option<(&[u8], &[u8], &[u8], &[u8], &[u8])>
    ensures { option_map (λ f. (f.0.now, f.1.now, f.2.now, f.3.now, f.4.now)) result ≡ five_of (drop 1 (fields_of fields.now)) }
{
    if fields.len() != 6 {
        return None;
    }
    Some((
        field(fields, 1),
        field(fields, 2),
        field(fields, 3),
        field(fields, 4),
        field(fields, 5),
    ))
}

/// The six fields, if there are just six.
#[tactic(auto, using(crate::proofs::ManyFieldLemmas::six_fields, crate::proofs::ManyFieldLemmas::other_than_six))]
pub fn six(fields: &ByteRecord) -> Option<(&[u8], &[u8], &[u8], &[u8], &[u8], &[u8])>
    ensures { option_map (λ f. (f.0.now, f.1.now, f.2.now, f.3.now, f.4.now, f.5.now)) result ≡ six_of (drop 1 (fields_of fields.now)) }
{
    if fields.len() != 7 {
        return None;
    }
    Some((
        field(fields, 1),
        field(fields, 2),
        field(fields, 3),
        field(fields, 4),
        field(fields, 5),
        field(fields, 6),
    ))
}

/// The seven fields, if there are just seven.
#[tactic(auto, using(crate::proofs::ManyFieldLemmas::seven_fields, crate::proofs::ManyFieldLemmas::other_than_seven))]
pub fn seven(fields: &ByteRecord) -> Option<(&[u8], &[u8], &[u8], &[u8], &[u8], &[u8], &[u8])>
    ensures { option_map (λ f. (f.0.now, f.1.now, f.2.now, f.3.now, f.4.now, f.5.now, f.6.now)) result ≡ seven_of (drop 1 (fields_of fields.now)) }
{
    if fields.len() != 8 {
        return None;
    }
    Some((
        field(fields, 1),
        field(fields, 2),
        field(fields, 3),
        field(fields, 4),
        field(fields, 5),
        field(fields, 6),
        field(fields, 7),
    ))
}
