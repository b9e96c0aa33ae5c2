//! These pins fix what `bucket_codec` answers for small buckets and short tapes, byte by byte.
//! They encode, measure and decode buckets, and they read and write the records of tapes.

ghost use Rattle.std.specs.Prelude.{◌≡◌, ◌++◌, [], ◌∷◌, Err};
ghost use Rattle.air_model.specs.Buckets.{Bucket};
ghost use Rattle.bucket_codec.specs.BucketsToAir.{bucket_to_air};
ghost use Rattle.text_pins.specs.SmallBuckets.{aged, but, bytes_with_ages, column_bytes, cut_at_byte, idle_bucket, idle_bytes, varied};

use air_model::bucket::BucketFault;
use bucket_codec::{
    Bucket, BucketView, TapeFault, TapeReader, decode, encode, size_of, tape_record,
};

/// A tape that is cut gives its fault, and not the bytes that are left of the record.
/// Promise: buckets and tapes are their grammar
pub fn cut_record_given<'a>(reader: &mut TapeReader<'a>) -> Result<Option<&'a [u8]>, TapeFault>
    requires { reader.old ≡ cut_at_byte 7 }
    ensures { result ≡ Err (TapeFault.Cut 7) }
{
    reader.next()
}

/// A reader that met the cut stays there, so it gives the same answer again.
/// Promise: buckets and tapes are their grammar
pub fn reader_goes_on_after_a_cut<'a>(
    reader: &mut TapeReader<'a>,
) -> Result<Option<&'a [u8]>, TapeFault>
    requires { reader.old ≡ cut_at_byte 7 }
    ensures { reader.new ≡ cut_at_byte 7 }
{
    reader.next()
}

/// The length of a record comes before its bytes.
/// Promise: buckets and tapes are their grammar
#[tactic(auto, unfolding(air_model::specs::Tapes::record_bytes))]
pub fn length_always_four(bytes: &[u8], out: &mut [u8]) -> usize
    requires bytes { bytes.now ≡ 7 ∷ [] }
    requires out { out.old ≡ 9 ∷ 9 ∷ 9 ∷ 9 ∷ 9 ∷ 9 ∷ [] }
    ensures len { result ≡ 5 }
    ensures out { out.new ≡ 0 ∷ 0 ∷ 0 ∷ 1 ∷ 7 ∷ 9 ∷ [] }
{
    tape_record(bytes, out)
}

/// The byte after a bucket stays as it was.
/// Promise: buckets and tapes are their grammar
#[tactic(auto, using(crate::proofs::BucketLemmas::slot_has_room))]
pub fn encode_touches_bytes_behind(bucket: &Bucket<'_>, out: &mut [u8]) -> usize
    requires bucket { bucket_to_air bucket.now ≡ idle_bucket }
    requires out { out.old ≡ idle_bytes ++ 9 ∷ [] }
    ensures { out.new ≡ idle_bytes ++ 9 ∷ [] }
{
    encode(bucket, out)
}

/// Three entries take twelve bytes after the head.
/// Promise: buckets and tapes are their grammar
#[tactic(auto, using(crate::proofs::BucketLemmas::varied_size))]
pub fn size_without_the_entries(bucket: &Bucket<'_>) -> usize
    requires { bucket_to_air bucket.now ≡ varied }
    ensures { result ≡ 36 }
{
    size_of(bucket)
}

/// If both version and kind are wrong, the version is reported.
/// Promise: buckets and tapes are their grammar
#[tactic(auto, unfolding(air_model::specs::Buckets::reading))]
pub fn faults_in_another_order<'a>(bytes: &'a [u8]) -> Result<BucketView<'a>, BucketFault>
    requires { bytes.now ≡ but (but idle_bytes 2 3) 3 3 }
    ensures { result ≡ Err BucketFault.Version }
{
    decode(bytes)
}

/// A byte after the entries is a fault of the length.
/// Promise: buckets and tapes are their grammar
#[tactic(auto, unfolding(air_model::specs::Buckets::reading, air_model::specs::Buckets::entry_count))]
pub fn loose_decoder_bytes_after_the_entries<'a>(
    bytes: &'a [u8],
) -> Result<BucketView<'a>, BucketFault>
    requires { bytes.now ≡ column_bytes ++ 0 ∷ [] }
    ensures { result ≡ Err BucketFault.Length }
{
    decode(bytes)
}

/// An idle slot has no entries, for any number of items.
/// Promise: buckets and tapes are their grammar
#[tactic(auto, unfolding(air_model::specs::Buckets::reading, air_model::specs::Buckets::entry_count))]
pub fn loose_decoder_idle_with_entries<'a>(bytes: &'a [u8]) -> Result<BucketView<'a>, BucketFault>
    requires { bytes.now ≡ idle_bytes ++ 0 ∷ 0 ∷ 0 ∷ 0 ∷ 0 ∷ 0 ∷ 0 ∷ 0 ∷ [] }
    ensures { result ≡ Err BucketFault.Length }
{
    decode(bytes)
}

/// An entry of the bucket's own cycle is out of range.
/// Promise: buckets and tapes are their grammar
pub fn loose_decoder_entry_equal_to_the_cycle<'a>(
    bytes: &'a [u8],
) -> Result<BucketView<'a>, BucketFault>
    requires { bytes.now ≡ but column_bytes 31 1 }
    ensures { result ≡ Err BucketFault.Shape }
{
    decode(bytes)
}

/// The slot is read from its own place.
/// Promise: buckets and tapes are their grammar
pub fn slot_read_from_the_item(view: &BucketView<'_>) -> u16
    requires { view.now ≡ varied }
    ensures { result ≡ 5 }
{
    view.slot()
}

// ---- version 2, whose entries are given by their ages

/// In cycle 300 the age 254 gives the entry 46, and an entry 45 is written as 0. A cap one cycle late is no mistake: it gives
/// the same bytes, since an age of 255 is the cap.
/// Promise: buckets and tapes are their grammar
#[tactic(auto, using(crate::proofs::BucketLemmas::aged_has_room))]
pub fn cap_one_cycle_early(bucket: &Bucket<'_>, out: &mut [u8]) -> usize
    requires bucket { bucket_to_air bucket.now ≡ aged (46 ∷ 45 ∷ []) }
    requires out { out.old ≡ idle_bytes ++ 9 ∷ 9 ∷ [] }
    ensures { out.new ≡ bytes_with_ages 1 44 (254 ∷ 255 ∷ []) }
{
    encode(bucket, out)
}

/// Two entries take two bytes after the head.
/// Promise: buckets and tapes are their grammar
#[tactic(auto, using(crate::proofs::BucketLemmas::aged_size))]
pub fn ages_measured_as_entries(bucket: &Bucket<'_>) -> usize
    requires { bucket_to_air bucket.now ≡ aged (46 ∷ 45 ∷ []) }
    ensures { result ≡ 26 }
{
    size_of(bucket)
}

/// No entry is of the bucket's own cycle, so there is no age 0.
/// Promise: buckets and tapes are their grammar
pub fn age_0_let_through<'a>(bytes: &'a [u8]) -> Result<BucketView<'a>, BucketFault>
    requires { bytes.now ≡ bytes_with_ages 0 3 (0 ∷ 255 ∷ []) }
    ensures { result ≡ Err BucketFault.Shape }
{
    decode(bytes)
}

/// Only 255 stands for the entry 0, so no age equals the cycle.
/// Promise: buckets and tapes are their grammar
pub fn age_equal_to_the_cycle<'a>(bytes: &'a [u8]) -> Result<BucketView<'a>, BucketFault>
    requires { bytes.now ≡ bytes_with_ages 0 3 (2 ∷ 3 ∷ []) }
    ensures { result ≡ Err BucketFault.Shape }
{
    decode(bytes)
}

/// Four bytes for each of two entries are too many.
/// Promise: buckets and tapes are their grammar
#[tactic(auto, unfolding(air_model::specs::Buckets::reading, air_model::specs::Buckets::entry_count))]
pub fn ages_of_four_bytes<'a>(bytes: &'a [u8]) -> Result<BucketView<'a>, BucketFault>
    requires { bytes.now ≡ bytes_with_ages 0 3 (0 ∷ 0 ∷ 0 ∷ 1 ∷ 0 ∷ 0 ∷ 0 ∷ 1 ∷ []) }
    ensures { result ≡ Err BucketFault.Length }
{
    decode(bytes)
}

/// The age 254 of cycle 300 is read as the entry 46.
/// Promise: buckets and tapes are their grammar
#[tactic(auto, unfolding(air_model::specs::Buckets::kind_of, air_model::specs::Buckets::count_of, air_model::specs::Buckets::entries_of))]
pub fn age_read_as_the_entry(view: &BucketView<'_>) -> u32
    requires { view.now ≡ aged (46 ∷ 0 ∷ []) }
    ensures { result ≡ 46 }
{
    view.entry(0)
}
