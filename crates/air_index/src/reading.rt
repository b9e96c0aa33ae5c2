//! Reading the records of an indexed tape without a copy.

ghost use Rattle.std.specs.Prelude.{◌≡◌, MatchOption};
ghost use Rattle.air_index.specs.Records.{IsNoRecord, IsRecord, indexed_at, payload_at};

use crate::index_view::index_in;
use crate::places::{DATA_HEAD, WAIT, four_at};
use crate::records::Indexed;
use bucket_codec::decode;

/// The data record that bytes spell, if they are one.
fn payload_in<'a>(bytes: &'a [u8]) -> Option<Indexed<'a>>
    ensures { result ≡ payload_at bytes.now }
{
    if bytes.len() < DATA_HEAD || bytes[0] != 1 {
        return None;
    }
    let wait = four_at(bytes, WAIT);
    if wait == 0 {
        return None;
    }
    match decode(&bytes[DATA_HEAD..]) {
        Ok(bucket) => Some(Indexed::Payload { wait, bucket }),
        Err(_) => None,
    }
}

/// The record that bytes spell; nothing if they are no record of an indexed tape.
pub fn indexed<'a>(bytes: &'a [u8]) -> Option<Indexed<'a>>
    ensures read { result ≡ indexed_at bytes.now }
    ensures grammar { MatchOption result (IsNoRecord bytes.now) (λ r. IsRecord bytes.now r) }
{
    match index_in(bytes) {
        Some(index) => Some(Indexed::Index(index)),
        None => payload_in(bytes),
    }
}
