//! These pins fix what the rooms of `air_devices` keep of bytes and of records, by the room that is left. Of bytes, those that
//! fit are kept; a record is kept whole, with its length, or not at all.

ghost use Rattle.std.specs.Prelude.{◌≡◌, [], ◌∷◌, true, false};

use air_devices::{FixedBytes, TapeRoom};

/// If not all bytes fit, those that fit are added.
/// Promise: a refusal leaves its objects
pub fn print_past_the_room_adds_nothing(text: &mut FixedBytes, bytes: &[u8]) -> bool
    requires text { text.old ≡ record { bytes = 1 ∷ []; room = 3 } }
    requires bytes { bytes.now ≡ 2 ∷ 3 ∷ 4 ∷ [] }
    ensures whole { result ≡ false }
    ensures text { text.new ≡ record { bytes = 1 ∷ 2 ∷ 3 ∷ []; room = 3 } }
{
    text.add(bytes)
}

/// A record needs room for its length too.
/// Promise: buckets and tapes are their grammar
#[tactic(auto, unfolding(air_model::specs::Tapes::tape_of))]
pub fn room_without_the_lengths(tape: &mut TapeRoom, bytes: &[u8]) -> bool
    requires tape { tape.old ≡ record { records = []; room = 5 } }
    requires bytes { bytes.now ≡ 1 ∷ 2 ∷ [] }
    ensures whole { result ≡ false }
    ensures tape { tape.new ≡ record { records = []; room = 5 } }
{
    tape.add(bytes)
}

/// After the record [1] the record [2, 3] is kept with its length, so that the tape is read as both.
/// Promise: buckets and tapes are their grammar
#[tactic(auto, unfolding(air_model::specs::Tapes::tape_of, air_model::specs::Tapes::record_bytes))]
pub fn tape_record_without_its_length(tape: &mut TapeRoom, bytes: &[u8]) -> bool
    requires tape { tape.old ≡ record { records = (1 ∷ []) ∷ []; room = 11 } }
    requires bytes { bytes.now ≡ 2 ∷ 3 ∷ [] }
    ensures whole { result ≡ true }
    ensures tape { tape.new ≡ record { records = (1 ∷ []) ∷ (2 ∷ 3 ∷ []) ∷ []; room = 11 } }
{
    tape.add(bytes)
}
