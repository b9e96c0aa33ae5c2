//! The laws of the tape: its records and the byte at which it is cut are what is read.
//!
//! `specs/Tapes.antt` has the definitions. The codec and the reader of a tape depend on them.

ghost use Rattle.std.specs.Prelude.{◌≡◌, ◌↔◌, ℕ, List, Some, None};
ghost use Rattle.air_model.specs.Buckets.{AreBytes};
ghost use Rattle.air_model.specs.Tapes.{IsCutTape, IsTape, tape_read};

/// Bytes are the tape of these records if and only if these are read and nothing is cut. So a tape has one list of records.
pub fn whole_tape_law()
    ensures { (bytes : List ℕ) (records : List (List ℕ)) → AreBytes bytes →
        IsTape bytes records ↔ (tape_read bytes ≡ record { records = records; cut = None }) }
{}

/// Bytes are cut at a byte if and only if they are read as cut there. So a tape is cut, and at one byte, if and only if it is
/// no list of whole records.
pub fn cut_tape_law()
    ensures { (bytes : List ℕ) (records : List (List ℕ)) (at : ℕ) → AreBytes bytes →
        IsCutTape bytes records at ↔ (tape_read bytes ≡ record { records = records; cut = Some at }) }
{}
