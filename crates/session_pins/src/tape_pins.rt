//! Pins of `file_sessions` and `piece_sessions`: a tape of two records, read in pieces of 40 bytes, so that the second record is divided.
#![tactic(auto)]

ghost use Rattle.std.specs.Prelude.{◌≡◌, [], ◌∷◌, IfErr, IfOk, MatchResult, Some};
ghost use Rattle.air_base.specs.declared.verdicts.VerdictKind.TheVariants.{Accept};
ghost use Rattle.session_pins.specs.SmallBuckets.{cut_tape, pair_tape};
ghost use Rattle.session_pins.specs.SmallDecks.{pair};
ghost use Rattle.session_pins.specs.SmallReceivers.{counted, counts, first_query_line, value_read};
ghost use Rattle.session_pins.specs.Refusals.{IsCutAt, IsUnread};

use air_cli::{PieceSizes, file_sessions, piece_sessions};
use air_devices::Shelf;
use air_report::Status;
use chunk_program::Planned;
use listeners::Sessions;
use std::alloc::Global;
use std::thread::Threads;

/// A whole tape is heard, or its file can't be read, or the call is out of memory: it is not cut.
/// Promise: every answer is a named one
pub fn always_a_cut_tape<T: Threads + Sync, S: Shelf>(
    threads: &T,
    alloc: Global,
    shelf: &mut S,
    name: &str,
    planned: &Planned,
) -> Result<Sessions, Status>
    requires deck { planned.now ≡ pair }
    requires file { (S.state shelf.old).told.file name.now ≡ Some pair_tape }
    ensures { IfErr result IsUnread }
{
    file_sessions(threads, alloc, shelf, name, planned)
}

/// The record that a piece's end divides is put together again (divided record lost), and each record is heard (records of a piece lost, last piece
/// left out), and heard once (records heard again). A tape may be as long as its limit (tape at its limit refused).
/// Promise: tune prints its session
pub fn carried_rest_forgotten<T: Threads + Sync, S: Shelf>(
    threads: &T,
    alloc: Global,
    shelf: &mut S,
    name: &str,
    planned: &Planned,
) -> Result<Sessions, Status>
    requires deck { planned.now ≡ pair }
    requires file { (S.state shelf.old).told.file name.now ≡ Some pair_tape }
    ensures verdicts { IfOk result (λ s. s.verdicts.items ≡ first_query_line 0 Accept (value_read 0 1 10 ∷ value_read 1 1 20 ∷ []) ∷ []) }
    ensures lines { IfOk result (λ s. s.counts.items ≡ counted 0 (counts 2 0 0 0 0 0) ∷ []) }
    ensures refused { IfErr result IsUnread }
{
    let sizes = PieceSizes {
        tape: 72,
        piece: 40,
    };
    piece_sessions(threads, alloc, shelf, name, planned, sizes)
}

/// A tape that ends inside a record is cut where that record begins, at the tape's own byte.
/// Promise: tune prints its session
pub fn cut_at_the_byte_of_its_piece<T: Threads + Sync, S: Shelf>(
    threads: &T,
    alloc: Global,
    shelf: &mut S,
    name: &str,
    planned: &Planned,
) -> Result<Sessions, Status>
    requires deck { planned.now ≡ pair }
    requires file { (S.state shelf.old).told.file name.now ≡ Some cut_tape }
    ensures { MatchResult result (λ _. ⊥) (IsCutAt 36) }
{
    let sizes = PieceSizes {
        tape: 72,
        piece: 40,
    };
    piece_sessions(threads, alloc, shelf, name, planned, sizes)
}
