//! A named tape that is read in pieces to its end while a tape hearer hears it, and the sessions of a deck's readers over it.

ghost use Rattle.std.specs.Prelude.{◌≡◌, ◌≤◌, [], IfErr, IfOk, MatchResult, OnOk, length};
ghost use Rattle.air_base.specs.declared.limits.TheConstants.{MOST_TAPE_BYTES};
ghost use Rattle.air_cli.specs.NamedFiles.{ReadsInput};
ghost use Rattle.air_cli.specs.HeardTapes.{AreFileSessions, UnheardCause};
ghost use Rattle.air_cli.specs.Private.Pieces.{IsCutBefore, IsOfTape};

pub(crate) mod piece;
pub(crate) mod searches;
pub(crate) mod tape_hearers;
pub(crate) mod whole_records;

use crate::tapes::piece::Piece;
use crate::tapes::tape_hearers::TapeHearer;
use crate::tapes::whole_records::hear_whole_records;
use air_base::limits::MOST_TAPE_BYTES;
use air_devices::Shelf;
use air_report::Status;
use chunk_program::Planned;
use listeners::{Sessions, Together};
use std::alloc::Global;
use std::thread::Threads;

/// The greatest number of bytes of a tape that are read before they are heard, if no record is longer.
pub(crate) const READ_PIECE_BYTES: usize = 4_194_304;

/// The greatest number of bytes of a tape, and the number of bytes that the buffer of a piece has room for at first.
#[derive(Clone, Copy, Debug, PartialEq, Eq)]
pub struct PieceSizes {
    pub tape: usize,
    pub piece: usize,
}

/// The sessions of all readers of a deck over the records of a named tape, which they hear side by side.
pub fn file_sessions<T: Threads + Sync, S: Shelf>(
    threads: &T,
    alloc: Global,
    shelf: &mut S,
    name: &str,
    planned: &Planned,
) -> Result<Sessions, Status>
    ensures heard { IfOk result (AreFileSessions name.now MOST_TAPE_BYTES (S.state shelf.old) planned.now) }
    ensures refused { IfErr result (UnheardCause name.now MOST_TAPE_BYTES (S.state shelf.old) (S.state shelf.new)) }
    ensures reads { ReadsInput name.now result (S.state shelf.old) (S.state shelf.new) }
{
    let sizes = PieceSizes {
        tape: MOST_TAPE_BYTES,
        piece: READ_PIECE_BYTES,
    };
    piece_sessions(threads, alloc, shelf, name, planned, sizes)
}

/// The same, with pieces of the given sizes.
#[tactic(auto, unfolding(crate::specs::HeardTapes::UnheardCause, crate::specs::NamedFiles::UnreadCause))]
pub fn piece_sessions<T: Threads + Sync, S: Shelf>(
    threads: &T,
    alloc: Global,
    shelf: &mut S,
    name: &str,
    planned: &Planned,
    sizes: PieceSizes,
) -> Result<Sessions, Status>
    ensures heard { IfOk result (AreFileSessions name.now sizes.tape (S.state shelf.old) planned.now) }
    ensures refused { IfErr result (UnheardCause name.now sizes.tape (S.state shelf.old) (S.state shelf.new)) }
    ensures reads { ReadsInput name.now result (S.state shelf.old) (S.state shelf.new) }
{
    let mut readers = Together::new(alloc, planned)?;
    hear_pieces(threads, alloc, shelf, name, &mut readers, sizes)?;
    let sessions = readers.end(alloc)?;
    Ok(sessions)
}

/// Lets a tape hearer hear the records of a named tape, piece after piece, to its end.
#[tactic(auto, unfolding(crate::specs::HeardTapes::UnheardCause, crate::specs::NamedFiles::UnreadCause))]
pub(crate) fn hear_pieces<T: Threads + Sync, H: TapeHearer, S: Shelf>(
    threads: &T,
    alloc: Global,
    shelf: &mut S,
    name: &str,
    hearer: &mut H,
    sizes: PieceSizes,
) -> Result<(), Status>
    requires { (first : H) × H.HasHeard [] first hearer.old }
    ensures heard { (first : H) → H.HasHeard [] first hearer.old →
        OnOk result (IsOfTape name.now sizes.tape (S.state shelf.old) (λ records. H.HasHeard records first hearer.new)) }
    ensures refused { IfErr result (UnheardCause name.now sizes.tape (S.state shelf.old) (S.state shelf.new)) }
    ensures reads { ReadsInput name.now result (S.state shelf.old) (S.state shelf.new) }
{
    let Ok(()) = shelf.pick(name) else {
        return Err(Status::ReadFault);
    };
    let mut piece = Piece::new(alloc, sizes.piece)?;
    let mut left = sizes.tape;
    loop {
        let Ok(count) = piece.read(shelf, name, left) else {
            return Err(Status::ReadFault);
        };
        if count == 0 {
            return whole_or_cut(piece.as_slice(), sizes.tape - left);
        }
        if left < count {
            return Err(Status::TooLarge {
                limit: sizes.tape as u64,
            });
        }
        left -= count;
        let heard = hear_whole_records(threads, alloc, hearer, piece.as_slice())?;
        piece.let_go(heard)?;
    }
}

/// Whether a tape of `len` bytes, of which all but `rest` were heard, is whole; if not, it is cut where the rest begins.
fn whole_or_cut(rest: &[u8], len: usize) -> Result<(), Status>
    requires { length rest.now ≤ len }
    ensures { MatchResult result (λ done. rest.now ≡ []) (IsCutBefore rest.now len) }
{
    if rest.is_empty() {
        return Ok(());
    }
    Err(Status::TapeCut {
        at: (len - rest.len()) as u64,
    })
}
