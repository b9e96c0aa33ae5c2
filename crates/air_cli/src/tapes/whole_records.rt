//! The whole records at the beginning of a piece of a tape, which a tape hearer hears.

ghost use Rattle.std.specs.Prelude.{◌≡◌, ◌<◌, ◌+◌, ◌^◌, ◌++◌, ℕ, List, IfOk, OnOk, length};
ghost use Rattle.air_model.specs.Tapes.{tape_read};
ghost use Rattle.air_cli.specs.Private.Pieces.{AreWholeRecords};

use crate::tapes::tape_hearers::TapeHearer;
use air_base::NoMemory;
use bucket_codec::{TapeFault, check_tape};
use std::alloc::Global;
use std::thread::Threads;

/// Lets a tape hearer hear the whole records at the beginning of a piece, and returns their number of bytes. After them comes nothing, or a record
/// that the piece's end divides.
pub(crate) fn hear_whole_records<T: Threads + Sync, H: TapeHearer>(
    threads: &T,
    alloc: Global,
    hearer: &mut H,
    piece: &[u8],
) -> Result<usize, NoMemory>
    requires { (first : H) × (so_far : List (List ℕ)) × H.HasHeard so_far first hearer.old × (length so_far + length (tape_read piece.now).records < 2 ^ 64) }
    ensures heard { (first : H) (so_far : List (List ℕ)) → H.HasHeard so_far first hearer.old →
        OnOk result (H.HasHeard (so_far ++ (tape_read piece.now).records) first hearer.new) }
    ensures beginning { IfOk result (AreWholeRecords piece.now) }
{
    let len = whole_records_len(piece);
    hearer.hear_piece(threads, alloc, &piece[..len])?;
    Ok(len)
}

/// How many bytes the whole records at the beginning of a piece have.
fn whole_records_len(piece: &[u8]) -> usize
    ensures { AreWholeRecords piece.now result }
{
    match cut_of(piece) {
        Some(at) => at as usize,
        None => piece.len(),
    }
}

/// The byte at which a piece is cut, if it is.
fn cut_of(piece: &[u8]) -> Option<u64>
    ensures { result ≡ (tape_read piece.now).cut }
{
    match check_tape(piece) {
        Ok(()) => None,
        Err(TapeFault::Cut { at }) => Some(at),
    }
}
