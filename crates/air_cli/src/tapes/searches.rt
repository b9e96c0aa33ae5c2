//! A search for an item on a named tape that is read in pieces.

ghost use Rattle.std.specs.Prelude.{◌≡◌, ◌≤◌, None, IfErr, IfOk, length};
ghost use Rattle.air_base.specs.declared.limits.TheConstants.{MOST_TAPE_BYTES};
ghost use Rattle.air_index.specs.Seeks.{sought};
ghost use Rattle.air_model.specs.Tapes.{tape_read};
ghost use Rattle.air_cli.specs.HeardTapes.{UnheardCause};
ghost use Rattle.air_cli.specs.NamedFiles.{HasBytes, ReadsInput};

use crate::tapes::{PieceSizes, READ_PIECE_BYTES, hear_pieces};
use air_base::limits::MOST_TAPE_BYTES;
use air_devices::Shelf;
use air_index::{Seeker, Sought};
use air_report::Status;
use std::alloc::Global;
use std::thread::Threads;

/// The result of a search for an item on the records of a named tape, from record `from` on.
#[tactic(auto, unfolding(crate::specs::HeardTapes::UnheardCause, crate::specs::NamedFiles::UnreadCause))]
pub(crate) fn file_sought<T: Threads + Sync, S: Shelf>(
    threads: &T,
    alloc: Global,
    shelf: &mut S,
    name: &str,
    item: u16,
    from: u32,
) -> Result<Sought, Status>
    ensures sought { IfOk result (λ answer. HasBytes name.now (S.state shelf.old) (λ bytes. (length bytes ≤ MOST_TAPE_BYTES) × ((tape_read bytes).cut ≡ None) × (answer ≡ sought (tape_read bytes).records item from))) }
    ensures refused { IfErr result (UnheardCause name.now MOST_TAPE_BYTES (S.state shelf.old) (S.state shelf.new)) }
    ensures reads { ReadsInput name.now result (S.state shelf.old) (S.state shelf.new) }
{
    let sizes = PieceSizes {
        tape: MOST_TAPE_BYTES,
        piece: READ_PIECE_BYTES,
    };
    let mut seeker = Seeker::new(item, from);
    hear_pieces(threads, alloc, shelf, name, &mut seeker, sizes)?;
    Ok(seeker.end())
}
