//! A cycle of a deck on the air: sent from the board of its start, or from the board by groups of that board if the deck has groups.

ghost use Rattle.std.specs.Prelude.{◌≡◌, ◌+◌, ◌*◌, ◌++◌, ◌∷◌, [], ℕ, List, OnOk, length};
ghost use Rattle.air_history.specs.declared.histories.Event.{Event};
ghost use Rattle.air_history.specs.declared.histories.Event.TheVariants.{Start};
ghost use Rattle.air_model.specs.Buckets.{entry_len};
ghost use Rattle.air_sender.specs.AiredBytes.{aired_bytes};
ghost use Rattle.air_sender.specs.TapeMasts.{told_by_tape};
ghost use Rattle.bucket_codec.specs.declared.offsets.TheConstants.{HEAD_BYTES};
ghost use Rattle.listeners.specs.AiredCycles.{AirsAfter, AirsFrom};

use air_base::NoMemory;
use air_sender::{
    Source, TapeMast, air_source, below_law, groups_below_law, own_cycle_law, own_form,
};
use chunk_program::Planned;
use control_matrix::Board;
use group_matrix::GroupBoard;

/// Airs the cycle of a source, with the program in force in it.
fn air_from<S: Source>(
    planned: &Planned,
    source: &S,
    piece: &mut TapeMast,
    room: &mut [u8],
) -> Result<(), NoMemory>
    requires source { (G : List Event) × AirsAfter planned.now G (S.board source.now) }
    requires allowed { S.airs planned.now.settings.policy }
    requires room { length room.old ≡ HEAD_BYTES + entry_len planned.now.settings.version * length planned.now.items }
    ensures aired { (G : List Event) (before : List (List ℕ)) → AirsAfter planned.now G (S.board source.now) → aired_bytes planned.now G ≡ before ++ (told_by_tape piece.old).buckets →
        OnOk result (aired_bytes planned.now (G ++ Start ∷ []) ≡ before ++ (told_by_tape piece.new).buckets) }
    ensures room { length room.new ≡ length room.old }
{
    own_cycle_law();
    below_law();
    groups_below_law();
    planned.shows_planned();
    let program = planned.plans().in_force(source.its_cycle());
    match air_source(program, source, own_form(planned), piece, room) {
        Ok(()) => Ok(()),
        Err(_) => Err(NoMemory),
    }
}

/// Airs the cycle of a board, or of its board by groups if there is one.
pub(crate) fn air_board(
    planned: &Planned,
    board: &Board,
    groups: &Option<GroupBoard>,
    piece: &mut TapeMast,
    room: &mut [u8],
) -> Result<(), NoMemory>
    requires source { (G : List Event) × AirsFrom planned.now G board.now groups.now }
    requires room { length room.old ≡ HEAD_BYTES + entry_len planned.now.settings.version * length planned.now.items }
    ensures aired { (G : List Event) (before : List (List ℕ)) → AirsFrom planned.now G board.now groups.now → aired_bytes planned.now G ≡ before ++ (told_by_tape piece.old).buckets →
        OnOk result (aired_bytes planned.now (G ++ Start ∷ []) ≡ before ++ (told_by_tape piece.new).buckets) }
    ensures room { length room.new ≡ length room.old }
{
    match groups {
        None => air_from(planned, board, piece, room),
        Some(groups) => air_from(planned, groups, piece, room),
    }
}
