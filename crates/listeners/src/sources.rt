//! What a cycle of a deck is aired from: the board of its start, or the board by groups of that board if the deck has groups.

ghost use Rattle.std.specs.Prelude.{◌≡◌, ◌++◌, ◌∷◌, [], List};
ghost use Rattle.air_history.specs.declared.histories.Event.{Event};
ghost use Rattle.air_history.specs.declared.histories.Event.TheVariants.{Start};
ghost use Rattle.air_history.specs.Boards.{board_of};
ghost use Rattle.air_model.specs.Decks.{values_in};
ghost use Rattle.air_sender.specs.DeckGroups.{HasGroups};
ghost use Rattle.listeners.specs.AiredCycles.{AirsFrom};

use chunk_program::Planned;
use control_matrix::Board;
use group_matrix::GroupBoard;

/// Fills a deck's board by groups from the board of a cycle's start, so that the cycle is aired from it. A deck without groups has none: its
/// cycle is aired from the board.
pub fn fill_groups(planned: &Planned, board: &Board, groups: &mut Option<GroupBoard>)
    requires stepped { (G : List Event) × (board.now ≡ board_of (values_in planned.now) (G ++ Start ∷ [])) }
    requires groups { HasGroups planned.now groups.old }
    ensures source { (G : List Event) → board.now ≡ board_of (values_in planned.now) (G ++ Start ∷ []) → AirsFrom planned.now G board.now groups.new }
    ensures groups { HasGroups planned.now groups.new }
{
    planned.shows_planned();
    match groups {
        None => {}
        Some(groups) => groups.fill(board),
    }
}
