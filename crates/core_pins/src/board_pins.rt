//! These pins of `control_matrix` say what a board of two items is after an event, and what its calls give.
//!
//! The board is in cycle 2; its item 1 was written in cycle 1, from item 0.
#![tactic(auto, unfolding(control_matrix::specs::BoardSteps::step_board, air_history::specs::Histories::is_start, air_history::specs::Histories::reads, air_history::specs::Histories::writes, air_history::specs::Histories::ItemsFit, air_history::specs::Places::greatest_of, air_history::specs::Tables::value_on_base, air_history::specs::Tables::write_of, air_history::specs::Tables::value_after, air_history::specs::Tables::table))]

ghost use Rattle.std.specs.Prelude.{◌≡◌, [], ◌∷◌, IfOk};
ghost use Rattle.air_history.specs.declared.histories.Event.TheVariants.{Start};
ghost use Rattle.core_pins.specs.Commits.{set_to, add_to, commit};
ghost use Rattle.core_pins.specs.SmallBoards.{pair_board};

use air_base::NoMemory;
use air_history::Event;
use control_matrix::Board;
use std::alloc::Global;

/// A commit that reads what it writes reads the column as it was before, and the whole of it is merged. It also refuses that of
/// this column only the entry of the item that is read is taken.
/// Promise: the board steps with the history
pub fn column_already_changed(board: &mut Board, event: &Event)
    requires board { board.old ≡ pair_board }
    requires event { event.now ≡ commit 0 (1 ∷ []) (add_to 1 1 1) }
    ensures { board.new ≡ record { cycle = 2; values = 11 ∷ 13 ∷ []; columns = (1 ∷ 0 ∷ []) ∷ (1 ∷ 2 ∷ []) ∷ []; vector = 1 ∷ 2 ∷ [] } }
{
    board.apply(event);
}

/// All entries of the board of no event are 0.
/// Promise: the board steps with the history
pub fn entries_begin_at_one(alloc: Global, values: &[u64]) -> Result<Board, NoMemory>
    requires { values.now ≡ 10 ∷ 20 ∷ [] }
    ensures { IfOk result (λ board. board ≡ record { cycle = 0; values = 10 ∷ 20 ∷ []; columns = (0 ∷ 0 ∷ []) ∷ (0 ∷ 0 ∷ []) ∷ []; vector = 0 ∷ 0 ∷ [] }) }
{
    Board::new(alloc, values)
}

/// The column of item 1 isn't that of item 0.
/// Promise: the board steps with the history
pub fn first_column_for_each_item(board: &Board) -> &[u32]
    requires { board.now ≡ pair_board }
    ensures { result.now ≡ 1 ∷ 1 ∷ [] }
{
    board.column(1)
}

/// A blind write leaves nothing of the old column except its own cycle. The vector has the cycle only at the item that is
/// written. It also refuses that the vector is forgotten, and that marks of the commit before are kept.
/// Promise: the board steps with the history
pub fn old_column_survives(board: &mut Board, event: &Event)
    requires board { board.old ≡ pair_board }
    requires event { event.now ≡ commit 0 [] (set_to 1 5) }
    ensures { board.new ≡ record { cycle = 2; values = 11 ∷ 5 ∷ []; columns = (1 ∷ 0 ∷ []) ∷ (0 ∷ 2 ∷ []) ∷ []; vector = 1 ∷ 2 ∷ [] } }
{
    board.apply(event);
}

/// The write vector is the board's own.
/// Promise: the board steps with the history
pub fn spare_for_vector(board: &Board) -> &[u32]
    requires { board.now ≡ pair_board }
    ensures { result.now ≡ 1 ∷ 1 ∷ [] }
{
    board.vector()
}

/// A start begins the next cycle, and changes nothing else.
/// Promise: the board steps with the history
pub fn start_without_cycle(board: &mut Board, event: &Event)
    requires board { board.old ≡ pair_board }
    requires event { event.now ≡ Start }
    ensures { board.new ≡ record pair_board { cycle = 3 } }
{
    board.apply(event);
}
