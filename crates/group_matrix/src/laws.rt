//! The law of boards by groups, the contract of a function that does nothing.

ghost use Rattle.std.specs.Prelude.{◌<◌, ℕ, List};
ghost use Rattle.air_history.specs.declared.histories.Event.{Event};
ghost use Rattle.air_history.specs.Boards.{board_of};
ghost use Rattle.group_matrix.specs.GroupBoards.{IsOfEvents, grouped};

/// The board by groups of the board of a list of events has their cycle and values, and each item has its group column.
pub fn fill_law()
    ensures { (g : ℕ) (values : List ℕ) (G : List Event) → 0 < g → IsOfEvents values G (grouped g (board_of values G)) }
{}
