//! The laws of the board's step, each the contract of a function that does nothing.

ghost use Rattle.std.specs.Prelude.{◌≡◌, ℕ, List, [], ◌∷◌, ◌++◌, length};
ghost use Rattle.air_history.specs.declared.histories.Event.{Event};
ghost use Rattle.air_history.specs.Histories.{ItemsFit};
ghost use Rattle.air_history.specs.Tables.{BasesRead};
ghost use Rattle.air_history.specs.Boards.{board_of};
ghost use Rattle.control_matrix.specs.BoardSteps.{step_board};

/// If the event's items are below the number of values and its bases are read, the step of the board of a list of events is the
/// board of the list with the event added.
pub fn step_law()
    ensures { (values : List ℕ) (G : List Event) (e : Event) → ItemsFit (length values) e → BasesRead e →
        step_board (board_of values G) e ≡ board_of values (G ++ e ∷ []) }
{}
