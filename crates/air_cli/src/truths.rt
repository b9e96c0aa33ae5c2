//! What is true of the sessions that are printed, by the laws of the model. These calls do nothing.

ghost use Rattle.std.specs.Prelude.{ℕ, ◌≤◌, List};
ghost use Rattle.air_model.specs.Drills.{drill_deck};
ghost use Rattle.air_model.specs.Outputs.{cast_output};
ghost use Rattle.deck_runs.specs.RunTruths.{IsTrueRun, TellsHistory};
ghost use Rattle.air_model.specs.Runs.{IsRun, Run};
ghost use Rattle.air_cli.specs.Truths.{IsTrueScript, IsTrueTape};
ghost use Rattle.item_catalog.specs.declared.deck.drill.TheConstants.{MOST_DRILL_SIZE};

use air_model::aired::bytes_law;
use air_model::deck::{events_law, script_law};
use air_model::ether::heard_was_pushed_law;
use air_model::sessions::receiver_law;
use air_report::one_history_law;
use chunk_program::Planned;
use deck_runs::laws::true_run_law;
use item_catalog::drill_law;
use scripts::laws::drill_slots_law;

/// The sessions over a script's history are true of it.
pub(crate) fn shows_script_truth(planned: &Planned)
    ensures { IsTrueScript planned.now }
{
    planned.shows_planned();
    script_law();
    events_law();
    bytes_law();
    heard_was_pushed_law();
    receiver_law();
}

/// The sessions of a drill are true of its history.
pub(crate) fn shows_drill_truth(seed: u64, size: u32)
    requires some { 1 ≤ size }
    requires few { size ≤ MOST_DRILL_SIZE }
    ensures { IsTrueScript (drill_deck seed size) }
{
    drill_law();
    drill_slots_law();
    script_law();
    events_law();
    bytes_law();
    heard_was_pushed_law();
    receiver_law();
}

/// The sessions over a tape are true of every history that aired it.
pub(crate) fn shows_tape_truth(planned: &Planned)
    ensures { (records : List (List ℕ)) → IsTrueTape planned.now records }
{
    planned.shows_planned();
    receiver_law();
}

/// The runs of a deck are true, and a cast's report determines the history of its run.
pub(crate) fn shows_run_truth(planned: &Planned)
    ensures { (run : Run) → IsRun planned.now run → IsTrueRun planned.now run × TellsHistory planned.now run.history (cast_output run.history run.glances run.looks) }
{
    planned.shows_planned();
    true_run_law();
    one_history_law();
}
