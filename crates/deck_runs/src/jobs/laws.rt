//! The law of what monitors saw of a run whose cycles were all published. Its body is empty.
ghost use Rattle.std.specs.Prelude.{◌≡◌, ℕ, ◌≤◌, List, length};
ghost use mathlib.Core.List.{IsPrefix};
ghost use Rattle.air_history.specs.declared.histories.Event.{Event};
ghost use Rattle.air_history.specs.Histories.{starts};
ghost use Rattle.air_model.specs.declared.reports.LookLine.{LookLine};
ghost use Rattle.cycle_snapshot.specs.SnapshotStates.{HasLooked, MonitorState};
ghost use Rattle.deck_runs.specs.PublishedBatches.{IsUpTo};
ghost use Rattle.deck_runs.specs.Looks.{IsLookLineOf, LookedTimes, ShowsBeginning};

/// A monitor m becomes n by its job, learns all batches that its publisher will have, and becomes o by one more look. Its glance and its last look
/// each show what the conductor had seen up to a start, and the last look shows the last of these.
pub fn look_law()
    ensures { (conductor : List Event) (all told : List (List Event)) (times : ℕ) (m n o : MonitorState) (glance look : LookLine) →
        IsUpTo 0 conductor all → length all ≡ m.most → 1 ≤ times → LookedTimes times m n → IsLookLineOf n glance →
        IsPrefix all told → HasLooked (record n { told = told }) o → IsLookLineOf o look →
        ShowsBeginning m.values conductor glance × ShowsBeginning m.values conductor look × (look.cycle ≡ starts conductor) }
{}
