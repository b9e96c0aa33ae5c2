//! Pins of `PieceRun` and `ScriptBeaming`: the events and the buckets of the next piece of a run, and the next piece of an indexed tape.
#![tactic(auto)]

ghost use Rattle.std.specs.Prelude.{◌≡◌, [], ◌∷◌, None, OnOk, Some};
ghost use Rattle.air_history.specs.declared.histories.Event.TheVariants.{Start};
ghost use Rattle.air_sender.specs.TapeMasts.{told_by_tape};
ghost use Rattle.scripts.specs.Beamings.{IsBeaming};
ghost use Rattle.scripts.specs.PieceRuns.{IsPieceRun};
ghost use Rattle.session_pins.specs.SmallBuckets.{beamed_cycle, two_entry_bytes, item_bytes};
ghost use Rattle.session_pins.specs.SmallDecks.{first_updater_commit, grouped_pair, scripted, update_to, updated};

use air_base::NoMemory;
use air_sender::TapeMast;
use chunk_program::Planned;
use scripts::{PieceRun, ScriptBeaming};
use std::alloc::Global;

/// An updater commits its updates one after another.
/// Promise: script, drill and plan print their texts
pub fn another_update_of_the_updater(
    run: &mut PieceRun,
    alloc: Global,
    planned: &Planned,
    piece: &mut TapeMast,
) -> Result<(), NoMemory>
    requires deck { planned.now ≡ updated (Some 0 ∷ Some 0 ∷ []) }
    requires kept { IsPieceRun planned.now run.old }
    requires events { run.old.events.items ≡ first_updater_commit 0 (update_to 0 11) ∷ [] }
    ensures { OnOk result (run.new.events.items ≡ first_updater_commit 0 (update_to 0 11) ∷ first_updater_commit 1 (update_to 1 21) ∷ []) }
{
    run.next_piece(alloc, planned, 1, piece)?;
    Ok(())
}

/// A piece has only the buckets of its own cycles, regardless of what the mast had before.
/// Promise: script, drill and plan print their texts
pub fn mast_not_emptied(
    run: &mut PieceRun,
    alloc: Global,
    planned: &Planned,
    piece: &mut TapeMast,
) -> Result<(), NoMemory>
    requires deck { planned.now ≡ scripted (None ∷ None ∷ []) }
    requires kept { IsPieceRun planned.now run.old }
    requires events { run.old.events.items ≡ Start ∷ [] }
    ensures { OnOk result ((told_by_tape piece.new).buckets ≡ item_bytes 2 0 10 ∷ item_bytes 2 1 20 ∷ []) }
{
    run.next_piece(alloc, planned, 1, piece)?;
    Ok(())
}

/// A piece has exactly as many cycles as it is to have (piece continues past its cycles).
/// Promise: script, drill and plan print their texts
pub fn piece_ends_early(
    run: &mut PieceRun,
    alloc: Global,
    planned: &Planned,
    piece: &mut TapeMast,
) -> Result<(), NoMemory>
    requires deck { planned.now ≡ scripted (None ∷ None ∷ None ∷ []) }
    requires kept { IsPieceRun planned.now run.old }
    requires events { run.old.events.items ≡ [] }
    ensures { OnOk result (run.new.events.items ≡ Start ∷ Start ∷ []) }
{
    run.next_piece(alloc, planned, 2, piece)?;
    Ok(())
}

/// A deck without groups airs each item with its own column.
/// Promise: a cycle is aired by groups
pub fn groups_without_groups(
    run: &mut PieceRun,
    alloc: Global,
    planned: &Planned,
    piece: &mut TapeMast,
) -> Result<(), NoMemory>
    requires deck { planned.now ≡ grouped_pair 0 }
    requires kept { IsPieceRun planned.now run.old }
    requires events { run.old.events.items ≡ Start ∷ first_updater_commit 0 (update_to 0 11) ∷ [] }
    ensures { OnOk result ((told_by_tape piece.new).buckets ≡ two_entry_bytes 2 0 11 1 ∷ two_entry_bytes 2 1 20 0 ∷ []) }
{
    run.next_piece(alloc, planned, 1, piece)?;
    Ok(())
}

/// A deck with groups airs each item with the column of its group.
/// Promise: a cycle is aired by groups
pub fn own_columns_with_groups(
    run: &mut PieceRun,
    alloc: Global,
    planned: &Planned,
    piece: &mut TapeMast,
) -> Result<(), NoMemory>
    requires deck { planned.now ≡ grouped_pair 2 }
    requires kept { IsPieceRun planned.now run.old }
    requires events { run.old.events.items ≡ Start ∷ first_updater_commit 0 (update_to 0 11) ∷ [] }
    ensures { OnOk result ((told_by_tape piece.new).buckets ≡ two_entry_bytes 2 0 11 1 ∷ two_entry_bytes 2 1 20 1 ∷ []) }
{
    run.next_piece(alloc, planned, 1, piece)?;
    Ok(())
}

/// The second piece of an indexed tape begins with the index of its own cycle, and not with that of cycle 1.
/// Promise: a script is beamed as defined
pub fn piece_from_cycle_1(
    beaming: &mut ScriptBeaming,
    alloc: Global,
    planned: &Planned,
) -> Result<(), NoMemory>
    requires deck { planned.now ≡ scripted (None ∷ None ∷ []) }
    requires kept { IsBeaming planned.now beaming.old }
    requires events { beaming.old.run.events.items ≡ Start ∷ [] }
    ensures { OnOk result (beaming.new.beamed.items ≡ beamed_cycle 2) }
{
    beaming.next_piece(alloc, planned)?;
    Ok(())
}
