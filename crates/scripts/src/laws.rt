//! The laws of drills: why nothing refuses one but that memory ran out. Each is carried by a function that does nothing.

ghost use Rattle.std.specs.Prelude.{ℕ, ◌*◌, ◌<◌, ◌≤◌, ◌^◌, length};
ghost use Rattle.air_base.specs.declared.limits.TheConstants.{MOST_TAPE_BYTES};
ghost use Rattle.air_model.specs.Decks.{disks_in, script_history};
ghost use Rattle.air_model.specs.Drills.{drill_deck, drill_items};
ghost use Rattle.air_model.specs.Outputs.{script_tape, true_sessions};
ghost use Rattle.air_model.specs.Programs.{program};
ghost use Rattle.air_model.specs.Reports.{counts_lines};
ghost use Rattle.scripts.specs.DrillSums.{SumsFit};
ghost use Rattle.item_catalog.specs.declared.deck.drill.TheConstants.{MOST_DRILL_SIZE};

/// The program of a drill's deck has at most two slots for each item.
pub fn drill_slots_law()
    ensures { (seed size : ℕ) → 1 ≤ size → length (program (disks_in (drill_deck seed size) 0)) ≤ 2 * drill_items size }
{}

/// The tape of a drill's script isn't too long.
pub fn drill_tape_law()
    ensures { (seed size : ℕ) → seed < 2 ^ 64 → 1 ≤ size → size ≤ MOST_DRILL_SIZE →
        length (script_tape (drill_deck seed size)) ≤ MOST_TAPE_BYTES }
{}

/// What a drill's readers count, all together, is told by numbers of 64 bits.
pub fn drill_counts_law()
    ensures { (seed size : ℕ) → seed < 2 ^ 64 → 1 ≤ size → size ≤ MOST_DRILL_SIZE →
        SumsFit (counts_lines (true_sessions (drill_deck seed size) (script_history (drill_deck seed size)))) }
{}
