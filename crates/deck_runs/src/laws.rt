//! The laws of runs on the air. The bodies are empty.

ghost use Rattle.std.specs.Prelude.{◌≡◌, length};
ghost use Rattle.air_model.specs.Aired.{air_of, slots_at};
ghost use Rattle.air_model.specs.Decks.{Deck, IsDeck};
ghost use Rattle.air_model.specs.Outputs.{run_tape};
ghost use Rattle.air_model.specs.Runs.{IsRun, Run};
ghost use Rattle.air_sender.specs.TapeSizes.{tape_size};
ghost use Rattle.chunk_program.specs.Plans.{AreShort};
ghost use Rattle.item_catalog.specs.DeckLimits.{WithinLimits};
ghost use Rattle.deck_runs.specs.RunTapes.{run_tape_len};
ghost use Rattle.deck_runs.specs.RunTruths.{IsTrueRun};

use air_report::one_history_law;

/// What is true of every run of a deck of the grammar whose programs are short enough.
pub fn true_run_law()
    ensures { (deck : Deck) (run : Run) → IsDeck deck → WithinLimits deck → AreShort deck →
        IsRun deck run → IsTrueRun deck run }
{
    one_history_law();
}

/// The tapes of all runs of a deck have the same length.
pub fn run_length_law()
    ensures same { (deck : Deck) (run : Run) → IsRun deck run → length (run_tape deck run.history) ≡ run_tape_len deck }
    ensures sum { (deck : Deck) → run_tape_len deck
        ≡ tape_size deck.settings.version (length deck.items) (slots_at (air_of deck)) deck.settings.cycles }
{}
