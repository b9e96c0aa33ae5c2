//! The laws of runs: they lead from what the passes of a closed station saw to a whole history, what it airs, and what its
//! monitors saw.
//!
//! Each function's contract is one law of the definitions of `specs/` and of `air_model`; the bodies are empty, and no code runs.

ghost use Rattle.std.specs.Prelude.{◌≡◌, ◌≤◌, ℕ, List, ◌++◌, All};
ghost use Rattle.air_history.specs.declared.histories.Event.{Event};
ghost use Rattle.air_history.specs.Histories.{starts, events_in};
ghost use Rattle.air_history.specs.Boards.{frame_of};
ghost use Rattle.air_model.specs.Buckets.{Bucket};
ghost use Rattle.air_model.specs.Decks.{Deck, IsDeck, IsLegal, IsWhole, values_in};
ghost use Rattle.air_model.specs.Aired.{Air, air_of, buckets_of};
ghost use Rattle.air_model.specs.declared.reports.LookLine.{LookLine};
ghost use Rattle.air_model.specs.AiredItems.{AirsItems};
ghost use Rattle.air_model.specs.Batches.{AirsByBatches, EndsWithStart};
ghost use Rattle.air_model.specs.RunClosings.{HaveMadeAll, HaveMadeSome, IsClosing};
ghost use Rattle.air_model.specs.MonitorSights.{EndsAtStart, IsSeen};

/// If each pass made the first of its updates, the history of the closed station is legal, and it has the conductor's starts.
pub fn legal_closing_law()
    ensures legal { (deck : Deck) (passes : List (List Event)) (conductor H : List Event) →
        IsClosing deck passes conductor H → HaveMadeSome deck passes → IsLegal deck H }
    ensures starts { (deck : Deck) (passes : List (List Event)) (conductor H : List Event) →
        IsClosing deck passes conductor H → starts H ≡ starts conductor }
{}

/// If each pass made all its updates and the conductor all cycles, the history of the closed station is whole.
pub fn whole_closing_law()
    ensures { (deck : Deck) (passes : List (List Event)) (conductor H : List Event) →
        IsClosing deck passes conductor H → HaveMadeAll deck passes → starts conductor ≡ deck.settings.cycles → IsWhole deck H }
{}

/// A legal history of no more than the deck's cycles begins a whole one.
pub fn whole_beyond_law()
    ensures { (deck : Deck) (H : List Event) → IsLegal deck H → starts H ≤ deck.settings.cycles →
        (later : List Event) × IsWhole deck (H ++ later) }
{}

/// What comes after a history only airs more buckets, and airs nothing if it starts no cycle.
pub fn more_buckets_law()
    ensures more { (values : List ℕ) (air : Air) (H later : List Event) →
        (more : List Bucket) × (buckets_of values air (H ++ later) ≡ buckets_of values air H ++ more) }
    ensures same { (values : List ℕ) (air : Air) (H later : List Event) → starts later ≡ 0 →
        buckets_of values air (H ++ later) ≡ buckets_of values air H }
{}

/// If batches each end with their one start, they air the history that they make, also with events after it that have no start.
pub fn batches_law()
    ensures { (deck : Deck) (batches : List (List Event)) (rest : List Event) → All EndsWithStart batches → starts rest ≡ 0 →
        AirsByBatches deck (events_in batches ++ rest) batches }
{}

/// A line with the frame of a beginning of a history, which ends with a start, shows a cycle of the history and its total.
pub fn frame_law()
    ensures { (values : List ℕ) (G later : List Event) (line : LookLine) → EndsAtStart G →
        line.cycle ≡ (frame_of values G).cycle → line.total ≡ (frame_of values G).total → IsSeen values (G ++ later) line }
{}

/// In each cycle of a history each item of a well made deck is aired as often as its disk says, and each bucket with an item has the item's
/// value at the start of its cycle.
pub fn aired_items_law()
    ensures { (deck : Deck) (H : List Event) → IsDeck deck → AirsItems deck H (buckets_of (values_in deck) (air_of deck) H) }
{}
