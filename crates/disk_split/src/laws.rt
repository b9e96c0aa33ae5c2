//! The laws of splits. Each function's contract is one law of the definitions in `Splits` of `specs/`; the bodies are empty.

ghost use Rattle.std.specs.Prelude.{◌≡◌, ℕ, ◌*◌, List, slice_index, sum_by};
ghost use Rattle.air_model.specs.Decks.{Deck, IsDeck, rates_in};
ghost use Rattle.air_model.specs.Programs.{num_chunks, num_minors};
ghost use Rattle.disk_split.specs.Splits.{IsBest, IsSplit, cost, minor_of, sizes_in, split_disks};

/// What a split costs is the number of slots of a minor cycle times the sum over the disks of their chunks times the rates of their
/// items.
pub fn cost_law()
    ensures { (deck : Deck) (sizes : List ℕ) → IsDeck deck → IsSplit deck sizes → let disks = split_disks deck sizes in
        cost deck sizes
        ≡ minor_of deck sizes * sum_by (λ d. num_chunks (num_minors disks) d * sum_by (slice_index (rates_in deck)) d.items) disks }
{}

/// A deck has at most one best split.
pub fn best_law()
    ensures { (deck : Deck) (sizes others : List ℕ) → IsBest deck sizes → IsBest deck others → sizes ≡ others }
{}

/// Each deck has a split, that of its own sizes.
pub fn some_split_law()
    ensures { (deck : Deck) → IsDeck deck → IsSplit deck (sizes_in deck) }
{}
