//! The laws of what a history airs: which buckets are its own, and that these have bytes, which are read back. A heard list of
//! them is aired by the history, even if buckets are lost, repeated or reordered.
//!
//! Each function's contract is one law of the definitions in `specs/Aired.antt`; the bodies are empty.

ghost use Rattle.std.specs.Prelude.{◌≡◌, ◌↔◌, ℕ, ◌≤◌, List, ◌++◌, map, All, Contains, IsTrue, Some};
ghost use Rattle.air_history.specs.declared.histories.Event.{Event};
ghost use Rattle.air_history.specs.Histories.{starts};
ghost use Rattle.air_model.specs.Buckets.{Bucket, IsInRange, bucket_in, spelling};
ghost use Rattle.air_model.specs.Decks.{Deck, values_in};
ghost use Rattle.air_model.specs.Aired.{Air, IsAired, IsAiredBucket, air_of, bucket_of, buckets_of, fits};
ghost use Rattle.air_model.specs.AiredLaws.{CanAir};

/// The buckets of a history are just those that fit the deck, are the history's and have the air's version.
pub fn own_buckets_law()
    ensures { (values : List ℕ) (air : Air) (H : List Event) (b : Bucket) →
        Contains (buckets_of values air H) b ↔ (IsTrue (fits air b) × IsAiredBucket values air H b × (b.version ≡ air.version)) }
{}

/// What comes after a history changes no bucket of a cycle that it started, so cycles can be aired while the history grows.
pub fn later_law()
    ensures { (values : List ℕ) (air : Air) (H later : List Event) (v c s : ℕ) → c ≤ starts H →
        bucket_of values air (H ++ later) v c s ≡ bucket_of values air H v c s }
{}

/// The buckets of a history that can be aired are in range, so they have bytes.
pub fn range_law()
    ensures { (deck : Deck) (H : List Event) → CanAir deck H →
        All IsInRange (buckets_of (values_in deck) (air_of deck) H) }
{}

/// A heard list of the bytes of such buckets is aired by the history, and no member is refused.
pub fn bytes_law()
    ensures { (deck : Deck) (H : List Event) (heard : List (List ℕ)) → CanAir deck H →
        All (Contains (map spelling (buckets_of (values_in deck) (air_of deck) H))) heard →
        IsAired (values_in deck) (air_of deck) H (map bucket_in heard)
        × All (λ bytes. (b : Bucket) × (bucket_in bytes ≡ Some b)) heard }
{}
