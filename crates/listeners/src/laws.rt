//! The laws of hearing: what a listener is after all that it heard, in one list or in pieces.
//!
//! Each function's contract is one law of the definitions in `Listeners` of `specs/`; the bodies are empty.

ghost use Rattle.std.specs.Prelude.{◌≡◌, ℕ, ◌+◌, ◌++◌, List, Option, length};
ghost use Rattle.air_model.specs.Aired.{scheme_in};
ghost use Rattle.air_model.specs.Buckets.{Bucket};
ghost use Rattle.air_model.specs.Decks.{Deck};
ghost use Rattle.air_model.specs.Judges.{by_entries};
ghost use Rattle.air_model.specs.ReceiverLaws.{session_of};
ghost use Rattle.receiver_core.specs.Receivers.{heard_count};
ghost use Rattle.listeners.specs.Listeners.{Listener, end_state, hears, listener_of};

/// Where a listener that has heard all these members ends, its session is the one over all of them, by the entries.
pub fn session_law()
    ensures { (deck : Deck) (r : ℕ) (members : List (Option Bucket)) →
        end_state (hears members (listener_of deck r)) ≡ session_of (by_entries (scheme_in deck)) deck r members }
{}

/// To hear a list is to hear its pieces, one after another.
pub fn pieces_law()
    ensures { (first second : List (Option Bucket)) (l : Listener) →
        hears (first ++ second) l ≡ hears second (hears first l) }
{}

/// Each member that is heard is counted once.
pub fn counts_law()
    ensures { (members : List (Option Bucket)) (l : Listener) →
        heard_count (hears members l).state.counts ≡ heard_count l.state.counts + length members }
{}
