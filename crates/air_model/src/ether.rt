//! The laws of the ether: what is heard, how often, and in which order.
//!
//! `specs/Ethers.antt` has the definitions, and `specs/Draws.antt` those of the words that are drawn. The ether of a reader
//! depends on them.

ghost use Rattle.std.specs.Prelude.{◌≡◌, ℕ, ◌+◌, ◌<◌, ◌≤◌, ◌⊎◌, ◌==◌, List, count_by, All, AllPairs, Contains};
ghost use Rattle.air_model.specs.Ethers.{Odds, due_number, heard_list, heard_places, places_due, times_heard};

/// If nothing is lost, heard again or delayed, the pushed list is heard.
pub fn perfect_ether_law()
    ensures { (words : List ℕ) (pushed : List (List ℕ)) →
        heard_list (record { loss = 0; again = 0; late = 0 }) words pushed ≡ pushed }
{}

/// Each heard bucket was pushed.
pub fn heard_was_pushed_law()
    ensures { (odds : Odds) (words : List ℕ) (pushed : List (List ℕ)) →
        All (Contains pushed) (heard_list odds words pushed) }
{}

/// Each push is heard as often as its words say.
pub fn heard_times_law()
    ensures { (odds : Odds) (words : List ℕ) (n place : ℕ) → place < n →
        count_by (λ p. p == place) (heard_places odds words n) ≡ times_heard odds words place }
{}

/// What is heard later has a greater due number, or an equal one and no smaller place.
pub fn heard_order_law()
    ensures { (odds : Odds) (words : List ℕ) (n : ℕ) →
        AllPairs (λ p q. (due_number odds words p < due_number odds words q)
        ⊎ ((due_number odds words p ≡ due_number odds words q) × (p ≤ q))) (heard_places odds words n) }
{}

/// What is due below a number doesn't change with later pushes, once that number of pushes was made.
pub fn due_stays_law()
    ensures { (odds : Odds) (words : List ℕ) (n more bound : ℕ) → bound ≤ n →
        places_due odds words (n + more) bound ≡ places_due odds words n bound }
{}
