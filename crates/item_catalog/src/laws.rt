//! The laws of the grammar: every text spells one deck or has one fault, and never both; a deck that is spelled is well made
//! and within the limits. Each is the contract of a function that does nothing.

ghost use Rattle.std.specs.Prelude.{◌≡◌, ◌⊎◌, ◌<◌, ◌≤◌, ◌^◌, ℕ, List};
ghost use Rattle.air_model.specs.Decks.{Deck, IsDeck};
ghost use Rattle.air_model.specs.Drills.{drill_deck};
ghost use Rattle.item_catalog.specs.DeckLimits.{WithinLimits};
ghost use Rattle.item_catalog.specs.Grammar.{Spells, HasFault};
ghost use Rattle.item_catalog.specs.declared.deck.drill.TheConstants.{MOST_DRILL_SIZE};

/// Every text spells a deck or has a fault.
pub fn deck_or_fault_law()
    ensures { (text : List ℕ) → ((deck : Deck) × Spells text deck) ⊎ ((row : ℕ) × (kind : ℕ) × HasFault text row kind) }
{}

/// No text spells a deck and has a fault.
pub fn not_both_law()
    ensures { (text : List ℕ) (deck : Deck) (row kind : ℕ) → Spells text deck → HasFault text row kind → ⊥ }
{}

/// No text spells two decks.
pub fn one_deck_law()
    ensures { (text : List ℕ) (a b : Deck) → Spells text a → Spells text b → a ≡ b }
{}

/// No text has two faults.
pub fn one_fault_law()
    ensures { (text : List ℕ) (row1 kind1 row2 kind2 : ℕ) →
        HasFault text row1 kind1 → HasFault text row2 kind2 → (row1 ≡ row2) × (kind1 ≡ kind2) }
{}

/// A deck that a text spells is well made and within the limits.
pub fn well_made_law()
    ensures { (text : List ℕ) (deck : Deck) → Spells text deck → IsDeck deck × WithinLimits deck }
{}

/// The deck of a drill is also well made and within the limits.
pub fn drill_law()
    ensures { (seed size : ℕ) → seed < 2 ^ 64 → 1 ≤ size → size ≤ MOST_DRILL_SIZE → IsDeck (drill_deck seed size) × WithinLimits (drill_deck seed size) }
{}
