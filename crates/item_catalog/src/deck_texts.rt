//! Laws of decks as texts: which decks a text spells, and a text of each of them. No code runs.

ghost use Rattle.std.specs.Prelude.{◌<◌, ◌≤◌, ◌^◌, ◌↔◌, ℕ, List};
ghost use Rattle.air_model.specs.Decks.{Deck, IsDeck};
ghost use Rattle.air_model.specs.Drills.{drill_deck};
ghost use Rattle.item_catalog.specs.DeckLimits.{WithinLimits};
ghost use Rattle.item_catalog.specs.Grammar.{Spells};
ghost use Rattle.item_catalog.specs.declared.deck.drill.TheConstants.{MOST_DRILL_SIZE};
ghost use Rattle.item_catalog.specs.DeckTexts.{LastUpdates, deck_text};

/// A deck that is well made and within the limits, and whose last updater has an update, is spelled by its text.
pub fn deck_text_law()
    ensures { (deck : Deck) → IsDeck deck → WithinLimits deck → LastUpdates deck → Spells (deck_text deck) deck }
{}

/// Some text spells a deck if and only if the deck is well made and within the limits, and its last updater has an update.
pub fn spelled_decks_law()
    ensures { (deck : Deck) → ((text : List ℕ) × Spells text deck) ↔ (IsDeck deck × WithinLimits deck × LastUpdates deck) }
{}

/// The deck of a drill is in the grammar: its text spells it.
pub fn drill_text_law()
    ensures { (seed size : ℕ) → seed < 2 ^ 64 → 1 ≤ size → size ≤ MOST_DRILL_SIZE → Spells (deck_text (drill_deck seed size)) (drill_deck seed size) }
{}
