//! Decks without a fault that give no verdict: no reader, no query, or no cycle.

use crate::words::sentences::Sentence;
use crate::words::texts::ShownText;
use air_base::NoMemory;
use item_catalog::Deck;
use std::alloc::Global;

/// Whether a reader of the deck has a query.
fn has_query(deck: &Deck) -> bool {
    for reader in 0..deck.readers() {
        if 0 < deck.queries(reader) {
            return true;
        }
    }
    false
}

/// Why a deck gives no verdict, or `None` if it may give one. `by_script` tells whether its script decides which cycles start.
fn why_silent(deck: &Deck, by_script: bool) -> Option<Sentence<'static>> {
    let wording = if deck.readers() == 0 {
        "nobody listens: the deck has no reader"
    } else if !has_query(deck) {
        "nobody listens: no reader of the deck has a query"
    } else if by_script && deck.script_starts() == 0 {
        "nothing is aired: the deck has no script that starts a cycle"
    } else {
        return None;
    };
    Some(Sentence::numbers(wording, 0, 0, 0))
}

/// A note that a deck gives no verdict, or `None` if it may give one. `by_script` tells whether its script decides which cycles start.
pub fn silence_note(
    alloc: Global,
    name: &str,
    deck: &Deck,
    by_script: bool,
) -> Result<Option<String>, NoMemory> {
    match why_silent(deck, by_script) {
        Some(sentence) => {
            let name = ShownText::whole(name);
            Ok(Some(format!(in alloc; "{name}: {sentence}")?))
        }
        None => Ok(None),
    }
}
