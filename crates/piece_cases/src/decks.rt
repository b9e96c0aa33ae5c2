//! A deck with its plans: read and planned.
//!
//! A case whose text has no such deck is answered with `no deck`.

use air_base::limits::MOST_DECK_BYTES;
use chunk_program::Planned;
use item_catalog::read_deck;
use std::alloc::Global;

/// The deck of a text with its plans, or `None` if the text spells no deck, or one of its programs is too long.
pub fn planned_deck(alloc: Global, text: &[u8]) -> Option<Planned> {
    if text.len() > MOST_DECK_BYTES {
        return None;
    }
    let deck = read_deck(alloc, text).ok()?;
    Planned::new(alloc, deck).ok()
}
