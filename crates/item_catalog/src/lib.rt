//! The deck: read from its text or made for a drill, with calls for its parts.
//!
//! `reading` reads a deck record by record (`records`, with the lists of a record in `updates`), and names the first faulty
//! record with its least kind of fault (`faults`). `drills` draws the deck of a drill. `laws` says that a text spells one deck
//! or has one fault, and `deck_texts` which decks are spelled by some text.
#![tactic(auto)]

pub mod deck;
pub mod deck_texts;
mod drills;
pub mod faults;
pub mod laws;
mod parts;
pub mod reading;
pub mod records;
mod scripts;
mod updates;

pub use deck::Deck;
pub use deck::drill::{MOST_DRILL_SIZE, drill_deck};
pub use deck::replans::Replan;
pub use drills::draws::{draw_item, draw_query, draw_update};
pub use drills::settings::drill_settings;
pub use faults::{DeckError, DeckFault};
pub use laws::{
    deck_or_fault_law, drill_law, not_both_law, one_deck_law, one_fault_law, well_made_law,
};
pub use reading::read_deck;
pub use records::Records;
pub use records::fields::{five, four, one, seven, six, three, two};
pub use records::refusals::Refusal;
pub use updates::item_lists::ItemList;
pub use updates::write_lists::WriteList;
