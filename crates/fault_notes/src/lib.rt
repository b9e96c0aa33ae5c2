//! What is wrong with refused words, a refused deck, tape or report, said for a person: the place of the fault, and what would be right.
//!
//! The contracts of the commands give the status of a refusal and its printed line; nothing here changes them. `records` finds the faulty record and
//! its line, what the records before it say, and what its fields have to spell. `decks` says what is wrong with a deck, by the kind of the fault, and
//! `reports` with a report. `tapes` finds where a tape is cut while its pieces go by. `prompts` says what is wrong with the words of a command, and
//! `silences` that a deck gives no verdict. `words` has the sentences. No clause says what a note has: notes are tested.
#![tactic(auto)]

mod decks;
mod prompts;
mod records;
mod reports;
mod silences;
mod tapes;
mod words;

pub use decks::deck_note;
pub use prompts::{command_help, no_text_note, words_note};
pub use reports::report_note;
pub use silences::silence_note;
pub use tapes::CutTape;
pub use words::systems::air_note;
pub use words::texts::ShownText;
