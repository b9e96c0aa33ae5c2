//! Files of cases: the text that a player of cases reads, and the transcript that it prints.
//!
//! A line that begins with `#` says what the cases below it show, and an empty line separates. Each other line is a case: a word, and its parts after
//! it, with a space before each. The transcript has each line as it is, and below a case its result, indented by four spaces. So it can be read by
//! itself. Below a mistyped case it has `bad case: ` and the reason.
#![tactic(auto)]

mod adding;
mod playing;
mod reading;
mod spelling;
mod updates;

pub use adding::{add_entries, add_hex, add_hex_words, add_line, add_lines, sum_of};
pub use playing::{Player, play_stdin};
pub use reading::{BadCase, Parts, first_part};
pub use updates::{add_items, add_writes};
