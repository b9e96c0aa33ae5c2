//! The types that all crates share, and the texts of numbers and lists.
//!
//! Nothing here knows what a deck, a history or a receiver is. `memory` has the answer "out of memory", `limits` how much there
//! may be of each thing, `verdicts` what a receiver decides and counts, and `lists` the lists that other types hold. `texts`
//! and `number_lists` say how numbers and lists of them are read and written. `digits`, `leading_numbers` and `plain_numbers`
//! read the numbers of any text, part by part.
#![tactic(auto)]

mod digits;
mod leading_numbers;
pub mod limits;
pub mod lists;
pub mod memory;
pub mod number_lists;
mod plain_numbers;
pub mod texts;
pub mod verdicts;

pub use digits::short_number;
pub use leading_numbers::{after_byte, ends_part, leading_number, read_leading_number};
pub use lists::{Reads, Rows, Sizes, Values};
pub use memory::NoMemory;
pub use number_lists::{
    ListFault, list_is_its_parts_law, list_or_bad_part_law, list_text_spells_law,
    one_list_spelling_law, read_list,
};
pub use plain_numbers::{plain_number, plain_short};
pub use texts::{one_spelling_law, read_u64, text_spells_law, write_u64};
pub use verdicts::{Clash, Counts, Form, Policy, ReadOf, Verdict, VerdictKind};
