//! Index on air: tapes on which a receiver without a deck finds an item.
//!
//! Each minor cycle of an indexed tape begins with an index record. It tells for each item how many records on the item's next data record
//! is. `sizes` tells how long such a tape is, `counts` how many records it has, `beams` writes one, `reading` reads its records, and `seeker` finds an item on one. `laws` are
//! of what is written and of what is found.
#![tactic(auto)]

pub mod beams;
pub mod counts;
mod entries;
pub mod index_view;
pub mod laws;
mod places;
pub mod reading;
pub mod records;
mod searches;
pub mod seeker;
pub mod sizes;
pub mod sought;
mod steps;
mod writing;

pub use beams::{beam_piece, beam_tape};
pub use counts::beam_counts;
pub use index_view::IndexView;
pub use reading::indexed;
pub use records::Indexed;
pub use seeker::{Seeker, seek};
pub use sizes::beam_bytes;
pub use sought::Sought;
