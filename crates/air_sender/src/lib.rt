//! The sender: one cycle of a broadcast program aired from a board or from a board by groups, and a mast that gathers a tape.
//!
//! `airing` sends the bucket of each slot through any mast; the buckets sent are the history's of that cycle, for every history of which the board
//! is. `sources` has what a cycle is aired from, and `slots` the loop that boards and boards by groups share. `tape_mast` keeps what is sent as a
//! tape, and `script_tapes` computes beforehand how long the tape of a deck's script is. `forms` has the form of a deck's buckets. `board_laws`
//! connects board, history and lengths.
#![tactic(auto)]

pub mod airing;
pub mod board_laws;
mod buckets;
mod forms;
mod script_tapes;
mod slots;
mod sources;
pub mod tape_mast;

pub use airing::{AirFault, air_cycle, air_group_cycle, cycle_len, tape_bytes};
pub use board_laws::{below_law, groups_below_law, own_cycle_law};
pub use forms::{bucket_room, own_form};
pub use script_tapes::tape_len;
pub use slots::{air_source, encode_source};
pub use sources::{Source, groups_of};
pub use tape_mast::TapeMast;
