//! The board that the server keeps along with a history: the values, the control columns and the write vector.
//!
//! `Board::apply` changes it by one event, in place and without the history. It gives what `step_board` says, and the laws
//! relate that to the board of a list of events. Senders air from it, and frames carry it.
#![tactic(auto)]

pub mod board;
mod columns;
pub mod laws;
mod marks;

pub use board::Board;
