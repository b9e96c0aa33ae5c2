//! Worked examples of the libraries of sessions: for a call and small values, the answer, or what every answer must keep.
//!
//! Each function is one call. Its `requires` fixes the arguments, and its `ensures` is the answer, proved from the called function's contract alone.
//! So a contract that lets another answer through fails it; if the answer is written out, so does a changed definition. A function is named for the
//! blunder that it refuses. `specs/` has the values: small decks, their buckets and receivers.
#![tactic(auto)]

pub mod aged_pins;
pub mod listeners_pins;
pub mod piece_pins;
pub mod piece_run_pins;
pub mod receiver_core_pins;
pub mod script_pins;
pub mod tape_pins;
