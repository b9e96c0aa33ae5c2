//! These are worked examples of `air_index`: what is found on short tapes, with how many records opened, what
//! indexes count, and which bytes are no record.
//! Each function is one call: its `requires` fixes what is handed in, and its `ensures` is the answer, proved from the called
//! function's contract alone. A function is named for the blunder that it refuses, and its comment says what holds.
#![tactic(auto)]

pub mod beams;
pub mod records;
pub mod seeks;
