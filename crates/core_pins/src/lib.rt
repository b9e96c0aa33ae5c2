//! These are worked examples of the libraries from texts of numbers up to the core, on small values. Each function is one call.
//! Its `requires` fixes the arguments, and its `ensures` is the answer, or what holds of every answer; it is proved from the
//! called function's contract only. So it fails if a contract lets another answer through, or if a definition changes. A
//! function is named for the mistake that it refuses, and its comment says what else it refuses.
#![tactic(auto)]

pub mod base_pins;
pub mod board_pins;
pub mod column_pins;
pub mod commit_pins;
pub mod held_pins;
pub mod history_pins;
pub mod lane_pins;
pub mod short_pins;
pub mod vector_pins;
