//! These are worked examples of the ether, the kept copies, the devices, boards by groups, the program, the split and the sender, on small values. Each
//! function is one call. Its `requires` fixes the arguments, and its `ensures` is the answer, or what holds of every answer; it
//! is proved from the called function's contract only. So it fails if a contract lets another answer through, or if a
//! definition changes. A function is named for the mistake that it refuses, and its comment says what else it refuses.
#![tactic(auto)]

pub mod copy_pins;
pub mod device_pins;
pub mod ether_pins;
pub mod group_pins;
pub mod program_pins;
pub mod sender_pins;
pub mod split_pins;
