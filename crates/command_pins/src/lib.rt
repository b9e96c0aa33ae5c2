//! Pins of the devices in memory and of the commands: each is one call on small values, and says the answer, or what every answer must keep. It is
//! named for the blunder that it refuses.
//!
//! A pin is proved from the contract of its call alone, so a contract that lets another answer through fails it. So does a changed definition, unless
//! that definition is itself the answer, like `plan_output`.
#![tactic(auto)]

pub mod cast_pins;
pub mod device_pins;
pub mod drill_pins;
pub mod failure_pins;
pub mod file_pins;
pub mod headline_pins;
pub mod main_pins;
pub mod on_air_pins;
pub mod output_pins;
pub mod touch_pins;
pub mod word_pins;
