//! Frames of a history, published while other threads make it.
//!
//! A publisher adds batches to a list, each with the events of one cycle (`publishers`). Monitors look at it and keep the frame
//! of a beginning of it (`monitors`): always of whole batches, and never of fewer than they saw or were told. A look never
//! waits and takes no memory. Publisher and monitors are made together (`opening`).
//!
//! The modules below these: `told` is a beginning of the list, `batches` a cycle's events, `frames` what a monitor keeps,
//! `board_sides` what each of the two sides of `left_right` holds, `rule` the rule that they keep between any two atomic steps,
//! and `sides` makes the writer and its readers.
#![tactic(auto)]

mod batches;
mod board_sides;
mod frames;
mod monitors;
mod opening;
mod publishers;
mod rule;
mod sides;
mod told;

pub use air_base::NoMemory;
pub use monitors::Monitor;
pub use opening::publisher;
pub use publishers::Publisher;
pub use told::Told;
