//! The cuts of a deck into disks, and its broadcast programs.
//!
//! `cut` orders a deck's items by their rates and gives each disk of an edition a range of them; `Program::plan` lays the disks
//! out as the slots of a cycle. Receivers ask the program when to wake, and how often and how far apart an item comes. `Plans` are the
//! programs of all editions of a deck, and `Planned` is a deck with its plans.
#![tactic(auto)]

pub mod cuts;
pub mod cutting;
mod disks;
pub mod editions;
mod homes;
mod layout;
pub mod planned;
mod planning;
pub mod plans;
pub mod programs;

pub use cuts::Cut;
pub use cutting::cut;
pub use editions::{disk_count, disk_freq};
pub use planned::{Planned, PlannedRef};
pub use plans::Plans;
pub use programs::{PlanFault, Program};
