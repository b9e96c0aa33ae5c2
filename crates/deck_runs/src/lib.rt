//! A run of a deck on threads: its jobs, what they leave, and what its readers make of it.
//!
//! `jobs` has what updaters, the conductor and monitors do. `threads` runs them side by side on a stage, from the beginning to the end: the history,
//! and what the monitors saw. `runs` keeps what such a run airs as a tape, and lets the readers hear its history; `casts` sends it to a mast. `tapes`
//! computes beforehand how long the tape is. `laws` says what is true of every run of a deck.
#![tactic(auto)]

mod casts;
pub mod jobs;
pub mod laws;
mod runs;
mod tapes;
mod threads;

pub use casts::cast_run;
pub use jobs::conductors::{ConductFault, conductor_job, group_conductor_job};
pub use jobs::monitors::{last_look, monitor_job};
pub use jobs::updaters::updater_job;
pub use laws::true_run_law;
pub use runs::{HeardRun, air_run};
pub use tapes::long_run;
pub use threads::{Run, RunFault, run_threads};
