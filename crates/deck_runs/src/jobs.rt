//! The jobs of a run, and who does them: an updater commits its updates, the conductor airs the cycles, a monitor looks.
//!
//! The jobs are `updater_job`, `conductor_job`, or `group_conductor_job` for decks with groups, and `monitor_job`; a run calls them. The two of the
//! conductor are cases of `conduct_all`. `crews` has what each of them works on, and runs those of a kind side by side.

pub(crate) mod airings;
pub(crate) mod conductors;
pub(crate) mod crews;
pub(crate) mod cycles;
pub mod laws;
pub(crate) mod means;
pub(crate) mod monitors;
pub(crate) mod openings;
pub(crate) mod updaters;

/// How often each monitor looks while the others work.
pub const LOOKS: u32 = 100;
