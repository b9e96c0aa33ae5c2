//! Tests of runs: small decks on threads under any schedule, one in which a gate lets three threads meet, a monitor's last look, and each job by
//! itself (`jobs`, with its board in `boards`, and `group_jobs`).
//!
//! `decks` has the decks that are run, `plays` runs them, and `cases` finds what a run left otherwise than expected (`runs`, `meetings`).
#![tactic(auto)]

#[cfg(test)]
mod boards;
#[cfg(test)]
mod cases;
#[cfg(test)]
mod decks;
#[cfg(test)]
mod group_jobs;
#[cfg(test)]
mod jobs;
#[cfg(test)]
mod lasts;
#[cfg(test)]
mod meetings;
#[cfg(test)]
mod plays;
#[cfg(test)]
mod runs;
