//! These are worked examples of the turnstile, the station, the snapshots, the jobs and the runs, on small values. Each function is one call. Its
//! `requires` fixes the arguments, and its `ensures` is the answer, or what every answer must keep. It is proved from the called function's contract
//! alone, so it fails if a contract lets another answer through, or if a definition changes. A function is named for the blunder that it refuses, and
//! its comment says what else it refuses.
#![tactic(auto)]

pub mod job_pins;
pub mod run_pins;
pub mod snapshot_pins;
pub mod station_pins;
pub mod turnstile_pins;
