//! The commands of airdisk: from words to a status, over any shelf.
//!
//! `air_main` is the top call; `air_quiet` is that of the commands that need no waiting. `commands` has a file for each of them, `files` what they
//! read, `tapes` the readers' hearing of a tape that is read piece by piece, `outputs` what they print and write.
#![tactic(auto)]

mod commands;
mod endings;
mod files;
pub mod laws;
mod main_call;
mod outputs;
mod quiet;
mod tapes;
mod truths;
pub mod words;

pub use air_report::Status;
pub use commands::cast::cast_on_air;
pub use commands::hearings::{HearFault, ear_sessions};
pub use commands::listen::hear_on_air;
pub use commands::run_on_air::run_on_air;
pub use deck_runs::{ConductFault, conductor_job, group_conductor_job, monitor_job, updater_job};
pub use files::decks::read_deck_file;
pub use files::plans::plan_deck;
pub use files::read_bytes;
pub use files::runnable::read_runnable_deck;
pub use main_call::air_main;
pub use outputs::deliver;
pub use outputs::refusals::refuse;
pub use outputs::report_and_tape::ReportAndTape;
pub use quiet::air_quiet;
pub use tapes::{PieceSizes, file_sessions, piece_sessions};
