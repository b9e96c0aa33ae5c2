//! A deck's script on the air: its events, the buckets of the cycles that they start, and the sessions of the deck's readers.
//!
//! `PieceRun` airs some cycles at a time (`piece_runs`), and its pieces, one after another, are what the script's whole history
//! airs. Each cycle is aired from its board, or from the board by groups if the deck has groups (`cycle_sources`), and the readers hear it from
//! there. `ScriptAiring` airs pieces to all readers (`script_airing`), and `air_script` goes through all pieces and gives each to a sink
//! (`whole_scripts`, `sinks`). Where nobody asks for the tape, `hear_script` has the readers hear each cycle, and nothing is aired.
//! `run_drill` does so for the deck of a drill, and sums up what came of it (`drills`).
#![tactic(auto)]

mod cycle_sources;
mod drills;
pub mod group_laws;
pub mod laws;
mod parts;
mod piece_runs;
mod script_airing;
mod script_beaming;
mod sinks;
mod sizes;
mod whole_scripts;

pub use drills::run_drill;
pub use piece_runs::PieceRun;
pub use script_airing::ScriptAiring;
pub use script_beaming::ScriptBeaming;
pub use sinks::{Discard, PieceSink};
pub use sizes::piece_cycles;
pub use whole_scripts::{AiredScript, air_script, beam_script, hear_script};
