//! A deck that is run on threads, and what is left.

ghost use Rattle.std.specs.Prelude.{◌≤◌, length};
ghost use Rattle.air_base.specs.declared.limits.TheConstants.{MOST_DECK_BYTES};

use air_devices::Gate;
use air_sender::TapeMast;
use chunk_program::Planned;
use deck_runs::{Run, RunFault, run_threads};
use item_catalog::read_deck;
use std::alloc::Global;
use std::sync::Wait;
use std::test::Fail;
use std::thread::Threads;

/// The run, or why it wasn't done, and the mast.
#[derive(Drop)]
pub struct RunAndMast {
    pub run: Result<Run, RunFault>,
    pub mast: TapeMast,
}

/// Runs a deck on threads. The tape has room for this number of bytes.
pub fn play<R: Threads + Wait + Sync, G: Gate + Sync>(
    rt: &R,
    alloc: Global,
    text: &[u8],
    room: u64,
    gate: &G,
) -> Result<RunAndMast, Fail>
    requires { length text.now ≤ MOST_DECK_BYTES }
{
    let deck = read_deck(alloc, text)?;
    let planned = Planned::new(alloc, deck)?;
    let mut mast = TapeMast::new(alloc, room)?;
    let run = run_threads(rt, alloc, &planned, &mut mast, gate);
    Ok(RunAndMast { run, mast })
}
