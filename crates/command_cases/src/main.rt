//! Plays cases of commands over a shelf, a mast and an ear in memory: words in; a status, a text, an output and what was sent out.
//!
//! `deck`, `report` and `tape` begin a file, and `more`, `repeat` and `bytes` continue the one that was begun last. The files stay; what other words
//! set is for the next command only. `quiet` plays a command through `air_quiet`, `main` through `air_main`, and `meet` one whose threads meet at a
//! gate. After `each` a command is played once for each of some numbers, such as with each call failing alone, and numbers with the same result are
//! written together. After `brief` only what no schedule changes is written. `lines` counts the lines of the last text that begin with a front.
#![tactic(auto)]

mod files;
mod notes;
mod number_ranges;
mod player;
mod settings;
mod telling;

use crate::player::Commands;
use case_lines::play_stdin;
use std::io;

fn main(rt: HostRuntime) -> io::Result<()> {
    let mut commands = Commands::new(&rt, rt.alloc());
    play_stdin(&rt, &mut commands)
}
