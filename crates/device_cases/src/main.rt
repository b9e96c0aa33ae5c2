//! A player of cases: files, outputs and printed text, masts, ears, and bytes in rooms of fixed size.
//!
//! The cases are in `stdin`, and `stdout` is the transcript that is wanted. What a case prints through the shelf over files comes
//! before the transcript. `player` says which words there are.
#![tactic(auto)]

mod broken;
mod ears;
mod files;
mod masts;
mod player;
mod shelves;

use crate::broken::BrokenSystem;
use crate::player::{Devices, ShelfInUse};
use air_devices::{FileShelf, MemMast, TapeRoom};
use case_lines::play_stdin;
use std::io;

fn main(rt: HostRuntime) -> io::Result<()> {
    let Ok(mast) = MemMast::new(rt.alloc(), 0, Vec::new(rt.alloc())) else {
        return Err(io::Error::from(io::ErrorKind::OutOfMemory));
    };
    let Ok(tape) = TapeRoom::new(rt.alloc(), 0) else {
        return Err(io::Error::from(io::ErrorKind::OutOfMemory));
    };
    let mut devices = Devices {
        rt: rt.clone()?,
        held: ShelfInUse::Files,
        files: FileShelf::new(rt.clone()?),
        broken: FileShelf::new(BrokenSystem),
        mast,
        tape,
    };
    play_stdin(&rt, &mut devices)
}
