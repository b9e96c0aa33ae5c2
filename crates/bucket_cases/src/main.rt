//! A player of cases: buckets and tapes as bytes, what a reader hears of the ether, the copies that a receiver keeps,
//! and the kernels over rows.
//!
//! The cases are in `stdin`, and `stdout` is the transcript that is wanted. `player` says which words there are.
#![tactic(auto)]

mod buckets;
mod columns;
mod copies;
mod ethers;
mod lanes;
mod player;
mod rows;
mod tapes;

use crate::player::Cases;
use case_lines::play_stdin;
use std::io;

fn main(rt: HostRuntime) -> io::Result<()> {
    let mut cases = Cases {
        bytes: Vec::new(rt.alloc()),
        row: Vec::new(rt.alloc()),
        other: Vec::new(rt.alloc()),
        copies: None,
    };
    play_stdin(&rt, &mut cases)
}
