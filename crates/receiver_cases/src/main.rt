//! A player of cases: the held reads of the three policies, and receivers that hear bytes.
//!
//! The cases are in `stdin`, and `stdout` is the transcript that is wanted. `player` says which words there are.
#![tactic(auto)]

mod attempts;
mod held;
mod player;
mod receivers;
mod seeds;

use crate::player::Cases;
use case_lines::play_stdin;
use std::io;

fn main(rt: HostRuntime) -> io::Result<()> {
    let mut cases = Cases {
        attempt: None,
        deck: Vec::new(rt.alloc()),
        receiver: None,
    };
    play_stdin(&rt, &mut cases)
}
