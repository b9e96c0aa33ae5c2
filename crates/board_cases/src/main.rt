//! Plays cases of histories: their updates, what the slow calls find in one, what its board says, and what a core answers.
//!
//! `values` begins a history over these values, and each `start` and `commit` continues it. `history`, `descents` and `board` ask for all of it,
//! `table` takes a number of events, `scan` a cycle, and `core` a number of updaters. `update` makes an update alone.
#![tactic(auto)]

mod boards;
mod cores;
mod draws;
mod events;
mod groups;
mod scans;
mod updates;

use air_base::NoMemory;
use air_history::Event;
use case_lines::{BadCase, Parts, Player, play_stdin};
use std::alloc::Global;
use std::io;

/// The values before a history's first event, and its events.
#[derive(Drop)]
struct HistoryPlayer {
    values: Vec<u64>,
    events: Vec<Event>,
}

impl HistoryPlayer {
    /// Answers a question about the history.
    fn ask(
        &self,
        alloc: Global,
        word: &[u8],
        parts: &mut Parts<'_>,
        came: &mut Vec<u8>,
    ) -> Result<(), NoMemory> {
        let Some(history) = events::history_of(alloc, &self.events)? else {
            parts.refuse(BadCase::NoCall);
            return Ok(());
        };
        match word {
            b"history" => scans::tell_history(&history, came),
            b"descents" => scans::tell_descents(alloc, &history, came),
            b"table" => scans::tell_table(alloc, &history, &self.values, parts, came),
            b"scan" => scans::tell_scan(alloc, &history, &self.values, parts, came),
            b"board" => boards::tell_board(alloc, &history, &self.values, parts, came),
            b"groups" => boards::tell_board_groups(alloc, &history, &self.values, parts, came),
            _ => cores::tell_core(alloc, &history, &self.values, parts, came),
        }
    }
}

impl Player for HistoryPlayer {
    fn play(
        &mut self,
        alloc: Global,
        word: &[u8],
        parts: &mut Parts<'_>,
        came: &mut Vec<u8>,
    ) -> Result<(), NoMemory> {
        match word {
            b"update" => updates::tell_update(alloc, parts, came)?,
            b"drawn" => draws::tell_drawn(alloc, parts, came)?,
            b"values" => {
                self.values = parts.numbers(alloc)?;
                self.events = Vec::new(alloc);
            }
            b"start" => self.events.push(Event::Start)?,
            b"commit" => match events::commit_of(alloc, parts) {
                Ok(event) => self.events.push(event)?,
                Err(fault) => updates::tell_fault(alloc, &fault, came)?,
            },
            b"history" | b"descents" | b"table" | b"scan" | b"board" | b"groups" | b"core" => {
                self.ask(alloc, word, parts, came)?;
            }
            _ => parts.refuse(BadCase::NoSuchWord),
        }
        Ok(())
    }
}

fn main(rt: HostRuntime) -> io::Result<()> {
    let mut player = HistoryPlayer {
        values: Vec::new(rt.alloc()),
        events: Vec::new(rt.alloc()),
    };
    play_stdin(&rt, &mut player)
}
