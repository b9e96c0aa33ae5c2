//! An updater and a conductor at work: each has its pass, and the answers that it got.
ghost use Rattle.std.specs.Prelude.{◌≡◌};
ghost use Rattle.station.specs.PassStates.{with_seen};
ghost use Rattle.station_tests.specs.Workers.{FitsStation};

use air_history::{Event, Update};
use station::{ConductorPass, Station, UpdaterPass};
use std::alloc::Global;
use std::sync::Wait;
use update_commit::Receipt;

/// An updater's pass, the update that it commits, and the receipts in order.
#[derive(Drop)]
pub struct Worker {
    pub pass: UpdaterPass,
    pub update: Update,
    pub receipts: Vec<Receipt>,
}

/// What the start of a cycle gave: the cycle's number, and the events since the start before it, including the start itself.
#[derive(Drop)]
pub struct StartAnswer {
    pub number: u32,
    pub events: Vec<Event>,
}

/// The conductor's pass, and what each of its starts gave, in order.
#[derive(Drop)]
pub struct Conductor {
    pub pass: ConductorPass,
    pub starts: Vec<StartAnswer>,
}

impl Worker {
    /// Makes this number of commits, and keeps their receipts; fewer, once out of memory.
    pub fn commit_all<R: Wait>(&mut self, wait: &R, alloc: Global, station: &Station, commits: u32)
        requires ready { FitsStation station.now self.old.pass self.old.update }
        ensures ready { FitsStation station.now self.new.pass self.new.update }
    {
        for _ in 0..commits {
            if self.pass.made() == u32::MAX {
                return;
            }
            let Ok(receipt) = station.commit(wait, alloc, &mut self.pass, &self.update) else {
                return;
            };
            if self.receipts.push(receipt).is_err() {
                return;
            }
        }
    }
}

impl Conductor {
    /// Starts this number of cycles, and keeps what the starts give; fewer, once out of memory.
    pub fn start_all<R: Wait>(&mut self, wait: &R, alloc: Global, station: &Station, cycles: u32)
        requires ready { self.old.pass.station ≡ station.now }
        ensures pass { self.new.pass ≡ with_seen self.old.pass self.new.pass.seen }
    {
        for _ in 0..cycles {
            if self.pass.started() == u32::MAX {
                return;
            }
            let mut events = Vec::new(alloc);
            let Ok(number) = station.start_cycle(wait, alloc, &mut self.pass, &mut events) else {
                return;
            };
            if self.starts.push(StartAnswer { number, events }).is_err() {
                return;
            }
        }
    }
}
