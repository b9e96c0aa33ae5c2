//! The gate of a cast with a rate: it spreads updates and looks over the time on air of all cycles.

use crate::plain_files::runnable_again;
use air_base::NoMemory;
use air_base::limits::MOST_UPDATERS;
use air_devices::PacedGate;
use chunk_program::Planned;
use deck_runs::jobs::LOOKS;
use item_catalog::Deck;
use std::alloc::Global;
use std::rt::Files;
use std::time::{Clock, Duration};

/// The nanoseconds of a second.
const SECOND: u64 = 1_000_000_000;

/// The number of buckets in all cycles of a deck, each by the program in force in it.
fn buckets_of(planned: &Planned) -> u64 {
    let plans = planned.plans();
    let mut buckets = 0u64;
    for cycle in 1..=planned.deck().settings().cycles {
        let slots = plans.in_force(cycle).slots();
        buckets = buckets.saturating_add(u64::from(slots));
    }
    buckets
}

/// The time on air of this number of buckets, in nanoseconds, at `rate` buckets a second.
fn time_on_air(buckets: u64, rate: u32) -> u64 {
    buckets.saturating_mul(SECOND / u64::from(rate.max(1)))
}

/// The wait before each of `count` commits or looks, so that all are done before the time is over.
fn wait_of_each(time: u64, count: u64) -> Duration {
    Duration::from_nanos(time / count.saturating_add(1).max(1))
}

/// The wait of each updater before each of its updates.
fn waits_of(deck: &Deck, time: u64) -> [Duration; MOST_UPDATERS] {
    let mut waits = [Duration::ZERO; MOST_UPDATERS];
    for by in 0..deck.updaters() {
        let place = by as usize;
        if place < MOST_UPDATERS {
            waits[place] = wait_of_each(time, deck.updates(by).len() as u64);
        }
    }
    waits
}

/// The gate of a cast at a rate. Without a rate, or if the deck can't be run or is no plain file, nothing waits at the gate.
pub fn gate_of<R: Files + Print + Clock + Clone + Drop>(
    rt: &R,
    alloc: Global,
    name: &str,
    rate: Option<u32>,
) -> Result<PacedGate<R>, NoMemory> {
    let clock = rt.clone()?;
    let Some(rate) = rate else {
        return Ok(PacedGate::open(clock));
    };
    let files = rt.clone()?;
    let Some(planned) = runnable_again(rt, alloc, files, name) else {
        return Ok(PacedGate::open(clock));
    };
    let deck = planned.deck();
    let time = time_on_air(buckets_of(&planned), rate);
    Ok(PacedGate::from_now(
        clock,
        waits_of(deck, time),
        wait_of_each(time, u64::from(LOOKS)),
    ))
}
