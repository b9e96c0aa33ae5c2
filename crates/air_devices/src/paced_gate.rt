//! A gate at which commits and looks wait, so that they spread over the time of a run.
//!
//! No clause mentions time. If the clock fails, nothing waits.

use crate::gates::Gate;
use crate::paces::wait_until;
use air_base::limits::MOST_UPDATERS;
use std::time::{Clock, Duration, Instant};

/// How long each updater and each monitor waits before each commit or look, counted from the time when the gate was made.
#[derive(Drop)]
pub struct PacedGate<R: Clock + Drop> {
    clock: R,
    since: Option<Instant>,
    before_commits: [Duration; MOST_UPDATERS],
    before_looks: Duration,
}

impl<R: Clock + Drop> PacedGate<R> {
    /// A gate at which nothing waits.
    pub fn open(clock: R) -> Self {
        PacedGate {
            clock,
            since: None,
            before_commits: [Duration::ZERO; MOST_UPDATERS],
            before_looks: Duration::ZERO,
        }
    }

    /// A gate with these waits, which begin now: one for each updater, by its number, and one for all monitors.
    pub fn from_now(
        clock: R,
        before_commits: [Duration; MOST_UPDATERS],
        before_looks: Duration,
    ) -> Self {
        let since = Instant::now(&clock).ok();
        PacedGate {
            clock,
            since,
            before_commits,
            before_looks,
        }
    }

    /// Waits before the commit or look of this number, counted from 0, if each takes this long.
    fn wait_before(&self, number: u32, wait: Duration) {
        if let Some(since) = self.since {
            wait_until(
                &self.clock,
                since,
                wait.saturating_mul(number.saturating_add(1)),
            );
        }
    }
}

impl<R: Clock + Drop> Gate for PacedGate<R> {
    fn before_commit(&self, by: u32, seq: u32) {
        if let Some(wait) = self.before_commits.get(by as usize) {
            self.wait_before(seq, *wait);
        }
    }

    fn after_commit(&self, _by: u32, _seq: u32) {}

    fn before_cycle(&self, _cycle: u32) {}

    fn after_cycle(&self, _cycle: u32) {}

    fn before_look(&self, look: u32) {
        self.wait_before(look, self.before_looks);
    }

    fn after_look(&self, _look: u32) {}
}
