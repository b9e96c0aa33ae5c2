//! A gate for tests, at which an updater's second commit, the third cycle and a monitor's hundredth look meet.
//!
//! The first cycle waits for the first commit. The second commit and the hundredth look wait until the third cycle is about to start, and
//! that cycle waits for both. So the history is a commit, two starts, the second commit, and a start; and the last look shows cycle 2.
#![tactic(auto)]

use air_devices::Gate;
use std::sync::atomic::{AtomicU64, Ordering};
use std::thread;

/// The greatest number of times that a thread looks whether another came.
const TURNS: u64 = 1_000_000_000;

/// The calls that were made, and the number of times that one was waited for in vain.
#[derive(Drop)]
pub struct MeetingGate {
    first_committed: AtomicU64,
    second_commits: AtomicU64,
    second_committed: AtomicU64,
    third_starts: AtomicU64,
    third_aired: AtomicU64,
    last_looks: AtomicU64,
    last_looked: AtomicU64,
    in_vain: AtomicU64,
}

/// Marks that the call was made.
fn mark(count: &AtomicU64) {
    count.fetch_add(1, Ordering::SeqCst);
}

impl MeetingGate {
    /// No call was made.
    pub fn new() -> MeetingGate {
        MeetingGate {
            first_committed: AtomicU64::new(0),
            second_commits: AtomicU64::new(0),
            second_committed: AtomicU64::new(0),
            third_starts: AtomicU64::new(0),
            third_aired: AtomicU64::new(0),
            last_looks: AtomicU64::new(0),
            last_looked: AtomicU64::new(0),
            in_vain: AtomicU64::new(0),
        }
    }

    /// Waits until the call was made.
    fn wait_for(&self, count: &AtomicU64) {
        for _ in 0..TURNS {
            if count.load(Ordering::SeqCst) > 0 {
                return;
            }
            thread::yield_now();
        }
        mark(&self.in_vain);
    }

    /// How often each named call was made, and how often one was waited for in vain.
    pub fn counts(&self) -> [u64; 8] {
        [
            self.first_committed.load(Ordering::SeqCst),
            self.second_commits.load(Ordering::SeqCst),
            self.second_committed.load(Ordering::SeqCst),
            self.third_starts.load(Ordering::SeqCst),
            self.third_aired.load(Ordering::SeqCst),
            self.last_looks.load(Ordering::SeqCst),
            self.last_looked.load(Ordering::SeqCst),
            self.in_vain.load(Ordering::SeqCst),
        ]
    }
}

impl Gate for MeetingGate {
    fn before_commit(&self, by: u32, seq: u32) {
        if (by, seq) == (0, 1) {
            mark(&self.second_commits);
            self.wait_for(&self.third_starts);
        }
    }

    fn after_commit(&self, by: u32, seq: u32) {
        match (by, seq) {
            (0, 0) => mark(&self.first_committed),
            (0, 1) => mark(&self.second_committed),
            _ => {}
        }
    }

    fn before_cycle(&self, cycle: u32) {
        match cycle {
            1 => self.wait_for(&self.first_committed),
            3 => {
                mark(&self.third_starts);
                self.wait_for(&self.second_committed);
                self.wait_for(&self.last_looked);
            }
            _ => {}
        }
    }

    fn after_cycle(&self, cycle: u32) {
        if cycle == 3 {
            mark(&self.third_aired);
        }
    }

    fn before_look(&self, look: u32) {
        if look == 99 {
            mark(&self.last_looks);
            self.wait_for(&self.third_starts);
        }
    }

    fn after_look(&self, look: u32) {
        if look == 99 {
            mark(&self.last_looked);
        }
    }
}
