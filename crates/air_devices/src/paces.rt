//! How fast a mast sends: how long it waits before each datagram.
//!
//! A mast that wasn't given a rate rests after every few datagrams, so that a listener on the same machine can empty its
//! buffer. A mast with a rate keeps to it as far as it can. No clause mentions time. If the clock fails, nothing waits.

use std::thread;
use std::time::{Clock, Duration, Instant};

/// After this many datagrams a mast without a rate rests.
const BURST: u64 = 8;

/// How long the mast rests, in milliseconds.
const REST: u64 = 1;

/// The shortest wait, in milliseconds: the system can't keep a shorter one.
const SHORTEST_WAIT: u64 = 1;

/// The nanoseconds of a second.
const SECOND: u64 = 1_000_000_000;

/// How many datagrams were sent, when the first was sent and, if there is a rate, how many nanoseconds each datagram has.
#[derive(Drop)]
pub(crate) struct Pace {
    step: Option<u64>,
    since: Option<Instant>,
    sent: u64,
}

/// Waits until this much time has passed since then. A wait of less than a millisecond is left out.
pub(crate) fn wait_until<R: Clock>(clock: &R, since: Instant, due: Duration) {
    let Ok(gone) = since.elapsed(clock) else {
        return;
    };
    let ahead = due.saturating_sub(gone);
    if Duration::from_millis(SHORTEST_WAIT) <= ahead {
        thread::sleep(clock, ahead);
    }
}

impl Pace {
    /// The pace of this many datagrams a second, if a rate is given; 0 counts as 1.
    pub fn new(rate: Option<u32>) -> Pace {
        let step = match rate {
            Some(rate) => Some(SECOND / u64::from(rate.max(1))),
            None => None,
        };
        Pace {
            step,
            since: None,
            sent: 0,
        }
    }

    /// Waits until the next datagram may be sent, and counts it.
    pub fn wait<R: Clock>(&mut self, clock: &R) {
        let sent = self.sent;
        self.sent = sent.saturating_add(1);
        match self.step {
            Some(step) => self.wait_since_first(
                clock,
                Duration::from_nanos(sent.saturating_mul(step)),
            ),
            None if sent % BURST == BURST - 1 => thread::sleep(clock, Duration::from_millis(REST)),
            None => {}
        }
    }

    /// Waits until this much time has passed since the first datagram.
    fn wait_since_first<R: Clock>(&mut self, clock: &R, due: Duration) {
        match self.since {
            Some(since) => wait_until(clock, since, due),
            None => self.since = Instant::now(clock).ok(),
        }
    }
}
