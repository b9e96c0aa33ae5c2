//! The trait of what is called around each commit, each cycle and each look of jobs that run at the same time.
//!
//! The calls promise and refuse nothing. A gate that waits lets jobs meet, as tests do.

/// Calls before and after what the jobs do.
pub trait Gate {
    /// The updater is about to commit its update of this number.
    fn before_commit(&self, by: u32, seq: u32);

    /// The updater committed that update.
    fn after_commit(&self, by: u32, seq: u32);

    /// The cycle is about to start.
    fn before_cycle(&self, cycle: u32);

    /// The last bucket of the cycle was sent.
    fn after_cycle(&self, cycle: u32);

    /// A monitor is about to look, after this many looks of its job.
    fn before_look(&self, look: u32);

    /// The monitor looked.
    fn after_look(&self, look: u32);
}

/// A gate whose calls return at once.
#[derive(Clone, Copy, Debug, PartialEq, Eq)]
pub struct OpenGate;

impl Gate for OpenGate {
    fn before_commit(&self, _by: u32, _seq: u32) {}

    fn after_commit(&self, _by: u32, _seq: u32) {}

    fn before_cycle(&self, _cycle: u32) {}

    fn after_cycle(&self, _cycle: u32) {}

    fn before_look(&self, _look: u32) {}

    fn after_look(&self, _look: u32) {}
}
