//! The trait of a device that hears buckets on a port, up to an end mark.
//!
//! A device form tells what is still to be heard, or nothing. Each call changes one thing, and leaves all else unchanged. A
//! call answers `Failed` only if its count went up, and otherwise leaves the count unchanged.

ghost use Rattle.std.specs.Prelude.{◌≡◌, ◌<◌, length, Some, None, IfOk, IsSome, OnErr};
ghost use Rattle.air_devices.specs.Counts.{TellsFailure};
ghost use Rattle.air_devices.specs.Ears.{EarState, Hears};

use crate::shelves::Failed;

/// What was heard.
#[derive(Clone, Copy, Debug, PartialEq, Eq)]
pub enum Heard {
    /// A bucket, of which this many bytes are at the beginning of the buffer.
    Bucket(usize),
    /// The end mark.
    Over,
}

/// Buckets that are heard one after another on a port.
pub trait Ear {
    /// What the ear tells of what is still to be heard, how often its calls failed, and the port that it was tuned to, if it
    /// was tuned.
    ghost state: { Self → EarState };

    /// Begins to hear on a port, which is then its port, even if the call fails.
    fn tune_in(&mut self, port: u16) -> Result<(), Failed>
        requires untuned { (state self.old).port ≡ None }
        ensures tuned { (state self.new).port ≡ Some port }
        ensures kept { (state self.new).told ≡ (state self.old).told }
        ensures cause { TellsFailure (state self.old).faults (state self.new).faults result };

    /// Hears one bucket, and puts as much of it as there is room for at the beginning of the buffer; or hears the end mark.
    fn hear(&mut self, buf: &mut [u8]) -> Result<Heard, Failed>
        requires room { 0 < length buf.old }
        requires tuned { IsSome (state self.old).port }
        ensures heard { IfOk result (Hears (state self.old).told (state self.new).told buf.new) }
        ensures refused { OnErr result ((state self.new).told ≡ (state self.old).told) }
        ensures port { (state self.new).port ≡ (state self.old).port }
        ensures cause { TellsFailure (state self.old).faults (state self.new).faults result };
}
