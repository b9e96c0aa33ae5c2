//! The trait of a device that sends buckets to anyone who listens, and an end mark.
//!
//! A device form tells what it sent, or nothing. Each call changes one thing, and leaves all else unchanged. A call answers
//! `Failed` only if its count went up, and otherwise leaves the count unchanged.

ghost use Rattle.std.specs.Prelude.{◌≡◌, ◌≤◌, [], ◌∷◌, length, Some, None, OnErr, OnOk};
ghost use Rattle.air_base.specs.declared.limits.TheConstants.{MOST_DATAGRAM_BYTES};
ghost use Rattle.air_devices.specs.Counts.{TellsFailure};
ghost use Rattle.air_devices.specs.Masts.{Changes, MastState, nothing_sent, with_buckets, with_end};
ghost use Rattle.air_devices.specs.WhatIsTold.{WhereTold};

use crate::shelves::Failed;

/// Buckets that are sent one after another on a port.
pub trait Mast {
    /// What the mast tells of what it sent, how often its calls failed, and the port that it was aimed at, if it was aimed.
    ghost state: { Self → MastState };

    /// Aims at a port, which is then its port, even if the call fails.
    fn aim(&mut self, port: u16) -> Result<(), Failed>
        requires unaimed { (state self.old).port ≡ None }
        requires unsent { WhereTold (state self.old).told (λ s. s ≡ nothing_sent) }
        ensures aimed { (state self.new).port ≡ Some port }
        ensures kept { (state self.new).told ≡ (state self.old).told }
        ensures cause { TellsFailure (state self.old).faults (state self.new).faults result };

    /// Sends one bucket.
    fn send(&mut self, bytes: &[u8]) -> Result<(), Failed>
        requires some { 1 ≤ length bytes.now }
        requires few { length bytes.now ≤ MOST_DATAGRAM_BYTES }
        ensures added { OnOk result (Changes (with_buckets (bytes.now ∷ [])) (state self.old).told (state self.new).told) }
        ensures refused { OnErr result ((state self.new).told ≡ (state self.old).told) }
        ensures port { (state self.new).port ≡ (state self.old).port }
        ensures cause { TellsFailure (state self.old).faults (state self.new).faults result };

    /// Sends the end mark. Sent again, it changes nothing of what the mast tells.
    fn finish(&mut self) -> Result<(), Failed>
        ensures ended { OnOk result (Changes with_end (state self.old).told (state self.new).told) }
        ensures refused { OnErr result ((state self.new).told ≡ (state self.old).told) }
        ensures port { (state self.new).port ≡ (state self.old).port }
        ensures cause { TellsFailure (state self.old).faults (state self.new).faults result };
}
