//! The calls of a device in memory, which fails at the calls that it is told to fail at.
//!
//! They are numbered together from 1, and a call whose number is listed fails. Failed calls are counted here too, for any
//! reason of failure. All devices in memory use this.

ghost use Rattle.std.specs.Prelude.{◌≡◌, ◌≤◌};
ghost use Rattle.air_devices.specs.Calls.{AreNewCalls, is_next_listed, next_call};
ghost use Rattle.air_devices.specs.Counts.{Rose};

use crate::shelves::Failed;

/// The numbers of the calls that are to fail, how many were made, and how many failed.
#[derive(Drop)]
pub(crate) struct Calls {
    fail: Vec<u64>,
    made: u64,
    faults: u64,
}

impl Calls {
    /// No call was made yet; those whose numbers are listed in `fail` will fail.
    pub fn new(fail: Vec<u64>) -> Calls
        ensures { AreNewCalls fail.items result }
    {
        Calls {
            fail,
            made: 0,
            faults: 0,
        }
    }

    /// Numbers a call, and says whether its number is listed, which makes it fail.
    pub fn is_to_fail(&mut self) -> bool
        ensures numbered { self.new ≡ record self.old { made = next_call self.old } }
        ensures listed { result ≡ is_next_listed self.old }
    {
        self.made = self.made.saturating_add(1);
        let number = self.made;
        self.fail.iter().any(|listed| *listed == number)
    }

    /// Counts a failure.
    pub fn fault(&mut self) -> Failed
        ensures rose { Rose self.old.faults self.new.faults }
        ensures later { self.old.faults ≤ self.new.faults }
        ensures rest { self.new ≡ record self.old { faults = self.new.faults } }
    {
        self.faults = self.faults.saturating_add(1);
        Failed
    }
}
