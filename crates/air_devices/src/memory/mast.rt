//! A mast in memory: it tells all that it sent, and fails at the calls that it is told to fail at.
//!
//! All memory is taken when it is made. Its calls are numbered together from 1, and a call whose number is listed fails. A send
//! past the room fails too, and nothing of it is kept: a bucket takes its own bytes and four more.

ghost use Rattle.std.specs.Prelude.{◌≡◌, ◌<◌, ◌^◌, ◌↔◌, [], ◌∷◌, Some, length, IfOk, IsErr, IsTrue, OnErr, OnOk};
ghost use Rattle.std.specs.Option.{is_some};
ghost use Rattle.air_model.specs.Tapes.{tape_of};
ghost use Rattle.air_devices.specs.Calls.{is_next_listed};
ghost use Rattle.air_devices.specs.Counts.{TellsFailure};
ghost use Rattle.air_devices.specs.Masts.{Changes, with_buckets, with_end};
ghost use Rattle.air_devices.specs.MemoryMasts.{IsNewMast, MadeMastCall, is_send_refused, memory_mast_state, told_by_mast};

use crate::masts::Mast;
use crate::memory::calls::Calls;
use crate::rooms::tape_room::TapeRoom;
use crate::shelves::Failed;
use air_base::NoMemory;
use std::alloc::Global;

/// The buckets that were sent, as a tape, and whether the end was.
#[derive(Drop)]
pub struct MemMast {
    tape: TapeRoom,
    ended: Option<usize>,
    port: Option<u16>,
    calls: Calls,
}

impl MemMast {
    /// A mast that sent nothing, with room for a tape of `room` bytes. The calls whose numbers are listed in `fail` fail.
    pub fn new(alloc: Global, room: usize, fail: Vec<u64>) -> Result<MemMast, NoMemory>
        ensures { IfOk result (IsNewMast room fail.items) }
    {
        let tape = TapeRoom::new(alloc, room)?;
        Ok(MemMast {
            tape,
            ended: None,
            port: None,
            calls: Calls::new(fail),
        })
    }

    /// The sent buckets as a tape.
    pub fn sent(&self) -> &[u8]
        ensures { result.now ≡ tape_of (told_by_mast self.now).buckets }
    {
        self.tape.as_slice()
    }

    /// Whether the end was sent.
    pub fn ended(&self) -> bool
        ensures { result ≡ is_some (told_by_mast self.now).ended }
    {
        self.ended.is_some()
    }
}

impl Mast for MemMast {
    ghost state = { memory_mast_state };

    fn aim(&mut self, port: u16) -> Result<(), Failed>
        ensures fails { IsErr result ↔ IsTrue (is_next_listed self.old.calls) }
        ensures call { MadeMastCall self.old self.new }
        ensures aimed { self.new.port ≡ Some port }
        ensures kept { told_by_mast self.new ≡ told_by_mast self.old }
        ensures cause { TellsFailure self.old.calls.faults self.new.calls.faults result }
    {
        self.port = Some(port);
        if self.calls.is_to_fail() {
            return Err(self.calls.fault());
        }
        Ok(())
    }

    fn send(&mut self, bytes: &[u8]) -> Result<(), Failed>
        requires { length bytes.now < 2 ^ 32 }
        ensures fails { IsErr result ↔ IsTrue (is_send_refused self.old bytes.now) }
        ensures call { MadeMastCall self.old self.new }
        ensures added { OnOk result (Changes (with_buckets (bytes.now ∷ [])) (Some (told_by_mast self.old)) (Some (told_by_mast self.new))) }
        ensures refused { OnErr result (told_by_mast self.new ≡ told_by_mast self.old) }
        ensures port { self.new.port ≡ self.old.port }
        ensures cause { TellsFailure self.old.calls.faults self.new.calls.faults result }
    {
        if self.calls.is_to_fail() || !self.tape.add(bytes) {
            return Err(self.calls.fault());
        }
        Ok(())
    }

    fn finish(&mut self) -> Result<(), Failed>
        ensures fails { IsErr result ↔ IsTrue (is_next_listed self.old.calls) }
        ensures call { MadeMastCall self.old self.new }
        ensures ended { OnOk result (Changes with_end (Some (told_by_mast self.old)) (Some (told_by_mast self.new))) }
        ensures refused { OnErr result (told_by_mast self.new ≡ told_by_mast self.old) }
        ensures port { self.new.port ≡ self.old.port }
        ensures cause { TellsFailure self.old.calls.faults self.new.calls.faults result }
    {
        if self.calls.is_to_fail() {
            return Err(self.calls.fault());
        }
        let sent = self.tape.count();
        self.ended = Some(self.ended.unwrap_or(sent));
        Ok(())
    }
}
