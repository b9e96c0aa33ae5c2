//! A mast that gathers what is sent as a tape. All its room is taken at once.
//!
//! A send fails if and only if there is no room for its record; aiming and finishing never fail. No call takes memory.

ghost use Rattle.std.specs.Prelude.{◌≡◌, ◌<◌, ◌^◌, ◌↔◌, [], ◌∷◌, length, None, Some, IfOk, IsErr, IsOk, IsTrue, OnErr, OnOk};
ghost use Rattle.air_model.specs.Tapes.{tape_of};
ghost use Rattle.air_devices.specs.Counts.{TellsFailure};
ghost use Rattle.air_devices.specs.Masts.{Changes, fresh_mast, with_buckets, with_end};
ghost use Rattle.air_devices.specs.Recordings.{no_records, overflows_record};
ghost use Rattle.air_sender.specs.TapeMasts.{tape_mast_state, told_by_tape};

use air_base::NoMemory;
use air_devices::{Failed, Mast, TapeRoom};
use std::alloc::Global;

/// A tape of the sent buckets, and the room for it.
#[derive(Drop)]
pub struct TapeMast {
    tape: TapeRoom,
    ended: Option<usize>,
    faults: u64,
    port: Option<u16>,
}

impl TapeMast {
    /// A mast that has sent nothing, with room for a tape of this number of bytes.
    pub fn new(alloc: Global, bytes: u64) -> Result<TapeMast, NoMemory>
        ensures fresh { IfOk result (λ t. tape_mast_state t ≡ fresh_mast) }
        ensures room { IfOk result (λ t. t.tape.room ≡ bytes) }
    {
        let tape = TapeRoom::new(alloc, bytes as usize)?;
        Ok(TapeMast {
            tape,
            ended: None,
            faults: 0,
            port: None,
        })
    }

    /// The tape of what was sent.
    pub fn tape(&self) -> &[u8]
        ensures { result.now ≡ tape_of (told_by_tape self.now).buckets }
    {
        self.tape.as_slice()
    }

    /// Forgets what was sent; the room stays.
    pub fn clear(&mut self)
        ensures { self.new ≡ record self.old { tape = no_records self.old.tape.room; ended = None } }
    {
        self.tape.clear();
        self.ended = None;
    }
}

impl Mast for TapeMast {
    ghost state = { tape_mast_state };

    fn aim(&mut self, port: u16) -> Result<(), Failed>
        ensures done { IsOk result }
        ensures aimed { self.new ≡ record self.old { port = Some port } }
        ensures cause { TellsFailure self.old.faults self.new.faults result }
    {
        self.port = Some(port);
        Ok(())
    }

    fn send(&mut self, bytes: &[u8]) -> Result<(), Failed>
        requires { length bytes.now < 2 ^ 32 }
        ensures fails { IsErr result ↔ IsTrue (overflows_record self.old.tape bytes.now) }
        ensures room { self.new.tape.room ≡ self.old.tape.room }
        ensures added { OnOk result (Changes (with_buckets (bytes.now ∷ [])) (Some (told_by_tape self.old)) (Some (told_by_tape self.new))) }
        ensures refused { OnErr result (told_by_tape self.new ≡ told_by_tape self.old) }
        ensures port { self.new.port ≡ self.old.port }
        ensures cause { TellsFailure self.old.faults self.new.faults result }
    {
        if !self.tape.add(bytes) {
            self.faults = self.faults.saturating_add(1);
            return Err(Failed);
        }
        Ok(())
    }

    fn finish(&mut self) -> Result<(), Failed>
        ensures done { IsOk result }
        ensures ended { told_by_tape self.new ≡ with_end (told_by_tape self.old) }
        ensures rest { self.new ≡ record self.old { ended = self.new.ended } }
        ensures cause { TellsFailure self.old.faults self.new.faults result }
    {
        let sent = self.tape.count();
        self.ended = Some(self.ended.unwrap_or(sent));
        Ok(())
    }
}
