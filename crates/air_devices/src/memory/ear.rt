//! An ear in memory: it tells all that it has still to hear, and fails at the calls that it is told to fail at.
//!
//! Its calls are numbered together from 1, and a call whose number is listed fails. It hears the end when its list is used up.
//! No call takes memory.

ghost use Rattle.std.specs.Prelude.{◌≡◌, ◌≤◌, ◌<◌, ◌↔◌, Some, length, map, take, All, IfOk, IsErr, IsTrue, OnErr};
ghost use Rattle.air_devices.specs.Calls.{IsNextCall, is_next_listed};
ghost use Rattle.air_devices.specs.Counts.{TellsFailure};
ghost use Rattle.air_devices.specs.Ears.{Hears};
ghost use Rattle.air_devices.specs.MemoryEars.{IsNewEar, memory_ear_state};

use crate::ears::{Ear, Heard};
use crate::memory::calls::Calls;
use crate::shelves::Failed;
use std::marker::Model;

/// The buckets to be heard, and how many of them were heard.
#[derive(Drop)]
pub struct MemEar {
    heard: Vec<Vec<u8>>,
    at: usize,
    port: Option<u16>,
    calls: Calls,
}

impl Model for MemEar {
    ghost use Rattle.air_devices.specs.MemoryEars.{IsMemEar, MemEarState, listening_in};

    ghost Value = { MemEarState };

    ghost view = { listening_in };

    ghost invariant = { IsMemEar };
}

impl MemEar {
    /// An ear that has these buckets still to hear, each of at least one byte. The calls whose numbers are listed in `fail`
    /// fail.
    pub fn new(heard: Vec<Vec<u8>>, fail: Vec<u64>) -> MemEar
        requires filled { All (λ bytes. 1 ≤ length bytes.items) heard.items }
        ensures { IsNewEar (map (λ bytes. bytes.items) heard.items) fail.items result }
    {
        MemEar {
            heard,
            at: 0,
            port: None,
            calls: Calls::new(fail),
        }
    }
}

/// Copies as much of the bytes as there is room for to the beginning of the buffer, and gives their number.
fn fill(buf: &mut [u8], bytes: &[u8]) -> usize
    requires room { 0 < length buf.old }
    requires some { 1 ≤ length bytes.now }
    ensures some { 1 ≤ result }
    ensures within { result ≤ length buf.new }
    ensures beginning { take result buf.new ≡ take (length buf.new) bytes.now }
{
    let count = bytes.len().min(buf.len());
    buf[..count].copy_from_slice(&bytes[..count]);
    count
}

impl Ear for MemEar {
    ghost state = { memory_ear_state };

    fn tune_in(&mut self, port: u16) -> Result<(), Failed>
        ensures fails { IsErr result ↔ IsTrue (is_next_listed self.old.calls) }
        ensures call { IsNextCall self.old.calls self.new.calls }
        ensures tuned { self.new.port ≡ Some port }
        ensures kept { self.new.waiting ≡ self.old.waiting }
        ensures cause { TellsFailure self.old.calls.faults self.new.calls.faults result }
    {
        self.port = Some(port);
        if self.calls.is_to_fail() {
            return Err(self.calls.fault());
        }
        Ok(())
    }

    fn hear(&mut self, buf: &mut [u8]) -> Result<Heard, Failed>
        requires { 0 < length buf.old }
        ensures fails { IsErr result ↔ IsTrue (is_next_listed self.old.calls) }
        ensures call { IsNextCall self.old.calls self.new.calls }
        ensures heard { IfOk result (Hears (Some self.old.waiting) (Some self.new.waiting) buf.new) }
        ensures refused { OnErr result (self.new.waiting ≡ self.old.waiting) }
        ensures port { self.new.port ≡ self.old.port }
        ensures cause { TellsFailure self.old.calls.faults self.new.calls.faults result }
    {
        if self.calls.is_to_fail() {
            return Err(self.calls.fault());
        }
        let Some(bytes) = self.heard.get(self.at) else {
            return Ok(Heard::Over);
        };
        let count = fill(buf, bytes);
        self.at += 1;
        Ok(Heard::Bucket(count))
    }
}
