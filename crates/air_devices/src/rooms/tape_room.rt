//! A tape in a room of fixed size: the memory is taken when the room is made, and adding a record takes none.
//!
//! Contracts see the records and the room. A record is added after those before it, with its length in four bytes. If there is
//! no room for all of it, it isn't added at all, and the answer says so.

ghost use Rattle.std.specs.Prelude.{◌≡◌, ◌≤◌, ◌<◌, ◌+◌, ◌^◌, ◌++◌, [], ◌∷◌, length, not, if◌then◌else◌, vec_capacity, vec_len, IfOk};
ghost use Rattle.air_model.specs.Tapes.{record_bytes, tape_of};
ghost use Rattle.air_devices.specs.Recordings.{no_records, overflows_record};

use air_base::NoMemory;
use std::alloc::Global;
use std::marker::Model;

/// The tape of some records, and the room for more.
#[derive(Drop)]
pub struct TapeRoom {
    tape: Vec<u8>,
    room: usize,
    count: usize,
}

impl Model for TapeRoom {
    ghost use Rattle.air_devices.specs.Recordings.{IsTapeRoom, Recording, recording_in};

    ghost Value = { Recording };

    ghost view = { recording_in };

    ghost invariant = { IsTapeRoom };
}

impl TapeRoom {
    /// No records, with room for a tape of this many bytes.
    pub fn new(alloc: Global, room: usize) -> Result<TapeRoom, NoMemory>
        ensures { IfOk result (λ t. t ≡ no_records room) }
    {
        let tape = Vec::with_capacity(alloc, room)?;
        Ok(TapeRoom {
            tape,
            room,
            count: 0,
        })
    }

    /// The tape of the records.
    pub fn as_slice(&self) -> &[u8]
        ensures { result.now ≡ tape_of self.now.records }
    {
        self.tape.as_slice()
    }

    /// The number of records.
    pub fn count(&self) -> usize
        ensures { result ≡ length self.now.records }
    {
        self.count
    }

    /// Drops the records; the room stays.
    pub fn clear(&mut self)
        ensures { self.new ≡ no_records self.old.room }
    {
        self.tape.clear();
        self.count = 0;
    }

    /// Adds a record if there is room for it and its length, and says whether there was.
    pub fn add(&mut self, bytes: &[u8]) -> bool
        requires { length bytes.now < 2 ^ 32 }
        ensures whole { result ≡ not (overflows_record self.old bytes.now) }
        ensures added { self.new ≡ (if result then record self.old { records = self.old.records ++ bytes.now ∷ [] } else self.old) }
    {
        let left = self.room - self.tape.len();
        if left < 4 || left - 4 < bytes.len() {
            return false;
        }
        put_record(&mut self.tape, bytes);
        self.count += 1;
        true
    }
}

/// Adds a record for which there is memory: its length in four bytes, then its own.
#[tactic(auto, using(crate::proofs::RecordLemmas::record_put))]
fn put_record(tape: &mut Vec<u8>, bytes: &[u8])
    requires short { length bytes.now < 2 ^ 32 }
    requires room { vec_len tape.old + 4 + length bytes.now ≤ vec_capacity tape.old }
    ensures items { tape.new.items ≡ tape.old.items ++ record_bytes bytes.now }
    ensures capacity { vec_capacity tape.old ≤ vec_capacity tape.new }
{
    put(tape, &(bytes.len() as u32).to_be_bytes());
    put(tape, bytes);
}

/// Adds bytes for which there is memory.
fn put(tape: &mut Vec<u8>, bytes: &[u8])
    requires { vec_len tape.old + length bytes.now ≤ vec_capacity tape.old }
    ensures items { tape.new.items ≡ tape.old.items ++ bytes.now }
    ensures capacity { vec_capacity tape.old ≤ vec_capacity tape.new }
{
    let added = tape.extend_from_slice(bytes).is_ok();
    prove!(added);
}
