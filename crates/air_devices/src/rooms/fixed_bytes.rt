//! Bytes in a room of fixed size: the memory is taken when the room is made, and writing takes none.
//!
//! Contracts see the bytes that were written and the room. What doesn't fit is left out, and the answer says so.

ghost use Rattle.std.specs.Prelude.{◌≡◌, ◌≤◌, ◌+◌, ◌-◌, ◌++◌, ◌↔◌, [], length, take, IfOk, IsTrue};

use air_base::NoMemory;
use std::alloc::Global;
use std::marker::Model;

/// The bytes that were written to a room of fixed size.
#[derive(Drop)]
pub struct FixedBytes {
    buffer: Vec<u8>,
    len: usize,
}

impl Model for FixedBytes {
    ghost use Rattle.std.specs.Prelude.{◌≤◌, length, take};
    ghost use Rattle.air_devices.specs.WrittenBytes.{WrittenBytes};

    ghost Value = { WrittenBytes };

    ghost view = { λ text. record { bytes = take text.len text.buffer.items; room = length text.buffer.items } };

    ghost invariant = { λ text. text.len ≤ length text.buffer.items };
}

impl FixedBytes {
    /// No bytes, with room for this many.
    pub fn new(alloc: Global, room: usize) -> Result<FixedBytes, NoMemory>
        ensures { IfOk result (λ text. text ≡ record { bytes = []; room = room }) }
    {
        let buffer = vec![in alloc; 0; room]?;
        Ok(FixedBytes { buffer, len: 0 })
    }

    /// The bytes that were written.
    pub fn as_slice(&self) -> &[u8]
        ensures { result.now ≡ self.now.bytes }
    {
        &self.buffer[..self.len]
    }

    /// Drops the bytes; the room stays.
    pub fn clear(&mut self)
        ensures { self.new ≡ record self.old { bytes = [] } }
    {
        self.len = 0;
    }

    /// Adds what fits of the bytes, and says whether all of them fit.
    pub fn add(&mut self, bytes: &[u8]) -> bool
        ensures added { self.new ≡ record self.old { bytes = self.old.bytes ++ take (self.old.room - length self.old.bytes) bytes.now } }
        ensures whole { IsTrue result ↔ (length self.old.bytes + length bytes.now ≤ self.old.room) }
    {
        let count = bytes.len().min(self.buffer.len() - self.len);
        let end = self.len + count;
        self.buffer[self.len..end].copy_from_slice(&bytes[..count]);
        self.len = end;
        count == bytes.len()
    }
}
