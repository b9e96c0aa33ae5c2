//! Where a tape is cut, found while its pieces go by. Only the length of the record that isn't whole is kept.

ghost use Rattle.std.specs.Prelude.{◌≤◌, length};

use crate::words::sentences::Sentence;
use crate::words::texts::ShownText;
use air_base::NoMemory;
use bucket_codec::offsets::LENGTH_BYTES;
use std::alloc::Global;

/// What the pieces fed so far have of the first record that isn't whole. They are those of the tape, one after another.
#[derive(Drop)]
pub struct CutTape {
    /// The record's number, counted from 1.
    number: u64,
    /// The bytes of its length that are there, after zeros.
    length_bytes: [u8; LENGTH_BYTES],
    /// The number of its bytes that are there, including those of its length.
    there: usize,
}

impl CutTape {
    /// A tape of which nothing has been fed.
    pub fn new() -> CutTape {
        CutTape {
            number: 1,
            length_bytes: [0; LENGTH_BYTES],
            there: 0,
        }
    }

    /// Takes the next piece.
    pub fn feed(&mut self, piece: &[u8]) {
        let mut rest = piece;
        while let Some((byte, more)) = rest.split_first() {
            rest = self.take(*byte, more);
        }
    }

    /// Takes a byte and those after it that are of the same record, and returns the bytes that are left. Of a record's length it takes one byte only.
    fn take<'a>(&mut self, byte: u8, more: &'a [u8]) -> &'a [u8]
        ensures { length result.now ≤ length more.now }
    {
        if self.there < LENGTH_BYTES {
            let [_, second, third, last] = self.length_bytes;
            self.length_bytes = [second, third, last, byte];
        }
        self.there = self.there.saturating_add(1);
        if self.there < LENGTH_BYTES {
            return more;
        }
        let size = LENGTH_BYTES + u32::from_be_bytes(self.length_bytes) as usize;
        let count = size.saturating_sub(self.there).min(more.len());
        self.there = self.there.saturating_add(count);
        if size <= self.there {
            self.number = self.number.saturating_add(1);
            self.length_bytes = [0; LENGTH_BYTES];
            self.there = 0;
        }
        &more[count..]
    }

    /// What of the record is there; empty if the tape ends after a whole one.
    fn part_note(&self) -> Sentence<'static> {
        if self.there == 0 {
            return Sentence::numbers("", 0, 0, 0);
        }
        let Some(there) = self.there.checked_sub(LENGTH_BYTES) else {
            let wording = "of the #second# bytes of its length #first# are there";
            return Sentence::numbers(wording, self.there as u64, LENGTH_BYTES as u64, 0);
        };
        let size = u32::from_be_bytes(self.length_bytes);
        let wording = "of its #second# bytes #first# are there";
        Sentence::numbers(wording, there as u64, size as u64, 0)
    }

    /// Which record of the tape is cut, after all of it was fed: the one that begins at this byte.
    pub fn note(&self, alloc: Global, name: &str, at: u64) -> Result<String, NoMemory> {
        let name = ShownText::whole(name);
        let record = self.number;
        let part = self.part_note();
        Ok(format!(in alloc; "{name}: record {record}, which begins at byte {at}, is cut: {part}")?)
    }
}
