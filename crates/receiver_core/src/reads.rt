//! A list of at most sixteen reads, as verdict lines show them.
//!
//! It lies in its owner and takes no memory. An attempt has one, and the last verdict has one.

ghost use Rattle.std.specs.Prelude.{◌≡◌, ◌<◌, ◌≤◌, [], ◌∷◌, ◌++◌, length};

use air_base::ReadOf;
use held_reads::ROOM;
use std::marker::Model;

/// Reads in order.
#[derive(Drop)]
pub struct ReadList {
    places: [ReadOf; ROOM],
    len: usize,
}

impl Model for ReadList {
    ghost use Rattle.std.specs.Prelude.{◌≤◌, List, take};
    ghost use Rattle.air_base.specs.declared.verdicts.ReadOf.{ReadOf};
    ghost use Rattle.held_reads.specs.declared.held.TheConstants.{ROOM};

    ghost Value = { List ReadOf };

    ghost view = { λ r. take r.len r.places };

    ghost invariant = { λ r. r.len ≤ ROOM };
}

impl ReadList {
    /// Makes a list of no reads.
    pub fn new() -> ReadList
        ensures { result ≡ [] }
    {
        let blank = ReadOf {
            item: 0,
            cycle: 0,
            value: 0,
        };
        ReadList {
            places: [blank; ROOM],
            len: 0,
        }
    }

    /// Returns the reads.
    pub fn as_slice(&self) -> &[ReadOf]
        ensures { result.now ≡ self.now }
    {
        &self.places[..self.len]
    }

    /// Adds one read, after the others.
    pub fn push(&mut self, read: ReadOf)
        requires { length self.old < ROOM }
        ensures { self.new ≡ self.old ++ read ∷ [] }
    {
        self.places[self.len] = read;
        self.len += 1;
    }

    /// Puts these reads in place of the others.
    pub fn set(&mut self, reads: &[ReadOf])
        requires { length reads.now ≤ ROOM }
        ensures { self.new ≡ reads.now }
    {
        self.places[..reads.len()].copy_from_slice(reads);
        self.len = reads.len();
    }

    /// Drops all reads.
    pub fn clear(&mut self)
        ensures { self.new ≡ [] }
    {
        self.len = 0;
    }
}
