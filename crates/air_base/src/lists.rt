//! Lists as other types hold them: each is seen by contracts as the list of its items.
//!
//! A `Vec` becomes such a list, and a list lends its items, both without taking memory.

ghost use Rattle.std.specs.Prelude.{◌≡◌, ◌<◌, length, set};

use crate::verdicts::ReadOf;
use std::marker::Model;

/// A list of values, such as the values that an update read or wrote.
#[derive(Debug, Drop)]
pub struct Values {
    items: Vec<u64>,
}

impl Model for Values {
    ghost use Rattle.std.specs.Prelude.{List, ℕ};

    ghost Value = { List ℕ };

    ghost view = { λ list. list.items.items };
}

impl Values {
    /// The list of the items of a vector.
    pub fn from_vec(items: Vec<u64>) -> Self
        ensures { result ≡ items.items }
    {
        Values { items }
    }

    /// The items in order.
    pub fn as_slice(&self) -> &[u64]
        ensures { result.now ≡ self.now }
    {
        &self.items
    }

    /// Replaces the value at a place.
    pub fn put(&mut self, place: usize, value: u64)
        requires { place < length self.old }
        ensures { self.new ≡ set self.old place value }
    {
        self.items[place] = value;
    }
}

/// A list of reads, such as the reads of an attempt in the order of reading.
#[derive(Debug, Drop)]
pub struct Reads {
    items: Vec<ReadOf>,
}

impl Model for Reads {
    ghost use Rattle.std.specs.Prelude.{List};
    ghost use Rattle.air_base.specs.declared.verdicts.ReadOf.{ReadOf};

    ghost Value = { List ReadOf };

    ghost view = { λ list. list.items.items };
}

impl Reads {
    /// The list of the items of a vector.
    pub fn from_vec(items: Vec<ReadOf>) -> Self
        ensures { result ≡ items.items }
    {
        Reads { items }
    }

    /// The items in order.
    pub fn as_slice(&self) -> &[ReadOf]
        ensures { result.now ≡ self.now }
    {
        &self.items
    }
}

/// A list of row numbers of a report.
#[derive(Debug, Drop)]
pub struct Rows {
    items: Vec<u32>,
}

impl Model for Rows {
    ghost use Rattle.std.specs.Prelude.{List, ℕ};

    ghost Value = { List ℕ };

    ghost view = { λ list. list.items.items };
}

impl Rows {
    /// The list of the items of a vector.
    pub fn from_vec(items: Vec<u32>) -> Self
        ensures { result ≡ items.items }
    {
        Rows { items }
    }

    /// The items in order.
    pub fn as_slice(&self) -> &[u32]
        ensures { result.now ≡ self.now }
    {
        &self.items
    }
}

/// A list of sizes of disks.
#[derive(Debug, Drop)]
pub struct Sizes {
    items: Vec<u16>,
}

impl Model for Sizes {
    ghost use Rattle.std.specs.Prelude.{List, ℕ};

    ghost Value = { List ℕ };

    ghost view = { λ list. list.items.items };
}

impl Sizes {
    /// The list of the items of a vector.
    pub fn from_vec(items: Vec<u16>) -> Self
        ensures { result ≡ items.items }
    {
        Sizes { items }
    }

    /// The items in order.
    pub fn as_slice(&self) -> &[u16]
        ensures { result.now ≡ self.now }
    {
        &self.items
    }
}
