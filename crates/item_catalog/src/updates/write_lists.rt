//! A list of writes while it is read.
//!
//! As in a list of items, a write is kept if all that it names is declared and its item wasn't written before.
//! No part of the text is looked at more than twice.

ghost use Rattle.std.specs.Prelude.{◌≡◌, ◌<◌, ◌≤◌, ◌||◌, IfSome, false, length};
ghost use Rattle.air_base.specs.NumberLists.{list_of};
ghost use Rattle.item_catalog.specs.Writes.{spelled_write};
ghost use Rattle.item_catalog.specs.ListTests.{is_unread, write_reaches};
ghost use Rattle.air_base.specs.ReadParts.{ReadsTo};
ghost use Rattle.item_catalog.specs.KeptLists.{ReadIs, no_writes, see_write, writes_seen};
ghost use Rattle.item_catalog.specs.Private.WriteParts.{write_said};

use crate::updates::item_lists::ItemList;
use crate::updates::leading_writes::{WritePart, leading_write};
use crate::updates::plain_writes::{PLAIN_BYTES, plain_write};
use air_base::limits::MOST_ITEMS;
use air_history::Write;
use std::marker::Model;

/// The writes of declared and distinct items, in order; whether one names what isn't declared, is of an item that was
/// written before, or has a base that isn't read. The first `count` of the array are kept.
#[derive(Debug, Drop)]
pub struct WriteList {
    writes: [Write; MOST_ITEMS],
    marks: [bool; MOST_ITEMS],
    count: usize,
    undeclared: bool,
    repeated: bool,
    unread: bool,
}

impl Model for WriteList {
    ghost use Rattle.std.specs.Prelude.{◌≡◌, ◌≤◌, length, map, take};
    ghost use Rattle.air_base.specs.declared.limits.TheConstants.{MOST_ITEMS};
    ghost use Rattle.air_history.specs.UpdateRules.{written_item};
    ghost use Rattle.item_catalog.specs.KeptLists.{KeptOnce, WritesSeen};

    ghost Value = { WritesSeen };

    ghost view = { λ l. record { writes = take l.count l.writes; undeclared = l.undeclared; repeated = l.repeated; unread = l.unread } };

    ghost invariant = { λ l. (length l.writes ≡ MOST_ITEMS) × (l.count ≤ MOST_ITEMS) × KeptOnce l.marks (map written_item (take l.count l.writes)) };
}

/// Whether a write names an item or a base that isn't below `declared`.
fn reaches(declared: u16, write: WritePart) -> bool
    ensures { result ≡ write_reaches declared (write_said write) }
{
    let declared = u64::from(declared);
    declared <= write.item
        || match write.base {
            Some(base) => declared <= base,
            None => false,
        }
}

/// Whether a write has a base that isn't among the reads.
fn is_unread(reads: &ItemList, write: WritePart) -> bool
    requires { IfSome write.base (λ base. base < MOST_ITEMS) }
    ensures { result ≡ is_unread reads.now.items (write_said write) }
{
    match write.base {
        Some(base) => !reads.has(base as u16),
        None => false,
    }
}

/// A write as an update has it.
fn narrow(write: WritePart) -> Write
    requires item { write.item < MOST_ITEMS }
    requires base { IfSome write.base (λ base. base < MOST_ITEMS) }
    ensures { result ≡ write_said write }
{
    Write {
        item: write.item as u16,
        base: match write.base {
            Some(base) => Some(base as u16),
            None => None,
        },
        minus: write.minus,
        amount: write.amount,
    }
}

impl WriteList {
    /// No writes.
    pub fn new() -> Self
        ensures { result ≡ no_writes }
    {
        let none = Write {
            item: 0,
            base: None,
            minus: false,
            amount: 0,
        };
        WriteList {
            writes: [none; MOST_ITEMS],
            marks: [false; MOST_ITEMS],
            count: 0,
            undeclared: false,
            repeated: false,
            unread: false,
        }
    }

    /// The writes of declared and distinct items.
    pub fn writes(&self) -> &[Write]
        ensures { result.now ≡ self.now.writes }
    {
        &self.writes[..self.count]
    }

    /// Whether a write names what isn't declared.
    pub fn has_undeclared(&self) -> bool
        ensures { result ≡ self.now.undeclared }
    {
        self.undeclared
    }

    /// Whether an item is written twice.
    pub fn has_repeated(&self) -> bool
        ensures { result ≡ self.now.repeated }
    {
        self.repeated
    }

    /// Whether a base isn't read.
    pub fn has_unread(&self) -> bool
        ensures { result ≡ self.now.unread }
    {
        self.unread
    }

    /// Drops the writes.
    fn clear(&mut self)
        ensures { self.new ≡ no_writes }
    {
        self.count = 0;
        self.marks = [false; MOST_ITEMS];
        self.undeclared = false;
        self.repeated = false;
        self.unread = false;
    }

    /// Takes one more write; items below `declared` are declared, and these are read.
    fn see(&mut self, declared: u16, reads: &ItemList, write: WritePart)
        requires { declared ≤ MOST_ITEMS }
        ensures { self.new ≡ see_write declared reads.now.items self.old (write_said write) }
    {
        if reaches(declared, write) {
            self.undeclared = true;
            return;
        }
        let place = write.item as usize;
        if self.marks[place] {
            self.repeated = true;
            return;
        }
        self.writes[self.count] = narrow(write);
        self.count += 1;
        self.marks[place] = true;
        if is_unread(reads, write) {
            self.unread = true;
        }
    }

    /// Takes the writes of the leading plain parts of a list, up to the place at which the rest begins.
    #[inline(always)]
    fn read_plain(&mut self, declared: u16, reads: &ItemList, text: &[u8]) -> usize
        requires known { declared ≤ MOST_ITEMS }
        requires some { 0 < length text.now }
        requires none { self.old ≡ no_writes }
        ensures { ReadsTo spelled_write text.now (λ writes. self.new ≡ writes_seen declared reads.now.items writes) result }
    {
        if text.len() < PLAIN_BYTES {
            return 0;
        }
        let last = text.len() - PLAIN_BYTES;
        let mut place = 0;
        while place <= last {
            let Some((write, end)) = plain_write(text, place) else {
                return place;
            };
            self.see(declared, reads, write);
            place = end + 1;
        }
        place
    }

    /// Reads the writes of a list, and says whether the text spells a list. If it doesn't, no write is kept.
    #[inline(never)]
    pub fn read(&mut self, declared: u16, reads: &ItemList, text: &[u8]) -> bool
        requires { declared ≤ MOST_ITEMS }
        ensures read { ReadIs result (list_of spelled_write text.now) (λ writes. self.new ≡ writes_seen declared reads.now.items writes) }
        ensures refused { result ≡ false → self.new ≡ no_writes }
    {
        self.clear();
        if text.is_empty() {
            return true;
        }
        let place = self.read_plain(declared, reads, text);
        if text.len() < place {
            return true;
        }
        let mut rest = &text[place..];
        loop {
            let Some((write, after)) = leading_write(rest) else {
                self.clear();
                return false;
            };
            self.see(declared, reads, write);
            let Some((_, more)) = after.split_first() else {
                return true;
            };
            rest = more;
        }
    }
}
