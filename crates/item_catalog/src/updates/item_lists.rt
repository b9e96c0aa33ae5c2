//! A list of items while it is read.
//!
//! An item is kept if it is declared and wasn't there before, which an array of marks tells in constant time. So an array has
//! room for all that is kept, for a list of any length. Of the other items it is remembered that there were some.
//! No part of the text is looked at more than twice.

ghost use Rattle.std.specs.Prelude.{◌≡◌, ◌<◌, ◌≤◌, ◌&&◌, false, length, nat_lt, not};
ghost use Rattle.air_base.specs.Numbers.{number_of};
ghost use Rattle.air_base.specs.NumberLists.{list_of};
ghost use Rattle.air_base.specs.ReadParts.{ReadsTo};
ghost use Rattle.item_catalog.specs.KeptLists.{ReadIs, among, items_seen, no_items, see_item};

use air_base::limits::MOST_ITEMS;
use air_base::{plain_short, read_leading_number};
use std::marker::Model;

/// The items that are declared and distinct, in order; whether one wasn't declared, or was there twice. The first `count` of
/// the array are kept.
#[derive(Debug, Drop)]
pub struct ItemList {
    marks: [bool; MOST_ITEMS],
    items: [u16; MOST_ITEMS],
    count: usize,
    undeclared: bool,
    repeated: bool,
}

impl Model for ItemList {
    ghost use Rattle.std.specs.Prelude.{◌≤◌, take};
    ghost use Rattle.air_base.specs.declared.limits.TheConstants.{MOST_ITEMS};
    ghost use Rattle.item_catalog.specs.KeptLists.{ItemsSeen, KeptOnce};

    ghost Value = { ItemsSeen };

    ghost view = { λ l. record { items = take l.count l.items; undeclared = l.undeclared; repeated = l.repeated } };

    ghost invariant = { λ l. (l.count ≤ MOST_ITEMS) × KeptOnce l.marks (take l.count l.items) };
}

impl ItemList {
    /// No items.
    pub fn new() -> Self
        ensures { result ≡ no_items }
    {
        ItemList {
            marks: [false; MOST_ITEMS],
            items: [0; MOST_ITEMS],
            count: 0,
            undeclared: false,
            repeated: false,
        }
    }

    /// The items that are declared and distinct.
    pub fn items(&self) -> &[u16]
        ensures { result.now ≡ self.now.items }
    {
        &self.items[..self.count]
    }

    /// Whether an item wasn't declared.
    pub fn has_undeclared(&self) -> bool
        ensures { result ≡ self.now.undeclared }
    {
        self.undeclared
    }

    /// Whether an item was there twice.
    pub fn has_repeated(&self) -> bool
        ensures { result ≡ self.now.repeated }
    {
        self.repeated
    }

    /// Whether the item is one of the kept ones.
    pub fn has(&self, item: u16) -> bool
        requires { item < MOST_ITEMS }
        ensures { result ≡ among self.now.items item }
    {
        self.marks[item as usize]
    }

    /// Drops the items.
    fn clear(&mut self)
        ensures { self.new ≡ no_items }
    {
        self.marks = [false; MOST_ITEMS];
        self.undeclared = false;
        self.repeated = false;
        self.count = 0;
    }

    /// Whether an item is declared, and isn't one of the kept ones.
    fn is_new(&self, declared: u16, item: u64) -> bool
        requires { declared ≤ MOST_ITEMS }
        ensures { result ≡ (nat_lt item declared && not (among self.now.items item)) }
    {
        item < u64::from(declared) && !self.marks[item as usize]
    }

    /// Takes one more item; items below `declared` are declared.
    fn see(&mut self, declared: u16, item: u64)
        requires { declared ≤ MOST_ITEMS }
        ensures { self.new ≡ see_item declared self.old item }
    {
        if u64::from(declared) <= item {
            self.undeclared = true;
            return;
        }
        let place = item as usize;
        if self.marks[place] {
            self.repeated = true;
            return;
        }
        self.items[self.count] = item as u16;
        self.count += 1;
        self.marks[place] = true;
    }

    /// Takes the items of the leading plain parts of a list, up to the place at which the rest begins.
    #[inline(always)]
    fn read_plain(&mut self, declared: u16, text: &[u8]) -> usize
        requires known { declared ≤ MOST_ITEMS }
        requires some { 0 < length text.now }
        requires none { self.old ≡ no_items }
        ensures { ReadsTo number_of text.now (λ items. self.new ≡ items_seen declared items) result }
    {
        if text.len() < 4 {
            return 0;
        }
        let last = text.len() - 4;
        let mut place = 0;
        while place <= last {
            let Some((item, end)) = plain_short(text, place) else {
                return place;
            };
            if !self.is_new(declared, item) {
                return place;
            }
            self.see(declared, item);
            place = end + 1;
        }
        place
    }

    /// Reads the items of a list, and says whether the text spells a list; items below `declared` are declared. If the text
    /// spells none, no item is kept.
    pub fn read(&mut self, declared: u16, text: &[u8]) -> bool
        requires { declared ≤ MOST_ITEMS }
        ensures read { ReadIs result (list_of number_of text.now) (λ items. self.new ≡ items_seen declared items) }
        ensures refused { result ≡ false → self.new ≡ no_items }
    {
        self.clear();
        if text.is_empty() {
            return true;
        }
        let place = self.read_plain(declared, text);
        if text.len() < place {
            return true;
        }
        let mut rest = &text[place..];
        loop {
            let Some((item, after)) = read_leading_number(rest) else {
                self.clear();
                return false;
            };
            self.see(declared, item);
            let Some((_, more)) = after.split_first() else {
                return true;
            };
            rest = more;
        }
    }
}
