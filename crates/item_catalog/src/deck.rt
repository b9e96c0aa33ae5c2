//! A deck in the grammar, as its records give it.

ghost use Rattle.std.specs.Prelude.{◌≡◌, ◌<◌, ◌≤◌, [], length, get_or, slice_get, IfOk, IfSome, Some};
ghost use Rattle.air_base.specs.declared.limits.TheConstants.{MOST_ASKED, MOST_DISKS, MOST_EVENTS, MOST_FREQ, MOST_ITEMS, MOST_QUERIES, MOST_RATE, MOST_READERS, MOST_REPLANS, MOST_SIZE, MOST_STARTS, MOST_UPDATERS};
ghost use Rattle.air_model.specs.Decks.{IsDeck, updates_by, values_in};
ghost use Rattle.item_catalog.specs.DeckLimits.{WithinLimits, script_starts};

pub(crate) mod draft;
pub mod drill;
pub mod replans;

use crate::deck::replans::{Replan, freq_at};
use crate::parts::{DiskPart, ItemPart, Queries, ReplanPart, Updates};
use air_base::NoMemory;
use air_history::Update;
use air_model::deck::{ReaderPlan, Settings};
use std::alloc::Global;
use std::marker::Model;

/// A deck in the grammar.
#[derive(Debug, Drop)]
pub struct Deck {
    items: Vec<ItemPart>,
    disks: Vec<DiskPart>,
    replans: Vec<ReplanPart>,
    delta: u32,
    updates: Vec<Updates>,
    readers: Vec<ReaderPlan>,
    queries: Vec<Queries>,
    script: Vec<Option<u32>>,
    starts: u32,
    settings: Settings,
}

impl Model for Deck {
    ghost use Rattle.air_model.specs.Decks.{Deck};
    ghost use Rattle.item_catalog.specs.DeckFields.{deck_seen, DeckKept};

    ghost Value = { Deck };

    ghost view = { deck_seen };

    ghost invariant = { DeckKept };
}

impl Deck {
    /// For proofs only: tells the caller that the deck is well made and keeps the limits of the grammar. It does nothing at run
    /// time.
    pub fn shows_well_made(&self)
        ensures made { IsDeck self.now }
        ensures limits { WithinLimits self.now }
    {
        let _items = &self.items;
    }

    /// The number of items.
    pub fn items(&self) -> u16
        ensures told { result ≡ length self.now.items }
        ensures some { 1 ≤ result }
        ensures few { result ≤ MOST_ITEMS }
    {
        self.items.len() as u16
    }

    /// The value of an item.
    pub fn value(&self, i: u16) -> u64
        requires { i < length self.now.items }
        ensures { IfSome (slice_get self.now.items i) (λ item. result ≡ item.value) }
    {
        self.items[i as usize].value
    }

    /// The values of the items, in their order.
    pub fn values(&self, alloc: Global) -> Result<Vec<u64>, NoMemory>
        ensures { IfOk result (λ values. values.items ≡ values_in self.now) }
    {
        let mut values = Vec::new(alloc);
        for i in 0..self.items() {
            values.push(self.value(i))?;
        }
        Ok(values)
    }

    /// The rate of an item.
    pub fn rate(&self, i: u16) -> u32
        requires { i < length self.now.items }
        ensures told { IfSome (slice_get self.now.items i) (λ item. result ≡ item.rate) }
        ensures most { result ≤ MOST_RATE }
    {
        self.items[i as usize].rate
    }

    /// The number of the deck's own disks, which are in force before its replans.
    pub fn disks(&self) -> u32
        ensures told { result ≡ length self.now.disks }
        ensures few { result ≤ MOST_DISKS }
    {
        self.disks.len() as u32
    }

    /// The number of items of one of the deck's own disks.
    pub fn size(&self, d: u32) -> u16
        requires { d < length self.now.disks }
        ensures told { IfSome (slice_get self.now.disks d) (λ disk. result ≡ disk.size) }
        ensures some { 1 ≤ result }
        ensures few { result ≤ MOST_SIZE }
    {
        self.disks[d as usize].size
    }

    /// How often a cycle airs each item of one of the deck's own disks.
    pub fn freq(&self, d: u32) -> u32
        requires { d < length self.now.disks }
        ensures told { IfSome (slice_get self.now.disks d) (λ disk. result ≡ disk.freq) }
        ensures some { 1 ≤ result }
        ensures few { result ≤ MOST_FREQ }
    {
        freq_at(&self.disks, self.delta, d)
    }

    /// The number of replans.
    pub fn replans(&self) -> u32
        ensures told { result ≡ length self.now.replans }
        ensures few { result ≤ MOST_REPLANS }
    {
        self.replans.len() as u32
    }

    /// A replan, whose program is in force from its cycle on.
    pub fn replan(&self, k: u32) -> Replan<'_>
        requires { k < length self.now.replans }
        ensures { slice_get self.now.replans k ≡ Some result }
    {
        Replan::of_part(&self.replans[k as usize], self.delta)
    }

    /// The number of updaters.
    pub fn updaters(&self) -> u32
        ensures told { result ≡ length self.now.updates }
        ensures few { result ≤ MOST_UPDATERS }
    {
        self.updates.len() as u32
    }

    /// The updates of an updater, in the order in which it commits them.
    pub fn updates(&self, by: u32) -> &[Update]
        requires { by < length self.now.updates }
        ensures { result.now ≡ updates_by self.now by }
    {
        self.updates[by as usize].as_slice()
    }

    /// The number of readers.
    pub fn readers(&self) -> u32
        ensures told { result ≡ length self.now.readers }
        ensures few { result ≤ MOST_READERS }
    {
        self.readers.len() as u32
    }

    /// The plan of a reader.
    pub fn reader(&self, r: u32) -> ReaderPlan
        requires { r < length self.now.readers }
        ensures { slice_get self.now.readers r ≡ Some result }
    {
        self.readers[r as usize]
    }

    /// The number of queries of a reader.
    pub fn queries(&self, r: u32) -> u32
        requires { r < length self.now.readers }
        ensures told { result ≡ length (get_or self.now.queries r []) }
        ensures few { result ≤ MOST_QUERIES }
    {
        self.queries[r as usize].len() as u32
    }

    /// The items of a query, in the order in which the reader reads them.
    pub fn query(&self, r: u32, q: u32) -> &[u16]
        requires reader { r < length self.now.readers }
        requires query { q < length (get_or self.now.queries r []) }
        ensures told { result.now ≡ get_or (get_or self.now.queries r []) q [] }
        ensures few { length result.now ≤ MOST_ASKED }
    {
        self.queries[r as usize].as_slice()[q as usize].as_slice()
    }

    /// The number of script parts.
    pub fn script_len(&self) -> u32
        ensures told { result ≡ length self.now.script }
        ensures few { result ≤ MOST_EVENTS }
    {
        self.script.len() as u32
    }

    /// A script part: a start, or the number of the updater that commits its next update.
    pub fn script(&self, k: u32) -> Option<u32>
        requires { k < length self.now.script }
        ensures { slice_get self.now.script k ≡ Some result }
    {
        self.script[k as usize]
    }

    /// The number of cycles that the script starts.
    pub fn script_starts(&self) -> u32
        ensures told { result ≡ script_starts self.now }
        ensures few { result ≤ MOST_STARTS }
    {
        self.starts
    }

    /// The settings, each as it is set, or its default.
    pub fn settings(&self) -> Settings
        ensures { result ≡ self.now.settings }
    {
        self.settings
    }
}
