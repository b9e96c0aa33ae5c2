//! What records declare that other crates have no type for, and what the record of a disk says of its frequency.

ghost use Rattle.std.specs.Prelude.{◌≡◌, ◌≤◌, ◌++◌, ◌∷◌, [], All, false, length, is_ok, sum_by, if◌then◌else◌};
ghost use Rattle.std.specs.List.{list_any};
ghost use Rattle.item_catalog.specs.Faults.{differs_from};
ghost use Rattle.item_catalog.specs.ListTests.{option_any};
ghost use Rattle.item_catalog.specs.Fields.{freq_of};
ghost use Rattle.item_catalog.specs.Ranges.{outside};

use air_base::limits::{MOST_DISKS, MOST_FREQ};
use air_base::read_u64;
use air_history::Update;
use std::alloc::{AllocFailed, Global};
use std::marker::Model;

/// An item: its first value, and its rate.
#[derive(Clone, Copy, Debug, PartialEq, Eq)]
pub struct ItemPart {
    pub value: u64,
    pub rate: u32,
}

/// A disk as its record gives it: without a frequency if it has `-`.
#[derive(Clone, Copy, Debug, PartialEq, Eq)]
pub struct DiskPart {
    pub size: u16,
    pub freq: Option<u32>,
}

/// A replan as its record gives it: the cycle, and the disks.
#[derive(Debug, Drop)]
pub struct ReplanPart {
    cycle: u32,
    disks: Vec<DiskPart>,
}

impl Model for ReplanPart {
    ghost use Rattle.item_catalog.specs.Parts.{ReplanSaid};

    ghost Value = { ReplanSaid };

    ghost view = { λ r. record { cycle = r.cycle; disks = r.disks.items } };
}

impl ReplanPart {
    /// The replan of a cycle and of disks.
    pub fn new(cycle: u32, disks: Vec<DiskPart>) -> Self
        ensures { result ≡ record { cycle = cycle; disks = disks.items } }
    {
        ReplanPart { cycle, disks }
    }

    /// The cycle.
    pub fn cycle(&self) -> u32
        ensures { result ≡ self.now.cycle }
    {
        self.cycle
    }

    /// The disks.
    pub fn disks(&self) -> &[DiskPart]
        ensures { result.now ≡ self.now.disks }
    {
        &self.disks
    }
}

/// The frequency that the text spells; `-` is None.
#[tactic(auto, unfolding(crate::specs::Fields::freq_of))]
pub fn read_freq(text: &[u8]) -> Option<Option<u64>>
    ensures { result ≡ freq_of text.now }
{
    if text == b"-".as_slice() {
        return Some(None);
    }
    match read_u64(text) {
        Some(number) => Some(Some(number)),
        None => None,
    }
}

/// Whether a number is no frequency of a disk.
pub fn is_no_freq(freq: Option<u64>) -> bool
    ensures { result ≡ option_any (outside 1 MOST_FREQ) freq }
{
    match freq {
        Some(number) => number < 1 || MOST_FREQ < number,
        None => false,
    }
}

/// A frequency of a disk.
pub fn narrow_freq(freq: Option<u64>) -> Option<u32>
    requires { option_any (outside 1 MOST_FREQ) freq ≡ false }
    ensures { result ≡ freq }
{
    match freq {
        Some(number) => Some(number as u32),
        None => None,
    }
}

/// The sum of the sizes of disks.
pub fn sizes_of(disks: &[DiskPart]) -> u32
    requires { length disks.now ≤ MOST_DISKS }
    ensures { result ≡ sum_by (λ d. d.size) disks.now }
{
    disks.iter().map(|disk| u32::from(disk.size)).sum::<u32>()
}

/// Whether the sizes of disks don't add up to this many items.
fn differs_from(items: usize, disks: &[DiskPart]) -> bool
    requires { length disks.now ≤ MOST_DISKS }
    ensures { result ≡ differs_from items disks.now }
{
    sizes_of(disks) as usize != items
}

/// Whether the sizes of the disks of some replan don't add up to this many items.
pub fn some_differs(items: usize, replans: &[ReplanPart]) -> bool
    requires { All (λ r. length r.disks ≤ MOST_DISKS) replans.now }
    ensures { result ≡ list_any (λ replan. differs_from items replan.disks) replans.now }
{
    for replan in replans {
        if differs_from(items, replan.disks()) {
            return true;
        }
    }
    false
}

/// The updates of an updater, in order.
#[derive(Debug, Drop)]
pub struct Updates {
    updates: Vec<Update>,
}

impl Model for Updates {
    ghost use Rattle.air_history.specs.UpdateLists.{UpdateLists};
    ghost use Rattle.std.specs.Prelude.{List};

    ghost Value = { List UpdateLists };

    ghost view = { λ list. list.updates.items };
}

impl Updates {
    /// No updates.
    pub fn new(alloc: Global) -> Self
        ensures { result ≡ [] }
    {
        Updates {
            updates: Vec::new(alloc),
        }
    }

    /// The updates.
    pub fn as_slice(&self) -> &[Update]
        ensures { result.now ≡ self.now }
    {
        &self.updates
    }

    /// The number of updates.
    pub fn len(&self) -> usize
        ensures { result ≡ length self.now }
    {
        self.updates.len()
    }

    /// Adds an update.
    pub fn push(&mut self, update: Update) -> Result<(), AllocFailed<Update>>
        ensures { self.new ≡ (if is_ok result then self.old ++ update ∷ [] else self.old) }
    {
        self.updates.push(update)
    }
}

/// A query: the items that it asks for, in order.
#[derive(Debug, Drop)]
pub struct Query {
    items: Vec<u16>,
}

impl Model for Query {
    ghost use Rattle.std.specs.Prelude.{List, ℕ};

    ghost Value = { List ℕ };

    ghost view = { λ query. query.items.items };
}

impl Query {
    /// The query for these items.
    pub fn from_vec(items: Vec<u16>) -> Self
        ensures { result ≡ items.items }
    {
        Query { items }
    }

    /// The items.
    pub fn as_slice(&self) -> &[u16]
        ensures { result.now ≡ self.now }
    {
        &self.items
    }
}

/// The queries of a reader, in order.
#[derive(Debug, Drop)]
pub struct Queries {
    queries: Vec<Query>,
}

impl Model for Queries {
    ghost use Rattle.std.specs.Prelude.{List, ℕ};

    ghost Value = { List (List ℕ) };

    ghost view = { λ list. list.queries.items };
}

impl Queries {
    /// No queries.
    pub fn new(alloc: Global) -> Self
        ensures { result ≡ [] }
    {
        Queries {
            queries: Vec::new(alloc),
        }
    }

    /// The queries.
    pub fn as_slice(&self) -> &[Query]
        ensures { result.now ≡ self.now }
    {
        &self.queries
    }

    /// The number of queries.
    pub fn len(&self) -> usize
        ensures { result ≡ length self.now }
    {
        self.queries.len()
    }

    /// Adds a query.
    pub fn push(&mut self, query: Query) -> Result<(), AllocFailed<Query>>
        ensures { self.new ≡ (if is_ok result then self.old ++ query ∷ [] else self.old) }
    {
        self.queries.push(query)
    }
}
