//! The replay of a history over a deck: the origins and the values of reads.
//!
//! The history is run once. This keeps the writes of each item, with their places. A search there finds a read's origin and value.

ghost use Rattle.std.specs.Prelude.{◌≡◌, ◌<◌, ◌≤◌, ℕ, true, length, All, IfOk};
ghost use Rattle.air_history.specs.Columns.{has_groups};
ghost use Rattle.air_history.specs.Histories.{ItemsFit, event_at, front, writes};
ghost use Rattle.air_history.specs.Places.{same_place};
ghost use Rattle.air_history.specs.Reads.{origin, read_value, same_origin};
ghost use Rattle.air_history.specs.Tables.{values_of};
ghost use Rattle.air_model.specs.Aired.{scheme_in};
ghost use Rattle.air_model.specs.Decks.{values_in};
ghost use Rattle.air_model.specs.Reports.{total_at};
ghost use Rattle.live_replay.specs.Findings.{read_in_cycle};
ghost use Rattle.live_replay.specs.Private.Groups.{writes_between};
ghost use Rattle.live_replay.specs.Private.Writes.{count_at, writes_from};

use crate::running::ReplayState;
use crate::writes::{ItemWrite, ItemWrites};
use air_base::{NoMemory, Policy};
use air_history::{Event, History};
use item_catalog::Deck;
use std::alloc::Global;
use std::marker::Model;

/// A history over a deck, and the writes of each item.
#[derive(Drop)]
pub struct Replay<'a> {
    deck: &'a Deck,
    history: &'a History,
    writes: Vec<ItemWrites>,
}

/// What is next to a read among the writes of its item.
#[derive(Clone, Copy, Debug, PartialEq, Eq)]
pub struct Neighbours {
    /// The place of the read's origin.
    pub origin: Option<u64>,
    /// A place before which no commit from the read's cycle on writes the item: that of the first such commit, or that after the last event.
    pub next: u64,
}

impl<'a> Model for Replay<'a> {
    ghost use Rattle.live_replay.specs.Private.Replays.{DeckAndHistory, IsReplay, replay_of};

    ghost Value = { DeckAndHistory };

    ghost view = { replay_of };

    ghost invariant = { IsReplay };
}

/// Whether two places are the same, or there is neither.
pub fn same_place(one: Option<u64>, other: Option<u64>) -> bool
    ensures { result ≡ same_place one other }
{
    match one {
        None => other.is_none(),
        Some(place) => match other {
            None => false,
            Some(last) => place == last,
        },
    }
}

impl<'a> Replay<'a> {
    /// The replay of a history.
    pub fn new(alloc: Global, deck: &'a Deck, history: &'a History) -> Result<Replay<'a>, NoMemory>
        requires { All (ItemsFit (length deck.now.items)) history.now }
        ensures { IfOk result (λ r. r ≡ record { deck = deck.now; history = history.now }) }
    {
        let events = history.events();
        let mut running = ReplayState::new(alloc, deck)?;
        for (place, event) in events.iter().enumerate() {
            match event {
                Event::Start => running.start(),
                Event::Commit { by, seq, update } => {
                    running.commit(alloc, place as u64, *by, *seq, update)?;
                }
            }
        }
        Ok(Replay {
            deck,
            history,
            writes: running.writes,
        })
    }

    /// The policy of the deck.
    pub fn policy(&self) -> Policy
        ensures { result ≡ self.now.deck.settings.policy }
    {
        self.deck.settings().policy
    }

    /// The number of items of the deck's groups, 0 if there are none.
    pub fn group(&self) -> u16
        ensures { result ≡ self.now.deck.settings.group }
    {
        self.deck.settings().group
    }

    /// Whether the deck airs by groups.
    pub fn has_groups(&self) -> bool
        ensures { result ≡ has_groups (scheme_in self.now.deck) }
    {
        match self.policy() {
            Policy::FMatrix => self.group() > 0,
            Policy::Datacycle | Policy::RMatrix => false,
        }
    }

    /// The version of the deck's buckets.
    pub fn version(&self) -> u8
        ensures { result ≡ self.now.deck.settings.version }
    {
        self.deck.settings().version
    }

    /// The events of the history, whose items are the deck's.
    pub fn events(&self) -> &[Event]
        ensures listed { result.now ≡ self.now.history }
        ensures fits { All (ItemsFit (length self.now.deck.items)) result.now }
    {
        self.history.events()
    }

    /// The number of items of the deck.
    pub fn items(&self) -> u16
        ensures { result ≡ length self.now.deck.items }
    {
        self.deck.items()
    }

    /// Finds the writes next to a read among those of its item. Nothing is known of an item that the deck doesn't have.
    pub fn around(&self, item: u16, cycle: u32) -> Neighbours
        ensures origin { result.origin ≡ origin self.now.history (read_in_cycle item cycle) }
        ensures next { (q : ℕ) → writes (event_at self.now.history q) item ≡ true → length (front self.now.history cycle) ≤ q → result.next ≤ q }
    {
        if item >= self.deck.items() {
            return Neighbours {
                origin: None,
                next: 0,
            };
        }
        let before = self.writes_before(item, cycle);
        let writes = self.writes(item);
        Neighbours {
            origin: writes.last_of(before),
            next: writes.place_of(before, self.history.len()),
        }
    }

    /// The place of the commit that is the origin of a read.
    pub fn origin(&self, item: u16, cycle: u32) -> Option<u64>
        ensures { result ≡ origin self.now.history (read_in_cycle item cycle) }
    {
        self.around(item, cycle).origin
    }

    /// Whether an item has one origin at two cycles.
    pub fn same_origin(&self, item: u16, c: u32, d: u32) -> bool
        ensures { result ≡ same_origin self.now.history item c d }
    {
        same_place(self.origin(item, c), self.origin(item, d))
    }

    /// The writes of an item, in order.
    fn writes(&self, item: u16) -> &ItemWrites
        requires { item < length self.now.deck.items }
        ensures { result.now ≡ writes_from (values_in self.now.deck) self.now.history item 0 (length self.now.history) }
    {
        &self.writes[item as usize]
    }

    /// How many writes of an item come before a cycle.
    fn writes_before(&self, item: u16, cycle: u32) -> usize
        requires { item < length self.now.deck.items }
        ensures { result ≡ count_at (values_in self.now.deck) self.now.history item cycle }
    {
        self.writes(item).before(cycle)
    }

    /// The writes of an item from a cycle on and before another, in order.
    pub fn writes_between(&self, item: u16, from: u32, to: u32) -> &[ItemWrite]
        requires { item < length self.now.deck.items }
        ensures { result.now ≡ writes_between (values_in self.now.deck) self.now.history item from to }
    {
        let first = self.writes_before(item, from);
        let end = self.writes_before(item, to);
        if end <= first {
            return &[];
        }
        &self.writes(item).as_slice()[first..end]
    }

    /// The value of an item at a cycle's start.
    pub fn value(&self, item: u16, cycle: u32) -> u64
        requires { item < length self.now.deck.items }
        ensures { result ≡ read_value (values_of (values_in self.now.deck)) self.now.history (read_in_cycle item cycle) }
    {
        let before = self.writes_before(item, cycle);
        if before == 0 {
            return self.deck.value(item);
        }
        self.writes(item).as_slice()[before - 1].value
    }

    /// The sum of all values at a cycle's start, modulo 2^64.
    pub fn total(&self, cycle: u32) -> u64
        ensures { result ≡ total_at (values_in self.now.deck) self.now.history cycle }
    {
        let mut total = 0_u64;
        for item in 0..self.deck.items() {
            total = total.wrapping_add(self.value(item, cycle));
        }
        total
    }
}
