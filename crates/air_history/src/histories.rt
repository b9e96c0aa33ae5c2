//! Events and histories.
//!
//! Contracts see a history as the list of its events. Places count from 0, cycles from 1.

ghost use Rattle.std.specs.Prelude.{◌≡◌, ◌↔◌, ◌<◌, ◌^◌, length, All, IsTrue};
ghost use Rattle.air_history.specs.Histories.{is_start, writes, reads, writes_of, event_at, starts, ItemsFit};
ghost use Rattle.air_history.specs.Tables.{BasesRead};

use crate::updates::{Update, Write, writes_item};
use std::marker::Model;

/// One event of a history: a commit of an update, with its updater and the updater's number for it, or the
/// start of a cycle.
#[derive(Debug, Drop)]
pub enum Event {
    Commit { by: u32, seq: u32, update: Update },
    Start,
}

impl Event {
    /// Whether the event is a cycle start.
    #[tactic(auto, unfolding(crate::specs::Histories::is_start))]
    pub fn is_start(&self) -> bool
        ensures { result ≡ is_start self.now }
    {
        match self {
            Event::Commit { .. } => false,
            Event::Start => true,
        }
    }

    /// The items that the event's update reads; a start reads nothing.
    #[tactic(auto, unfolding(crate::specs::Histories::reads))]
    pub fn reads(&self) -> &[u16]
        ensures { result.now ≡ reads self.now }
    {
        match self {
            Event::Commit { update, .. } => update.reads(),
            Event::Start => &[],
        }
    }

    /// The writes of the event's update; a start writes nothing.
    #[tactic(auto, unfolding(crate::specs::Histories::writes_of))]
    pub fn writes(&self) -> &[Write]
        ensures { result.now ≡ writes_of self.now }
    {
        match self {
            Event::Commit { update, .. } => update.writes(),
            Event::Start => &[],
        }
    }

    /// Whether all items of the event's update are below `n`.
    #[tactic(auto, unfolding(crate::specs::Histories::ItemsFit))]
    pub fn fits(&self, n: u16) -> bool
        ensures { IsTrue result ↔ ItemsFit n self.now }
    {
        match self {
            Event::Commit { update, .. } => update.fits(n),
            Event::Start => true,
        }
    }

    /// Whether the event is a commit that writes the item.
    #[tactic(auto, unfolding(crate::specs::Histories::writes))]
    pub fn writes_item(&self, item: u16) -> bool
        ensures { result ≡ writes self.now item }
    {
        match self {
            Event::Commit { update, .. } => writes_item(update.writes(), item),
            Event::Start => false,
        }
    }

    /// For proofs only: tells the caller that each base of the event's update is read. It does nothing at run time.
    pub fn shows_rules_kept(&self)
        ensures { BasesRead self.now }
    {
        match self {
            Event::Commit { update, .. } => update.shows_rules_kept(),
            Event::Start => {}
        }
    }
}

/// A list of events, with fewer than 2^32 cycle starts.
#[derive(Debug, Drop)]
pub struct History {
    events: Vec<Event>,
}

impl Model for History {
    ghost use Rattle.std.specs.Prelude.{List, ◌<◌, ◌^◌};
    ghost use Rattle.air_history.specs.declared.histories.Event.{Event};

    ghost Value = { List Event };

    ghost use Rattle.air_history.specs.Histories.{starts};

    ghost view = { λ h. h.events.items };

    ghost invariant = { λ h. starts h.events.items < 2 ^ 32 };
}

impl History {
    /// The history of these events.
    pub fn from_events(events: Vec<Event>) -> History
        requires { starts events.items < 2 ^ 32 }
        ensures { result ≡ events.items }
    {
        History { events }
    }

    /// The number of events.
    pub fn len(&self) -> u64
        ensures { result ≡ length self.now }
    {
        self.events.len() as u64
    }

    /// The event at a place.
    pub fn event(&self, place: u64) -> &Event
        requires { place < length self.now }
        ensures { result.now ≡ event_at self.now place }
    {
        &self.events[place as usize]
    }

    /// The events in order.
    pub fn events(&self) -> &[Event]
        ensures listed { result.now ≡ self.now }
        ensures within { starts self.now < 2 ^ 32 }
    {
        &self.events
    }

    /// Whether all items of the history's updates are below `n`.
    pub fn fits(&self, n: u16) -> bool
        ensures { IsTrue result ↔ All (ItemsFit n) self.now }
    {
        self.events.iter().all(|event| event.fits(n))
    }

    /// The number of cycle starts.
    pub fn starts(&self) -> u32
        ensures { result ≡ starts self.now }
    {
        let mut seen = 0;
        for event in &self.events {
            if event.is_start() {
                seen += 1;
            }
        }
        seen
    }
}
