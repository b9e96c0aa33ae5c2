//! The core: the events of one history, and with them the current values, each updater's number of commits, the number of
//! starts, and where the events after the last start begin.
//!
//! Contracts see a core as a `CoreState`: its events, the values and the number of updaters that it was made with, and how many
//! more events it has room for. Every event fits these.

ghost use Rattle.std.specs.Prelude.{◌≡◌, ◌<◌, ◌≤◌, ◌^◌, ◌-◌, [], ◌++◌, length, All, IfOk, OnErr, MatchResult};
ghost use Rattle.air_history.specs.declared.histories.Event.TheVariants.{Commit, Start};
ghost use Rattle.air_history.specs.UpdateRules.{UpdateFits};
ghost use Rattle.air_history.specs.Histories.{starts, since_start, EventFits};
ghost use Rattle.air_history.specs.Tables.{table, values_of};
ghost use Rattle.air_history.specs.Boards.{reply_of};
ghost use Rattle.air_model.specs.Decks.{count_made};
ghost use Rattle.update_commit.specs.CoreStates.{with_event};
ghost use Rattle.update_commit.specs.Receipts.{HasRoom, reply_in};

use crate::receipts::{Receipt, run_and_answer};
use air_base::NoMemory;
use air_history::{Event, History, Update};
use std::alloc::Global;
use std::marker::Model;

/// A history with its current values.
#[derive(Debug, Drop)]
pub struct Core {
    events: Vec<Event>,
    first_values: Vec<u64>,
    values: Vec<u64>,
    made: Vec<u32>,
    cycle: u32,
    fresh_from: usize,
}

impl Model for Core {
    ghost use Rattle.update_commit.specs.CoreStates.{CoreState};
    ghost use Rattle.update_commit.specs.CoreFields.{core_in, IsCore};

    ghost Value = { CoreState };

    ghost view = { core_in };

    ghost invariant = { IsCore };
}

impl Core {
    /// The core of the empty history, over these first values.
    pub fn new(alloc: Global, values: &[u64], updaters: u32) -> Result<Core, NoMemory>
        ensures { IfOk result (λ core. core ≡ record { events = []; values = values.now; updaters = updaters; spare = core.spare }) }
    {
        Ok(Core {
            events: Vec::new(alloc),
            first_values: values.to_vec(alloc)?,
            values: values.to_vec(alloc)?,
            made: vec![in alloc; 0; updaters as usize]?,
            cycle: 0,
            fresh_from: 0,
        })
    }

    /// Makes room for this many more events.
    pub fn reserve(&mut self, events: usize) -> Result<(), NoMemory>
        ensures spare { IfOk result (λ _. events ≤ self.new.spare) }
        ensures refused { OnErr result (self.new ≡ self.old) }
        ensures kept { self.new ≡ record self.old { spare = self.new.spare } }
    {
        self.events.reserve(events)?;
        Ok(())
    }

    /// Adds the updater's next commit, and writes to the receipt what it did. `Update::fits` is the test for `fits`.
    pub fn commit(&mut self, by: u32, update: Update, into: &mut Receipt)
        requires spare { 0 < self.old.spare }
        requires by { by < self.old.updaters }
        requires few { count_made by self.old.events < 2 ^ 32 - 1 }
        requires fits { UpdateFits (length self.old.values) update }
        requires room { HasRoom update into.old }
        ensures core { self.new ≡ with_event self.old (Commit by (count_made by self.old.events) update) }
        ensures receipt { reply_in into.new ≡ reply_of self.new.values self.new.events (length self.old.events) }
    {
        let seq = self.made[by as usize];
        let event = Event::Commit { by, seq, update };
        into.number = self.events.len() as u64;
        into.cycle = self.cycle;
        run_and_answer(&mut self.values, &event, into);
        self.made[by as usize] = seq + 1;
        self.events.push_reserved(event);
    }

    /// Adds a start, and gives the number of starts.
    pub fn start(&mut self) -> u32
        requires spare { 0 < self.old.spare }
        requires few { starts self.old.events < 2 ^ 32 - 1 }
        ensures core { self.new ≡ with_event self.old Start }
        ensures cycle { result ≡ starts self.new.events }
    {
        self.cycle += 1;
        self.events.push_reserved(Event::Start);
        self.fresh_from = self.events.len();
        self.cycle
    }

    /// Puts copies of the events after the last start into the empty list. After `NoMemory` it is empty again.
    pub fn since_start(&self, alloc: Global, out: &mut Vec<Event>) -> Result<(), NoMemory>
        requires empty { out.old.items ≡ [] }
        ensures { MatchResult result (λ _. out.new.items ≡ since_start self.now.events) (λ _. out.new.items ≡ []) }
    {
        let done = copy_all(alloc, &self.events[self.fresh_from..], out);
        if done.is_err() {
            out.clear();
        }
        done
    }

    /// The current value of an item.
    pub fn value(&self, i: u16) -> u64
        requires { i < length self.now.values }
        ensures { result ≡ table (values_of self.now.values) self.now.events i }
    {
        self.values[i as usize]
    }

    /// The number of starts.
    pub fn cycle(&self) -> u32
        ensures { result ≡ starts self.now.events }
    {
        self.cycle
    }

    /// The history.
    pub fn into_history(self) -> History
        ensures { result ≡ self.events }
    {
        History::from_events(self.events)
    }

    /// For proofs only: tells the caller that each event fits. It does nothing at run time.
    pub fn shows_events_fit(&self)
        ensures { All (EventFits self.now.updaters (length self.now.values)) self.now.events }
    {
        let _events = &self.events;
    }
}

/// An equal event.
fn copy_event(alloc: Global, event: &Event) -> Result<Event, NoMemory>
    ensures { IfOk result (λ copy. copy ≡ event.now) }
{
    match event {
        Event::Commit { by, seq, update } => Ok(Event::Commit {
            by: *by,
            seq: *seq,
            update: update.copy(alloc)?,
        }),
        Event::Start => Ok(Event::Start),
    }
}

/// Puts copies of the events after those of the list.
fn copy_all(alloc: Global, events: &[Event], out: &mut Vec<Event>) -> Result<(), NoMemory>
    ensures { IfOk result (λ _. out.new.items ≡ out.old.items ++ events.now) }
{
    for event in events {
        out.push(copy_event(alloc, event)?)?;
    }
    Ok(())
}
