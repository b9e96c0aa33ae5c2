//! A history that is run once, from its first event on: the values, and what each item's writes left.

ghost use Rattle.std.specs.Prelude.{◌≡◌, ◌≢◌, ◌<◌, ◌+◌, ◌^◌, ℕ, List, [], ◌++◌, length, get_or, map, All, AllPairs, IfOk, OnOk};
ghost use Rattle.air_history.specs.declared.histories.Event.{Event};
ghost use Rattle.air_history.specs.Histories.{event_at};
ghost use Rattle.air_history.specs.UpdateRules.{UpdateFits, written_item};
ghost use Rattle.air_model.specs.Decks.{values_in};
ghost use Rattle.live_replay.specs.Private.Runs.{IsReplayOfFirst, added_write};

use crate::writes::{ItemWrite, ItemWrites};
use air_base::NoMemory;
use air_history::{Event, Update, Write, run_event};
use item_catalog::Deck;
use std::alloc::Global;

/// What is kept of the events so far: the values, the number of starts, and the writes of each item.
#[derive(Debug, Drop)]
pub struct ReplayState {
    pub values: Vec<u64>,
    pub starts: u32,
    pub writes: Vec<ItemWrites>,
}

/// Adds a write of each item that the commit at a place, of this cycle, wrote; the values are those after it.
fn add_writes(
    writes: &mut [ItemWrites],
    place: u64,
    cycle: u32,
    values: &[u64],
    written: &[Write],
) -> Result<(), NoMemory>
    requires fits { All (λ w. w.item < length writes.old) written.now }
    requires sized { length values.now ≡ length writes.old }
    requires apart { AllPairs (λ a b. a ≢ b) (map written_item written.now) }
    ensures { OnOk result ((i : ℕ) → i < length writes.old →
        get_or writes.new i [] ≡ get_or writes.old i [] ++ added_write place cycle values.now written.now i) }
{
    for write in written {
        let item = write.item as usize;
        writes[item].push(ItemWrite {
            place,
            cycle,
            value: values[item],
        })?;
    }
    Ok(())
}

impl ReplayState {
    /// Nothing was run.
    pub fn new(alloc: Global, deck: &Deck) -> Result<ReplayState, NoMemory>
        ensures { IfOk result (λ run. (H : List Event) → IsReplayOfFirst (values_in deck.now) H 0 run) }
    {
        let mut values = Vec::new(alloc);
        let mut writes = Vec::new(alloc);
        for item in 0..deck.items() {
            values.push(deck.value(item))?;
            writes.push(ItemWrites::new(alloc))?;
        }
        Ok(ReplayState {
            values,
            starts: 0,
            writes,
        })
    }

    /// A cycle is started.
    pub fn start(&mut self)
        requires { self.old.starts + 1 < 2 ^ 32 }
        ensures { (V : List ℕ) (H : List Event) (n : ℕ) → IsReplayOfFirst V H n self.old → n < length H →
            event_at H n ≡ Event.Start → IsReplayOfFirst V H (n + 1) self.new }
    {
        self.starts += 1;
    }

    /// An update is committed at a place.
    pub fn commit(
        &mut self,
        alloc: Global,
        place: u64,
        by: u32,
        seq: u32,
        update: &Update,
    ) -> Result<(), NoMemory>
        requires fits { UpdateFits (length self.old.writes.items) update.now }
        requires sized { length self.old.values.items ≡ length self.old.writes.items }
        ensures { OnOk result ((V : List ℕ) (H : List Event) → IsReplayOfFirst V H place self.old → place < length H →
            event_at H place ≡ Event.Commit by seq update.now → IsReplayOfFirst V H (place + 1) self.new) }
    {
        update.shows_rules_kept();
        let event = Event::Commit {
            by,
            seq,
            update: update.copy(alloc)?,
        };
        run_event(&event, &mut self.values);
        add_writes(
            &mut self.writes,
            place,
            self.starts,
            &self.values,
            update.writes(),
        )?;
        Ok(())
    }
}
