//! What is done through a pass: a commit, and the start of a cycle.
//!
//! Each adds its one event, or answers `NoMemory`. The pass has then seen what it had seen, then events of other passes, then its own event if one
//! was added.
ghost use Rattle.std.specs.Prelude.{◌≡◌, ◌<◌, ◌-◌, ◌^◌, List, [], ◌∷◌, ◌++◌, length, All, MatchResult, OnOk};
ghost use Rattle.air_history.specs.declared.histories.Event.{Event};
ghost use Rattle.air_history.specs.declared.histories.Event.TheVariants.{Commit, Start};
ghost use Rattle.air_history.specs.UpdateRules.{UpdateFits};
ghost use Rattle.air_history.specs.Histories.{is_start, starts, since_start, EventFits};
ghost use Rattle.air_history.specs.Boards.{reply_of};
ghost use Rattle.air_model.specs.Decks.{is_by, count_made};
ghost use Rattle.air_model.specs.Closings.{GoesOnWithout};
ghost use Rattle.update_commit.specs.Receipts.{HasRoom, reply_in};
ghost use Rattle.station.specs.PassStates.{with_seen};

use crate::passes::{ConductorPass, UpdaterPass};
use crate::stations::Station;
use air_base::NoMemory;
use air_history::{Event, Update};
use std::alloc::Global;
use std::sync::Wait;
use turnstile::Turn;
use update_commit::{Core, Receipt};

/// Adds the updater's next commit, if there is memory for it.
fn add_commit(core: &mut Core, by: u32, update: Update, into: &mut Receipt) -> Result<(), NoMemory>
    requires by { by < core.old.updaters }
    requires few { count_made by core.old.events < 2 ^ 32 - 1 }
    requires fits { UpdateFits (length core.old.values) update }
    requires room { HasRoom update into.old }
    ensures kept { (core.new.values ≡ core.old.values) × (core.new.updaters ≡ core.old.updaters) }
    ensures fits { All (EventFits core.new.updaters (length core.new.values)) core.new.events }
    ensures events { MatchResult result
        (λ _. (core.new.events ≡ core.old.events ++ Commit by (count_made by core.old.events) update ∷ []) × (reply_in into.new ≡ reply_of core.old.values core.new.events (length core.old.events)))
        (λ _. core.new.events ≡ core.old.events) }
{
    core.shows_events_fit();
    core.reserve(1)?;
    core.commit(by, update, into);
    core.shows_events_fit();
    Ok(())
}

/// Puts the events since the last start, and one more start, into the empty list. After `NoMemory` it is empty again.
fn copy_fresh(core: &Core, alloc: Global, fresh: &mut Vec<Event>) -> Result<(), NoMemory>
    requires empty { fresh.old.items ≡ [] }
    ensures { MatchResult result (λ _. fresh.new.items ≡ since_start core.now.events ++ Start ∷ []) (λ _. fresh.new.items ≡ []) }
{
    core.since_start(alloc, fresh)?;
    if fresh.push(Event::Start).is_err() {
        fresh.clear();
        return Err(NoMemory);
    }
    Ok(())
}

/// Adds a start, if there is memory for it and for the list of the events since the one before.
fn add_start(core: &mut Core, alloc: Global, fresh: &mut Vec<Event>) -> Result<u32, NoMemory>
    requires few { starts core.old.events < 2 ^ 32 - 1 }
    requires empty { fresh.old.items ≡ [] }
    ensures kept { (core.new.values ≡ core.old.values) × (core.new.updaters ≡ core.old.updaters) }
    ensures fits { All (EventFits core.new.updaters (length core.new.values)) core.new.events }
    ensures events { MatchResult result
        (λ cycle. (core.new.events ≡ core.old.events ++ Start ∷ []) × (fresh.new.items ≡ since_start core.old.events ++ Start ∷ []) × (cycle ≡ starts core.new.events))
        (λ _. (core.new.events ≡ core.old.events) × (fresh.new.items ≡ [])) }
    ensures fresh { OnOk result (All (EventFits core.old.updaters (length core.old.values)) fresh.new.items) }
{
    core.shows_events_fit();
    core.reserve(1)?;
    copy_fresh(core, alloc, fresh)?;
    let cycle = core.start();
    core.shows_events_fit();
    Ok(cycle)
}

impl Station {
    /// Makes the commit. The receipt has room for it.
    fn place<R: Wait>(
        &self,
        wait: &R,
        pass: &mut UpdaterPass,
        update: Update,
        into: &mut Receipt,
    ) -> Result<(), NoMemory>
        requires own { pass.old.station ≡ self.now }
        requires fits { UpdateFits (length pass.old.values) update }
        requires few { count_made pass.old.number pass.old.seen < 2 ^ 32 - 1 }
        requires room { HasRoom update into.old }
        ensures pass { pass.new ≡ with_seen pass.old pass.new.seen }
        ensures seen { (before : List Event) × GoesOnWithout (is_by pass.old.number) pass.old.seen before × MatchResult result
            (λ _. (pass.new.seen ≡ before ++ Commit pass.old.number (count_made pass.old.number pass.old.seen) update ∷ []) × (reply_in into.new ≡ reply_of pass.old.values pass.new.seen (length before)))
            (λ _. pass.new.seen ≡ before) }
        ensures fits { All (EventFits pass.old.updaters (length pass.old.values)) pass.new.seen }
    {
        let Turn { value: mut locked } = self.turnstile.enter(wait, &mut pass.pass);
        let added = add_commit(&mut locked.core, pass.by, update, into);
        self.turnstile.leave(&mut pass.pass, Turn { value: locked });
        added?;
        pass.made += 1;
        Ok(())
    }

    /// Makes one commit of the pass's updater, at one place of the history, and answers what it did there. After `NoMemory` the pass has newly seen
    /// only events of others. `Update::fits` is the test whether the update fits, `made` gives the number of commits that the pass made.
    pub fn commit<R: Wait>(
        &self,
        wait: &R,
        alloc: Global,
        pass: &mut UpdaterPass,
        update: &Update,
    ) -> Result<Receipt, NoMemory>
        requires own { pass.old.station ≡ self.now }
        requires fits { UpdateFits (length pass.old.values) update.now }
        requires few { count_made pass.old.number pass.old.seen < 2 ^ 32 - 1 }
        ensures pass { pass.new ≡ with_seen pass.old pass.new.seen }
        ensures seen { (before : List Event) × GoesOnWithout (is_by pass.old.number) pass.old.seen before × MatchResult result
            (λ receipt. (pass.new.seen ≡ before ++ Commit pass.old.number (count_made pass.old.number pass.old.seen) update.now ∷ []) × (reply_in receipt ≡ reply_of pass.old.values pass.new.seen (length before)))
            (λ _. pass.new.seen ≡ before) }
        ensures fits { All (EventFits pass.old.updaters (length pass.old.values)) pass.new.seen }
    {
        pass.shows_events_fit();
        let copy = update.copy(alloc)?;
        let mut receipt = Receipt::room(alloc, &copy)?;
        self.place(wait, pass, copy, &mut receipt)?;
        Ok(receipt)
    }

    /// Starts one cycle, at one place of the history, answers its number, and puts the events since the start before, and the new start, into the
    /// empty list. After `NoMemory` the list is empty, and the pass has newly seen only events of others. `started` gives the number of starts that
    /// the pass made.
    pub fn start_cycle<R: Wait>(
        &self,
        wait: &R,
        alloc: Global,
        pass: &mut ConductorPass,
        fresh: &mut Vec<Event>,
    ) -> Result<u32, NoMemory>
        requires own { pass.old.station ≡ self.now }
        requires empty { fresh.old.items ≡ [] }
        requires few { starts pass.old.seen < 2 ^ 32 - 1 }
        ensures pass { pass.new ≡ with_seen pass.old pass.new.seen }
        ensures seen { (before : List Event) × GoesOnWithout is_start pass.old.seen before × MatchResult result
            (λ cycle. (pass.new.seen ≡ before ++ Start ∷ []) × (fresh.new.items ≡ since_start before ++ Start ∷ []) × (cycle ≡ starts pass.new.seen))
            (λ _. (pass.new.seen ≡ before) × (fresh.new.items ≡ [])) }
        ensures fits { All (EventFits pass.old.updaters (length pass.old.values)) pass.new.seen }
        ensures fresh { All (EventFits pass.old.updaters (length pass.old.values)) fresh.new.items }
    {
        let Turn { value: mut locked } = self.turnstile.enter(wait, &mut pass.pass);
        let started = add_start(&mut locked.core, alloc, fresh);
        self.turnstile.leave(&mut pass.pass, Turn { value: locked });
        let cycle = started?;
        pass.started += 1;
        Ok(cycle)
    }
}
