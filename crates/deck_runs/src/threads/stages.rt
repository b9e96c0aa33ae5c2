//! What the jobs of a run work on: how it is made, how they run on it, and how it ends.

ghost use Rattle.std.specs.Prelude.{◌≡◌, ◌↔◌, ◌<◌, ◌≤◌, ◌+◌, ◌*◌, ◌^◌, [], length, All, IfOk, IsTrue, vec_capacity};
ghost use Rattle.air_history.specs.Boards.{board_of};
ghost use Rattle.air_model.specs.Decks.{values_in};
ghost use Rattle.air_model.specs.Buckets.{entry_len};
ghost use Rattle.air_sender.specs.DeckGroups.{HasGroups};
ghost use Rattle.bucket_codec.specs.declared.offsets.TheConstants.{HEAD_BYTES};
ghost use Rattle.cycle_snapshot.specs.SnapshotStates.{MonitorState, new_monitor, new_publisher};
ghost use Rattle.std.specs.Thread.{IsSync};
ghost use Rattle.deck_runs.specs.Private.Crews.{EachDone, EachWatched, HasNewPass, passes_of};
ghost use Rattle.deck_runs.specs.declared.jobs.crews.MonitorRun.{MonitorRun as Watcher};
ghost use Rattle.deck_runs.specs.declared.jobs.crews.UpdaterRun.{UpdaterRun as Updater};
ghost use Rattle.deck_runs.specs.declared.jobs.TheConstants.{LOOKS};
ghost use Rattle.deck_runs.specs.Private.StageSteps.{HasAired, BeginsWhole, IsEnd, IsUnplayed, IsPlayed};

use crate::jobs::conductors::ConductFault;
use crate::jobs::crews::{ConductorRun, MonitorRun, UpdaterRun, update_and_watch};
use crate::jobs::openings::{updaters_of, watchers_of};
use air_base::NoMemory;
use air_devices::{Gate, Mast};
use air_history::History;
use air_sender::{bucket_room, groups_of};
use chunk_program::Planned;
use control_matrix::Board;
use cycle_snapshot::{Monitor, Publisher, publisher};
use station::{ConductorPass, Station, UpdaterPass};
use std::alloc::Global;
use std::sync::Wait;
use std::thread::{Threads, join_mut};

/// The planned deck that is run, its station, and those who work there. The passes of the updaters come back into `passes`, which has the room from
/// the beginning.
#[derive(Drop)]
pub(crate) struct Stage<'a> {
    pub planned: &'a Planned,
    pub station: Station,
    pub conductor: ConductorRun,
    pub updaters: Vec<UpdaterRun>,
    pub passes: Vec<UpdaterPass>,
}

/// A conductor of the deck with this pass, before all events.
fn conductor_of(
    alloc: Global,
    planned: &Planned,
    pass: ConductorPass,
) -> Result<ConductorRun, NoMemory>
    ensures pass { IfOk result (λ run. run.pass ≡ pass) }
    ensures board { IfOk result (λ run. run.board ≡ board_of (values_in planned.now) []) }
    ensures buffer { IfOk result (λ run. HEAD_BYTES + entry_len planned.now.settings.version * length planned.now.items ≤ length run.buf.items) }
    ensures groups { IfOk result (λ run. HasGroups planned.now run.groups) }
{
    let deck = planned.deck();
    let values = deck.values(alloc)?;
    Ok(ConductorRun {
        pass,
        board: Board::new(alloc, &values)?,
        buf: vec![in alloc; 0; bucket_room(planned)]?,
        groups: groups_of(alloc, planned)?,
    })
}

/// A stage of the deck, before all events.
pub(crate) fn open_stage<'a>(alloc: Global, planned: &'a Planned) -> Result<Stage<'a>, NoMemory>
    ensures planned { IfOk result (λ s. s.planned.now ≡ planned.now) }
    ensures unplayed { IfOk result IsUnplayed }
{
    let deck = planned.deck();
    let (station, passes, pass) = Station::new(alloc, deck)?;
    let updaters = updaters_of(alloc, &station, deck, passes)?;
    let conductor = conductor_of(alloc, planned, pass)?;
    Ok(Stage {
        planned,
        station,
        conductor,
        passes: Vec::with_capacity(alloc, updaters.len())?,
        updaters,
    })
}

/// The deck's publisher, which has to be closed, and its monitors.
fn publisher_of<R: Wait>(
    wait: &R,
    alloc: Global,
    planned: &Planned,
) -> Result<(Publisher, Vec<Monitor>), NoMemory>
    ensures publisher { IfOk result (λ made. made.0 ≡ new_publisher made.0.id (values_in planned.now) planned.now.settings.cycles) }
    ensures count { IfOk result (λ made. length made.1.items ≡ planned.now.settings.monitors) }
    ensures few { IfOk result (λ made. length made.1.items < 2 ^ 32) }
    ensures each { IfOk result (λ made. All (λ (m : MonitorState). m ≡ new_monitor made.0) made.1.items) }
{
    let deck = planned.deck();
    let settings = deck.settings();
    let values = deck.values(alloc)?;
    let made = publisher(wait, alloc, &values, settings.monitors, settings.cycles)?;
    Ok(made)
}

/// The deck's publisher, which has to be closed, and a watcher for each of its monitors.
pub(crate) fn open_publisher<R: Wait>(
    wait: &R,
    alloc: Global,
    planned: &Planned,
) -> Result<(Publisher, Vec<MonitorRun>), NoMemory>
    ensures publisher { IfOk result (λ made. made.0 ≡ new_publisher made.0.id (values_in planned.now) planned.now.settings.cycles) }
    ensures count { IfOk result (λ made. length made.1.items ≡ planned.now.settings.monitors) }
    ensures few { IfOk result (λ made. length made.1.items < 2 ^ 32) }
    ensures each { IfOk result (λ made. All (λ (run : Watcher). run.monitor ≡ new_monitor made.0) made.1.items) }
{
    let (source, monitors) = publisher_of(wait, alloc, planned)?;
    match watchers_of(alloc, monitors) {
        Ok(watchers) => Ok((source, watchers)),
        Err(error) => {
            source.close(wait);
            Err(error)
        }
    }
}

impl Stage<'_> {
    /// Runs the conductor, all updaters and all monitors at the same time, on threads if there are any. A job that ends early doesn't stop the
    /// others. Regardless of the schedule, each updater committed its updates in order, or the first of them, and each monitor made its looks, or the
    /// first of them. The buckets sent are those of the history that the conductor has seen.
    pub(crate) fn play<R: Threads + Wait + Sync, M: Mast + Send, G: Gate + Sync>(
        &mut self,
        rt: &R,
        alloc: Global,
        source: &mut Publisher,
        watchers: &mut [MonitorRun],
        mast: &mut M,
        gate: &G,
    ) -> Result<(), ConductFault>
        requires unplayed { IsUnplayed self.old }
        requires publisher { source.old ≡ new_publisher source.old.id (values_in self.old.planned.now) self.old.planned.now.settings.cycles }
        ensures conducted { HasAired M.state self.old.planned.now self.old.conductor.pass self.new.conductor.pass source.old source.new mast.old mast.new result }
        ensures updaters { EachDone self.old.planned.now self.old.updaters.items self.new.updaters.items }
        ensures watched { EachWatched LOOKS watchers.old watchers.new }
        ensures kept { (self.new.planned ≡ self.old.planned) × (self.new.station ≡ self.old.station) × (self.new.passes ≡ self.old.passes) }
    {
        let planned = self.planned;
        let (conducted, _) = join_mut(
            rt,
            &mut || self
                .conductor
                .work(rt, alloc, &self.station, planned, source, mast, gate),
            &mut ||
                requires { IsSync R.row × IsSync G.row × All (HasNewPass self.now.station planned.now) self.now.updaters.items }
                ensures { EachDone planned.entry.now self.entry.now.updaters.items self.exit.now.updaters.items × EachWatched LOOKS watchers.entry.now watchers.exit.now }
            {
                update_and_watch(
                    rt,
                    alloc,
                    &self.station,
                    planned,
                    &mut self.updaters,
                    watchers,
                    gate,
                )
            },
        );
        conducted
    }

    /// Closes the station. The answer is `NoMemory` if an updater ended early.
    pub(crate) fn end(self) -> Result<History, NoMemory>
        requires { IsPlayed self }
        ensures begins { BeginsWhole self.entry.planned.now self.entry.conductor.pass.seen }
        ensures end { IfOk result (IsEnd self.entry.planned.now self.entry.conductor.pass.seen) }
    {
        let Stage {
            station,
            conductor,
            updaters,
            mut passes,
            ..
        } = self;
        let ConductorRun { pass, .. } = conductor;
        let done = are_done(&updaters);
        hand_in(updaters, &mut passes);
        let history = station.close(passes, pass);
        if !done {
            return Err(NoMemory);
        }
        Ok(history)
    }
}

/// Whether all updaters committed all of their updates.
fn are_done(updaters: &[UpdaterRun]) -> bool
    ensures { IsTrue result ↔ All (λ (run : Updater). IsTrue run.done) updaters.now }
{
    updaters.iter().all(|run| run.done)
}

/// Puts the passes of the updaters into the empty vector, which has room for them.
fn hand_in(updaters: Vec<UpdaterRun>, passes: &mut Vec<UpdaterPass>)
    requires room { (passes.old.items ≡ []) × (length updaters.items ≤ vec_capacity passes.old) }
    ensures { passes.new.items ≡ passes_of updaters.items }
{
    for run in updaters {
        passes.push_reserved(run.pass);
    }
}
