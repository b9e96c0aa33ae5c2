//! Who does the jobs of a run: the conductor, the updaters and the monitors, each with what its job works on.
//!
//! Each job's contract holds regardless of the schedule. A job that ends out of memory, or after the mast failed, doesn't stop the others.
ghost use Rattle.std.specs.Prelude.{◌≡◌, ◌≤◌, All};
ghost use Rattle.std.specs.Thread.{IsSync};
ghost use Rattle.air_model.specs.Decks.{values_in};
ghost use Rattle.cycle_snapshot.specs.SnapshotStates.{new_publisher};
ghost use Rattle.deck_runs.specs.Private.Crews.{CanConduct, EachDone, EachWatched, HasMadeUpdates, HasNewPass, IsWatched};
ghost use Rattle.deck_runs.specs.declared.jobs.TheConstants.{LOOKS};
ghost use Rattle.deck_runs.specs.Private.StageSteps.{HasAired};

use crate::jobs::LOOKS;
use crate::jobs::conductors::{ConductFault, conductor_job, group_conductor_job};
use crate::jobs::monitors::monitor_job;
use crate::jobs::updaters::updater_job;
use air_base::limits::{MOST_MONITORS, MOST_UPDATERS};
use air_devices::{Gate, Mast};
use air_model::reports::LookLine;
use air_sender::own_form;
use chunk_program::Planned;
use control_matrix::Board;
use cycle_snapshot::{Monitor, Publisher};
use group_matrix::GroupBoard;
use station::{ConductorPass, Station, UpdaterPass};
use std::alloc::Global;
use std::sync::Wait;
use std::thread;
use std::thread::{Threads, join_mut};

/// The conductor: its pass, its board, room for the bytes of a bucket, and the board by groups if the deck has groups.
#[derive(Drop)]
pub struct ConductorRun {
    pub pass: ConductorPass,
    pub board: Board,
    pub buf: Vec<u8>,
    pub groups: Option<GroupBoard>,
}

impl ConductorRun {
    /// Airs the deck's cycles, by groups if the deck has groups and not otherwise. The buckets sent are those of the history that the pass has seen.
    /// The batches that the publisher has then air this history, one a cycle.
    pub(crate) fn work<R: Wait, M: Mast, G: Gate>(
        &mut self,
        wait: &R,
        alloc: Global,
        station: &Station,
        planned: &Planned,
        publisher: &mut Publisher,
        mast: &mut M,
        gate: &G,
    ) -> Result<(), ConductFault>
        requires ready { CanConduct station.now planned.now self.old }
        requires publisher { publisher.old ≡ new_publisher publisher.old.id (values_in planned.now) planned.now.settings.cycles }
        ensures { HasAired M.state planned.now self.old.pass self.new.pass publisher.old publisher.new mast.old mast.new result }
    {
        let cycles = planned.deck().settings().cycles;
        let plans = planned.plans();
        let form = own_form(planned);
        let pass = &mut self.pass;
        let board = &mut self.board;
        let buf = &mut self.buf;
        match &mut self.groups {
            None => conductor_job(
                wait, alloc, station, pass, publisher, board, plans, form, cycles, mast, buf, gate,
            ),
            Some(groups) => group_conductor_job(
                wait, alloc, station, pass, publisher, board, groups, plans, form, cycles, mast,
                buf, gate,
            ),
        }
    }
}

/// An updater: its pass, and whether all of its updates were committed.
#[derive(Drop)]
pub struct UpdaterRun {
    pub pass: UpdaterPass,
    pub done: bool,
}

impl UpdaterRun {
    /// Commits the deck's updates of this updater.
    #[tactic(auto, unfolding(crate::specs::Private::Crews::HasNewPass, crate::specs::Private::Crews::HasMadeUpdates))]
    fn work<R: Wait, G: Gate>(
        &mut self,
        wait: &R,
        alloc: Global,
        station: &Station,
        planned: &Planned,
        gate: &G,
    )
        requires ready { HasNewPass station.now planned.now self.old }
        ensures done { HasMadeUpdates planned.now self.old self.new }
    {
        let deck = planned.deck();
        let number = self.pass.by();
        let mine = deck.updates(number);
        match updater_job(wait, alloc, station, &mut self.pass, mine, gate) {
            Ok(()) => self.done = true,
            Err(_) => self.done = false,
        }
    }
}

/// A monitor, and its last look, if all of its looks had memory.
#[derive(Drop)]
pub struct MonitorRun {
    pub monitor: Monitor,
    pub glance: Option<LookLine>,
}

impl MonitorRun {
    /// Looks `looks` times.
    #[tactic(auto, unfolding(crate::specs::Private::Crews::IsWatched))]
    fn work<G: Gate>(&mut self, looks: u32, gate: &G)
        requires some { 1 ≤ looks }
        ensures watched { IsWatched looks self.old self.new }
    {
        match monitor_job(&mut self.monitor, looks, gate) {
            Ok(line) => self.glance = Some(line),
            Err(_) => self.glance = None,
        }
    }
}

/// All updaters at once, on no more threads than a deck has updaters.
fn update_all<R: Threads + Wait + Sync, G: Gate + Sync>(
    rt: &R,
    alloc: Global,
    station: &Station,
    planned: &Planned,
    updaters: &mut [UpdaterRun],
    gate: &G,
)
    requires { All (HasNewPass station.now planned.now) updaters.old }
    ensures { EachDone planned.now updaters.old updaters.new }
{
    thread::for_each_mut(
        rt,
        updaters,
        MOST_UPDATERS,
        &|_, run| run.work(rt, alloc, station, planned, gate),
    );
}

/// All monitors at once, on no more threads than a deck has monitors.
fn watch_all<R: Threads + Sync, G: Gate + Sync>(rt: &R, monitors: &mut [MonitorRun], gate: &G)
    ensures { EachWatched LOOKS monitors.old monitors.new }
{
    thread::for_each_mut(
        rt,
        monitors,
        MOST_MONITORS as usize,
        &|_, run| run.work(LOOKS, gate),
    );
}

/// All updaters and, at the same time, all monitors.
pub(crate) fn update_and_watch<R: Threads + Wait + Sync, G: Gate + Sync>(
    rt: &R,
    alloc: Global,
    station: &Station,
    planned: &Planned,
    updaters: &mut [UpdaterRun],
    monitors: &mut [MonitorRun],
    gate: &G,
)
    requires { All (HasNewPass station.now planned.now) updaters.old }
    ensures updaters { EachDone planned.now updaters.old updaters.new }
    ensures monitors { EachWatched LOOKS monitors.old monitors.new }
{
    join_mut(
        rt,
        &mut ||
            requires { IsSync R.row × IsSync G.row }
            ensures { EachWatched LOOKS monitors.entry.now monitors.exit.now }
        { watch_all(rt, monitors, gate) },
        &mut ||
            requires { IsSync R.row × IsSync G.row × All (HasNewPass station.now planned.now) updaters.now }
            ensures { EachDone planned.entry.now updaters.entry.now updaters.exit.now }
        { update_all(rt, alloc, station, planned, updaters, gate) },
    );
}
