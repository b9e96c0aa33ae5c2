//! What is made before the jobs run: an updater for each pass, and a watcher for each monitor.
ghost use Rattle.std.specs.Prelude.{◌≡◌, ℕ, length, slice_get, All, IfOk, Some};
ghost use Rattle.station.specs.PassStates.{PassState, new_pass};
ghost use Rattle.deck_runs.specs.Private.Crews.{HasNewPass, passes_of, monitors_of};

use crate::jobs::crews::{MonitorRun, UpdaterRun};
use air_base::NoMemory;
use cycle_snapshot::Monitor;
use item_catalog::Deck;
use station::{Station, UpdaterPass};
use std::alloc::Global;

/// An updater for each of the passes, in their order.
fn with_passes(alloc: Global, passes: Vec<UpdaterPass>) -> Result<Vec<UpdaterRun>, NoMemory>
    ensures { IfOk result (λ updaters. passes_of updaters.items ≡ passes.items) }
{
    let mut updaters = Vec::new(alloc);
    for pass in passes {
        updaters.push(UpdaterRun { pass, done: false })?;
    }
    Ok(updaters)
}

/// An updater for each of the new passes of the deck's station, in their order.
pub fn updaters_of(
    alloc: Global,
    station: &Station,
    deck: &Deck,
    passes: Vec<UpdaterPass>,
) -> Result<Vec<UpdaterRun>, NoMemory>
    requires count { length passes.items ≡ length deck.now.updates }
    requires each { (by : ℕ) (p : PassState) → slice_get passes.items by ≡ Some p → p ≡ new_pass station.now deck.now by }
    ensures passes { IfOk result (λ updaters. passes_of updaters.items ≡ passes.items) }
    ensures ready { IfOk result (λ updaters. All (HasNewPass station.now deck.now) updaters.items) }
{
    let updaters = with_passes(alloc, passes)?;
    Ok(updaters)
}

/// A watcher for each monitor, in their order.
pub fn watchers_of(alloc: Global, monitors: Vec<Monitor>) -> Result<Vec<MonitorRun>, NoMemory>
    ensures { IfOk result (λ watchers. monitors_of watchers.items ≡ monitors.items) }
{
    let mut watchers = Vec::new(alloc);
    for monitor in monitors {
        watchers.push(MonitorRun {
            monitor,
            glance: None,
        })?;
    }
    Ok(watchers)
}
