//! An updater's job.
ghost use Rattle.std.specs.Prelude.{◌≡◌, ◌<◌, ◌+◌, ◌^◌, length, All, MatchResult};
ghost use Rattle.air_history.specs.UpdateRules.{UpdateFits};
ghost use Rattle.air_model.specs.Decks.{count_made};
ghost use Rattle.station.specs.PassStates.{with_seen};
ghost use Rattle.deck_runs.specs.Commits.{Makes, MakesSome};

use air_base::NoMemory;
use air_devices::Gate;
use air_history::Update;
use station::{Station, UpdaterPass};
use std::alloc::Global;
use std::sync::Wait;

/// Commits the updates in order. The pass made exactly these further commits, and after `NoMemory` the first of them. `Update::fits` is the test
/// whether an update fits; `UpdaterPass::made` gives the number of commits that the pass made. Each commit is between its two gate calls; no clause
/// speaks of these.
pub fn updater_job<R: Wait, G: Gate>(
    wait: &R,
    alloc: Global,
    station: &Station,
    pass: &mut UpdaterPass,
    updates: &[Update],
    gate: &G,
) -> Result<(), NoMemory>
    requires own { pass.old.station ≡ station.now }
    requires fits { All (UpdateFits (length pass.old.values)) updates.now }
    requires few { count_made pass.old.number pass.old.seen + length updates.now < 2 ^ 32 }
    ensures pass { pass.new ≡ with_seen pass.old pass.new.seen }
    ensures made { MatchResult result (λ _. Makes updates.now pass.old pass.new) (λ _. MakesSome updates.now pass.old pass.new) }
{
    for update in updates {
        let by = pass.by();
        let seq = pass.made();
        gate.before_commit(by, seq);
        let _receipt = station.commit(wait, alloc, pass, update)?;
        gate.after_commit(by, seq);
    }
    Ok(())
}
