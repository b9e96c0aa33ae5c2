//! A monitor's job, and its last look.
ghost use Rattle.std.specs.Prelude.{◌≡◌, ℕ, ◌<◌, ◌≤◌, IfOk, MatchResult};
ghost use Rattle.cycle_snapshot.specs.SnapshotStates.{HasLooked};
ghost use mathlib.Core.List.{IsPrefix};
ghost use Rattle.deck_runs.specs.Looks.{IsLookLineOf, LookedTimes};

use air_base::NoMemory;
use air_devices::Gate;
use air_model::reports::LookLine;
use cycle_snapshot::{Monitor, Publisher};

/// The frame that the monitor keeps, as the line of a monitor of number 0.
fn line_of(monitor: &Monitor) -> LookLine
    ensures line { IsLookLineOf monitor.now result }
    ensures number { result.monitor ≡ 0 }
{
    LookLine {
        monitor: 0,
        cycle: monitor.cycle(),
        total: monitor.total(),
    }
}

/// Looks `looks` times, and answers the last look, with the monitor's number 0. It ends at the first look that answers `NoMemory`. It waits for
/// nobody. Each look is between its two gate calls; no clause speaks of these.
pub fn monitor_job<G: Gate>(
    monitor: &mut Monitor,
    looks: u32,
    gate: &G,
) -> Result<LookLine, NoMemory>
    requires some { 1 ≤ looks }
    ensures looked { MatchResult result (λ line. LookedTimes looks monitor.old monitor.new × IsLookLineOf monitor.new line) (λ _. (n : ℕ) × (n < looks) × LookedTimes n monitor.old monitor.new) }
    ensures number { IfOk result (λ line. line.monitor ≡ 0) }
{
    let _before = monitor.looks();
    for look in 0..looks {
        gate.before_look(look);
        monitor.look()?;
        gate.after_look(look);
    }
    Ok(line_of(monitor))
}

/// Looks once more, after the monitor learned what is published: what it then has seen begins with all of it. The line has the monitor's number 0.
pub fn last_look(monitor: &mut Monitor, publisher: &Publisher) -> Result<LookLine, NoMemory>
    requires own { monitor.old.publisher ≡ publisher.now.id }
    ensures told { IsPrefix publisher.now.batches monitor.new.told × IsPrefix monitor.old.told monitor.new.told }
    ensures looked { MatchResult result (λ line. HasLooked (record monitor.old { told = monitor.new.told }) monitor.new × IsLookLineOf monitor.new line) (λ _. monitor.new ≡ record monitor.old { told = monitor.new.told }) }
    ensures number { IfOk result (λ line. line.monitor ≡ 0) }
{
    monitor.learn(publisher.tell());
    monitor.look()?;
    Ok(line_of(monitor))
}
