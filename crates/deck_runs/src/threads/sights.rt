//! What monitors saw: the glance of each, and one more look of it after all jobs.

ghost use Rattle.std.specs.Prelude.{◌≡◌, ◌<◌, ◌^◌, length, All, IfOk};
ghost use Rattle.deck_runs.specs.declared.jobs.crews.MonitorRun.{MonitorRun as Watcher};
ghost use Rattle.deck_runs.specs.Private.SightSteps.{AreAllSights, AreSights};

use crate::jobs::crews::MonitorRun;
use crate::jobs::monitors::last_look;
use air_base::NoMemory;
use air_model::reports::LookLine;
use cycle_snapshot::Publisher;
use std::alloc::Global;

/// What the monitors saw, one line of each in their order.
#[derive(Drop)]
pub(crate) struct Sights {
    pub glances: Vec<LookLine>,
    pub looks: Vec<LookLine>,
}

/// The line, with the monitor's number.
fn with_number(line: LookLine, number: u32) -> LookLine
    ensures { result ≡ record line { monitor = number } }
{
    LookLine {
        monitor: number,
        cycle: line.cycle,
        total: line.total,
    }
}

/// A watcher's glance, and the last look of its monitor, which learns all that was published.
fn sights_of(
    mut run: MonitorRun,
    source: &Publisher,
    number: u32,
) -> Result<(LookLine, LookLine), NoMemory>
    requires own { run.monitor.publisher ≡ source.now.id }
    ensures { IfOk result (λ lines. AreSights source.now number run lines.0 lines.1) }
{
    let glance = run.glance.ok_or(NoMemory)?;
    let look = last_look(&mut run.monitor, source)?;
    Ok((with_number(glance, number), with_number(look, number)))
}

/// The glances and the last looks of all watchers.
pub(crate) fn all_sights(
    alloc: Global,
    source: &Publisher,
    watchers: Vec<MonitorRun>,
) -> Result<Sights, NoMemory>
    requires own { All (λ (run : Watcher). run.monitor.publisher ≡ source.now.id) watchers.items }
    requires few { length watchers.items < 2 ^ 32 }
    ensures { IfOk result (λ s. AreAllSights source.now watchers.items s.glances.items s.looks.items) }
{
    let mut glances = Vec::new(alloc);
    let mut looks = Vec::new(alloc);
    for run in watchers {
        let number = looks.len() as u32;
        let (glance, look) = sights_of(run, source, number)?;
        glances.push(glance)?;
        looks.push(look)?;
    }
    Ok(Sights { glances, looks })
}
