//! What is the same in each drill, except for its seed: how its readers hear, and its settings.

ghost use Rattle.std.specs.Prelude.{◌≡◌, IfOk};
ghost use Rattle.air_model.specs.Drills.{drill_readers, drill_settings};

use air_base::limits::{DEFAULT_CYCLES, DEFAULT_HEARS};
use air_base::{NoMemory, Policy};
use air_model::deck::{ReaderPlan, Settings};
use std::alloc::Global;

/// The eight readers.
pub fn drill_readers(alloc: Global) -> Result<Vec<ReaderPlan>, NoMemory>
    ensures { IfOk result (λ readers. readers.items ≡ drill_readers) }
{
    let plan = ReaderPlan {
        room: 4,
        age: 8,
        tries: 3,
    };
    Ok(vec![in alloc; plan; 8]?)
}

/// The settings of a drill.
pub fn drill_settings(seed: u64) -> Settings
    ensures { result ≡ drill_settings seed }
{
    Settings {
        policy: Policy::FMatrix,
        version: 1,
        group: 0,
        cycles: DEFAULT_CYCLES as u32,
        seed,
        loss: 5,
        again: 3,
        late: 10,
        monitors: 0,
        hears: DEFAULT_HEARS as u32,
    }
}
