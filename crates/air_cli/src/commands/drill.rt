//! The command `drill`: the drill line of a seed and a size. Nothing is read for it.

ghost use Rattle.std.specs.Prelude.{◌≡◌, ◌≤◌, IfErr, IfOk};
ghost use Rattle.air_cli.specs.Drill.{DrillGives};
ghost use Rattle.item_catalog.specs.declared.deck.drill.TheConstants.{MOST_DRILL_SIZE};

use crate::outputs::report_and_tape::ReportAndTape;
use crate::truths::shows_drill_truth;
use air_report::Status;
use scripts::run_drill;
use std::alloc::Global;

/// The line of the drill of a seed and a size.
#[tactic(auto, unfolding(crate::specs::Drill::DrillGives))]
pub(crate) fn drill(alloc: Global, seed: u64, size: u32) -> Result<ReportAndTape, Status>
    requires some { 1 ≤ size }
    requires few { size ≤ MOST_DRILL_SIZE }
    ensures gives { IfOk result (DrillGives seed size) }
    ensures refused { IfErr result (λ status. status ≡ Status.NoMemory) }
{
    shows_drill_truth(seed, size);
    let text = run_drill(alloc, seed, size)?;
    Ok(ReportAndTape {
        text,
        tape: None,
        differs: false,
    })
}
