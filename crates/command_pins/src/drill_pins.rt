//! This pin fixes the whole line that `run_drill` of `scripts` answers for one seed and one size, byte by byte. So it also guards the definitions:
//! the deck of a drill, its script's history and tape, the ethers, and the readers' sessions.

ghost use Rattle.std.specs.Prelude.{◌≡◌, codes, IfOk};

use air_base::NoMemory;
use scripts::run_drill;
use std::alloc::Global;

/// The drill of seed 0 and size 1 has this line: 18 items, ten commits, four cycles of 28 slots and a tape of 11,200 bytes. Eight queries are
/// accepted, 21 buckets are opened, and 863 are slept through.
/// Promise: script, drill and plan print their texts
#[tactic(auto, using(crate::proofs::DrillLemmas::line_of_drill))]
pub fn line_of_another_drill(alloc: Global) -> Result<Vec<u8>, NoMemory>
    ensures { IfOk result (λ text. text.items ≡ codes "drill,18,10,4,28,11200,8,0,0,21,863,0\n") }
{
    run_drill(alloc, 0, 1)
}
