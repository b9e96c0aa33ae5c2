//! These pins say what `cast_run` sends to a mast in memory, and what `ear_sessions` leaves of three datagrams that wait at an ear in memory. They
//! fix the port, the end of what was sent, and the cause of each failure of a device. They also say that `cast_on_air` and `hear_on_air` don't tell a
//! failed device as a lack of memory.

ghost use Rattle.std.specs.Prelude.{◌≡◌, ◌≤◌, ◌+◌, ℕ, [], ◌∷◌, length, Err, None, Some, OnErr, OnOk};
ghost use Rattle.air_devices.specs.Masts.{nothing_sent};
ghost use Rattle.air_devices.specs.MemoryMasts.{told_by_mast};

use air_cli::{HearFault, ReportAndTape, cast_on_air, ear_sessions, hear_on_air};
use air_devices::{Gate, MemEar, MemMast};
use air_report::Status;
use chunk_program::Planned;
use deck_runs::{Run, RunFault, cast_run};
use listeners::Sessions;
use std::alloc::Global;
use std::sync::Wait;
use std::thread::Threads;

/// A cast goes to its port, and has sent the end if and only if it was done. One that answers that the mast failed has the number of buckets sent,
/// and the mast counted a failure. It also refuses a cast without the end, an end before the buckets, and a failed end that is answered as nothing
/// sent.
/// Promise: what goes over the air
pub fn cast_to_another_port<R: Threads + Wait + Sync, G: Gate + Sync>(
    rt: &R,
    alloc: Global,
    planned: &Planned,
    mast: &mut MemMast,
    gate: &G,
) -> Result<Run, RunFault>
    requires unaimed { mast.old.port ≡ None }
    requires unsent { told_by_mast mast.old ≡ nothing_sent }
    requires faults { mast.old.calls.faults ≡ 0 }
    ensures port { mast.new.port ≡ Some 4001 }
    ensures ended { OnOk result ((told_by_mast mast.new).ended ≡ Some (length (told_by_mast mast.new).buckets)) }
    ensures unended { OnErr result ((told_by_mast mast.new).ended ≡ None) }
    ensures sent { (sent : ℕ) → result ≡ Err (RunFault.Mast sent) → length (told_by_mast mast.new).buckets ≡ sent }
    ensures cause { (sent : ℕ) → result ≡ Err (RunFault.Mast sent) → 1 ≤ mast.new.calls.faults }
{
    cast_run(rt, alloc, planned, mast, gate, 4001)
}

/// Readers that hear two datagrams on a port leave the third, and no call of the ear failed. Or the ear failed and counted a failure, and the fault
/// has the number of datagrams heard. It also refuses one datagram more, an ear fault without a failure, a failed datagram that is counted too, and a
/// failed ear that is taken for the end.
/// Promise: every answer is a named one
/// Promise: what goes over the air
pub fn tuned_to_another_port(
    alloc: Global,
    planned: &Planned,
    ear: &mut MemEar,
) -> Result<Sessions, HearFault>
    requires hears { planned.now.settings.hears ≡ 2 }
    requires untuned { ear.old.port ≡ None }
    requires waiting { ear.old.waiting ≡ (1 ∷ []) ∷ (2 ∷ []) ∷ (3 ∷ []) ∷ [] }
    requires faults { ear.old.calls.faults ≡ 0 }
    ensures port { ear.new.port ≡ Some 4001 }
    ensures heard { OnOk result (ear.new.waiting ≡ (3 ∷ []) ∷ []) }
    ensures calm { OnOk result (ear.new.calls.faults ≡ 0) }
    ensures left { (heard : ℕ) → result ≡ Err (HearFault.Ear heard) → heard + length ear.new.waiting ≡ 3 }
    ensures cause { (heard : ℕ) → result ≡ Err (HearFault.Ear heard) → 1 ≤ ear.new.calls.faults }
{
    ear_sessions(alloc, planned, ear, 4001)
}

/// A cast that is out of memory has counted no failure of the mast: a mast that failed is answered with the number of buckets sent.
/// Promise: every answer is a named one
/// Promise: what goes over the air
#[tactic(auto, unfolding(air_cli::specs::Cast::IsCastRefusal))]
pub fn failed_mast_told_as_no_memory<R: Threads + Wait + Sync, G: Gate + Sync>(
    rt: &R,
    alloc: Global,
    planned: &Planned,
    mast: &mut MemMast,
    gate: &G,
) -> Result<ReportAndTape, Status>
    requires unaimed { mast.old.port ≡ None }
    requires unsent { told_by_mast mast.old ≡ nothing_sent }
    requires faults { mast.old.calls.faults ≡ 0 }
    ensures { result ≡ Err Status.NoMemory → mast.new.calls.faults ≡ 0 }
{
    cast_on_air(rt, alloc, planned, mast, 4001, gate)
}

/// Readers that are out of memory have counted no failure of the ear: an ear that failed is answered with the number of datagrams heard.
/// Promise: every answer is a named one
/// Promise: what goes over the air
#[tactic(auto, unfolding(air_cli::specs::Listen::IsListenRefusal))]
pub fn failed_ear_told_as_no_memory(
    alloc: Global,
    planned: &Planned,
    ear: &mut MemEar,
) -> Result<ReportAndTape, Status>
    requires untuned { ear.old.port ≡ None }
    requires faults { ear.old.calls.faults ≡ 0 }
    ensures { result ≡ Err Status.NoMemory → ear.new.calls.faults ≡ 0 }
{
    hear_on_air(alloc, planned, ear, 4001)
}
