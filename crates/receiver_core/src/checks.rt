//! The check of held reads by the deck's policy. Here alone a receiver asks which policy it is.
//!
//! F-Matrix checks by control columns, the two others by write vectors. A read that comes too late is told before.

ghost use Rattle.std.specs.Prelude.{◌≡◌, ℕ, map, nat_lt};
ghost use Rattle.air_history.specs.Clashes.{clash_by_entries, is_late, read_at};
ghost use Rattle.air_history.specs.HeldReads.{IsNew};
ghost use Rattle.air_history.specs.Reads.{last_cycle};
ghost use Rattle.held_reads.specs.HeardReads.{heard_read};

use air_base::{Clash, Policy};
use column_check::ColumnCheck;
use held_reads::{HeldEntries, PolicyCheck};
use vector_policies::{DatacycleCheck, RMatrixCheck};

/// Returns the held read of least item number that clashes with the new one under the policy.
pub fn clash_under(
    policy: Policy,
    held: &HeldEntries,
    item: u16,
    cycle: u32,
    entries: &[u32],
) -> Option<Clash>
    requires { IsNew held.now (heard_read item cycle entries.now) }
    ensures { result ≡ clash_by_entries policy held.now.reads (heard_read item cycle entries.now) }
{
    match policy {
        Policy::FMatrix => ColumnCheck::clash(held, item, cycle, entries),
        Policy::Datacycle => DatacycleCheck::clash(held, item, cycle, entries),
        Policy::RMatrix => RMatrixCheck::clash(held, item, cycle, entries),
    }
}

/// Tells whether a read in this cycle comes too late after the held ones under the policy, regardless of its item.
#[tactic(auto, unfolding(air_history::specs::Clashes::is_late))]
pub fn is_late_under(policy: Policy, held: &HeldEntries, cycle: u32) -> bool
    ensures { (item : ℕ) → result ≡ is_late policy (map read_at held.now.reads) (record { item = item; cycle = cycle }) }
{
    match policy {
        Policy::FMatrix => false,
        Policy::Datacycle => false,
        Policy::RMatrix => is_below_last(cycle, held),
    }
}

/// Tells whether the cycle is below that of the last held read, if there is one.
fn is_below_last(cycle: u32, held: &HeldEntries) -> bool
    ensures { result ≡ nat_lt cycle (last_cycle (map read_at held.now.reads)) }
{
    match held.last() {
        None => false,
        Some(last) => cycle < last,
    }
}
