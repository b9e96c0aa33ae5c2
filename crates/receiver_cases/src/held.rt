//! The held reads of the three policies as one type, with a case for each policy.
//!
//! The contracts require what the type of each case requires, and say what `attempts` needs.

ghost use Rattle.std.specs.Prelude.{◌≡◌, ◌<◌, ◌≤◌, [], ◌∷◌, ◌++◌, length, IfOk, None};
ghost use Rattle.air_history.specs.Clashes.{clash_by_entries};
ghost use Rattle.air_history.specs.HeldReads.{IsNew};
ghost use Rattle.held_reads.specs.HeardReads.{heard_read};
ghost use Rattle.receiver_cases.specs.PolicyReads.{held_of, least_cycle, policy_of};

use air_base::{Clash, NoMemory, Policy, write_u64};
use column_check::Held;
use held_reads::{CheckedReads, NOT_HELD, PolicyCheck, ROOM};
use std::alloc::Global;
use vector_policies::{DataHeld, RHeld};

/// Adds a line: the number of held reads, the cycle of the last, if there is one, and the held cycle of each item, with `-` for no cycle.
fn add_held<C: PolicyCheck>(held: &CheckedReads<C>, came: &mut Vec<u8>) -> Result<(), NoMemory> {
    came.extend_from_slice(b"holds ")?;
    write_u64(held.len() as u64, came)?;
    if let Some(cycle) = held.last() {
        came.extend_from_slice(b", last ")?;
        write_u64(u64::from(cycle), came)?;
    }
    came.extend_from_slice(b"; cycles")?;
    for cycle in held.cycles() {
        came.push(b' ')?;
        if *cycle == NOT_HELD {
            came.push(b'-')?;
        } else {
            write_u64(u64::from(*cycle), came)?;
        }
    }
    came.push(b'\n')?;
    Ok(())
}

/// The held reads in order.
#[derive(Drop)]
pub enum PolicyHeld {
    FMatrix(Held),
    Datacycle(DataHeld),
    RMatrix(RHeld),
}

impl PolicyHeld {
    /// Nothing held by this policy, over `n` items.
    pub fn new(alloc: Global, policy: Policy, n: u16) -> Result<PolicyHeld, NoMemory>
        ensures items { IfOk result (λ h. (held_of h).n ≡ n) }
        ensures reads { IfOk result (λ h. (held_of h).reads ≡ []) }
    {
        match policy {
            Policy::FMatrix => Ok(PolicyHeld::FMatrix(Held::new(alloc, n)?)),
            Policy::Datacycle => Ok(PolicyHeld::Datacycle(DataHeld::new(alloc, n)?)),
            Policy::RMatrix => Ok(PolicyHeld::RMatrix(RHeld::new(alloc, n)?)),
        }
    }

    /// The number of held reads.
    pub fn len(&self) -> usize
        ensures { result ≡ length (held_of self.now).reads }
    {
        match self {
            PolicyHeld::FMatrix(held) => held.len(),
            PolicyHeld::Datacycle(held) => held.len(),
            PolicyHeld::RMatrix(held) => held.len(),
        }
    }

    /// Adds the number of held reads, the cycle of the last, and the held cycle of each item.
    pub fn show(&self, came: &mut Vec<u8>) -> Result<(), NoMemory> {
        match self {
            PolicyHeld::FMatrix(held) => add_held(held, came),
            PolicyHeld::Datacycle(held) => add_held(held, came),
            PolicyHeld::RMatrix(held) => add_held(held, came),
        }
    }

    /// The least cycle of a further read.
    pub fn least_cycle(&self) -> u32
        ensures { result ≡ least_cycle self.now }
    {
        match self {
            PolicyHeld::FMatrix(_) => 0,
            PolicyHeld::Datacycle(_) => 0,
            PolicyHeld::RMatrix(held) => held.last().unwrap_or(0),
        }
    }

    /// The held read with the least item number among those that clash with the new one.
    pub fn clashes(&self, item: u16, cycle: u32, entries: &[u32]) -> Option<Clash>
        requires new { IsNew (held_of self.now) (heard_read item cycle entries.now) }
        requires order { least_cycle self.now ≤ cycle }
        ensures { result ≡ clash_by_entries (policy_of self.now) (held_of self.now).reads (heard_read item cycle entries.now) }
    {
        match self {
            PolicyHeld::FMatrix(held) => held.clashes(item, cycle, entries),
            PolicyHeld::Datacycle(held) => held.clashes(item, cycle, entries),
            PolicyHeld::RMatrix(held) => held.clashes(item, cycle, entries),
        }
    }

    /// Also holds the new read, after those before it.
    pub fn hold(&mut self, item: u16, cycle: u32, entries: &[u32])
        requires room { length (held_of self.old).reads < ROOM }
        requires new { IsNew (held_of self.old) (heard_read item cycle entries.now) }
        requires order { least_cycle self.old ≤ cycle }
        requires clear { clash_by_entries (policy_of self.old) (held_of self.old).reads (heard_read item cycle entries.now) ≡ None }
        ensures items { (held_of self.new).n ≡ (held_of self.old).n }
        ensures reads { (held_of self.new).reads ≡ (held_of self.old).reads ++ heard_read item cycle entries.now ∷ [] }
    {
        match self {
            PolicyHeld::FMatrix(held) => held.hold(item, cycle, entries),
            PolicyHeld::Datacycle(held) => held.hold(item, cycle, entries),
            PolicyHeld::RMatrix(held) => held.hold(item, cycle, entries),
        }
    }

    /// Drops all held reads.
    pub fn clear(&mut self)
        ensures items { (held_of self.new).n ≡ (held_of self.old).n }
        ensures reads { (held_of self.new).reads ≡ [] }
    {
        match self {
            PolicyHeld::FMatrix(held) => held.clear(),
            PolicyHeld::Datacycle(held) => held.clear(),
            PolicyHeld::RMatrix(held) => held.clear(),
        }
    }
}
