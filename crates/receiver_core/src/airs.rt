//! What all receivers of a deck know: the policy and the group, the version, the number of items, and the plans, which all of them share.
//! A receiver judges by the entries that it hears; none looks at the group.

ghost use Rattle.std.specs.Prelude.{◌≡◌, ◌<◌, ◌≤◌, ℕ, length, IfOk};
ghost use Rattle.air_base.specs.declared.limits.TheConstants.{MOST_ITEMS};
ghost use Rattle.air_model.specs.Buckets.{item_of, kind_of};
ghost use Rattle.air_model.specs.Aired.{air_of, airs_columns, edition_at, fits, pix_at};
ghost use Rattle.air_model.specs.Airings.{carries};
ghost use Rattle.receiver_core.specs.Private.SlotKinds.{kind_fits};

use air_base::{NoMemory, Policy};
use bucket_codec::{BucketView, ViewKind};
use chunk_program::{PlannedRef, Plans};
use std::marker::Model;

/// The policy, the number of items of a group, the version of the buckets, the number of items, and the plans: which item each slot of a cycle
/// carries, and which PIX number each item has in it.
#[derive(Drop)]
pub struct Air {
    policy: Policy,
    group: u16,
    version: u8,
    items: u16,
    plans: Plans,
}

impl Model for Air {
    ghost use Rattle.air_model.specs.Aired.{Air};

    ghost Value = { Air };

    ghost use Rattle.receiver_core.specs.AirFields.{air_in};

    ghost view = { air_in };
}

impl Air {
    /// Gathers what the receivers of a deck know. The plans are shared and not copied.
    pub fn new(planned: &PlannedRef<'_>) -> Result<Air, NoMemory>
        ensures told { IfOk result (λ a. a ≡ air_of planned.now) }
        ensures numbers { IfOk result (λ a. (c : ℕ) → length (pix_at a c) ≡ a.items) }
        ensures few { IfOk result (λ a. a.items ≤ MOST_ITEMS) }
    {
        let deck = planned.deck();
        let settings = deck.settings();
        Ok(Air {
            policy: settings.policy,
            group: settings.group,
            version: settings.version,
            items: deck.items(),
            plans: planned.plans().share()?,
        })
    }

    /// Returns the policy.
    pub fn policy(&self) -> Policy
        ensures { result ≡ self.now.scheme.policy }
    {
        self.policy
    }

    /// Returns the version of the deck's buckets.
    pub fn version(&self) -> u8
        ensures { result ≡ self.now.version }
    {
        self.version
    }

    /// Returns the number of items.
    pub fn items(&self) -> u16
        ensures { result ≡ self.now.items }
    {
        self.items
    }

    /// Returns the edition of a cycle.
    pub fn edition_at(&self, cycle: u32) -> u32
        ensures { result ≡ edition_at self.now cycle }
    {
        self.plans.edition_at(cycle)
    }

    /// Returns the PIX number of each item in a cycle.
    pub fn pix(&self, cycle: u32) -> &[u64]
        ensures { result.now ≡ pix_at self.now cycle }
    {
        self.plans.pix(self.plans.edition_at(cycle))
    }

    /// Tells whether the bucket fits the deck, by the program in force in its own cycle.
    pub fn fits(&self, bucket: &BucketView<'_>) -> bool
        ensures { result ≡ fits self.now bucket.now }
    {
        let edition = u32::from(bucket.edition());
        if bucket.version() > self.version || !self.plans.is_in_force(edition, bucket.cycle()) {
            return false;
        }
        let program = self.plans.program(edition);
        let slot = u32::from(bucket.slot());
        if slot >= program.slots() {
            return false;
        }
        stands_right(self.policy, program.slot_item(slot), bucket) && bucket.count() == self.items
    }
}

/// Tells whether the slot carries the item.
fn carries(slot: Option<u16>, item: u16) -> bool
    ensures { result ≡ carries item slot }
{
    match slot {
        None => false,
        Some(carried) => carried == item,
    }
}

/// Tells whether the policy airs control columns.
fn airs_columns(policy: Policy) -> bool
    ensures { result ≡ airs_columns policy }
{
    match policy {
        Policy::FMatrix => true,
        Policy::Datacycle | Policy::RMatrix => false,
    }
}

/// Tells whether the bucket's kind and item are those that the policy airs in a slot with this item.
#[tactic(auto, unfolding(crate::specs::Private::SlotKinds::kind_fits))]
fn stands_right(policy: Policy, slot: Option<u16>, bucket: &BucketView<'_>) -> bool
    ensures { result ≡ kind_fits policy slot (kind_of bucket.now.body) (item_of bucket.now.body) }
{
    match bucket.kind() {
        ViewKind::Idle => slot.is_none(),
        ViewKind::Column => carries(slot, bucket.item()) && airs_columns(policy),
        ViewKind::Vector => carries(slot, bucket.item()) && !airs_columns(policy),
    }
}
