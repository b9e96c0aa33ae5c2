//! The bucket of a slot in the cycle of a source and an edition: its entries are lent from the source, and nothing is copied.

ghost use Rattle.std.specs.Prelude.{◌≡◌, ◌⊎◌, ◌<◌, ◌≤◌, ◌+◌, ◌*◌, ◌^◌, length, IfSome};
ghost use Rattle.air_model.specs.Aired.{aired_as};
ghost use Rattle.bucket_codec.specs.declared.offsets.TheConstants.{HEAD_BYTES};
ghost use Rattle.air_model.specs.Buckets.{IsInRange, capped_bucket, entry_len, most_count, spelling};
ghost use Rattle.bucket_codec.specs.BucketsToAir.{body_to_air, bucket_to_air};
ghost use Rattle.air_sender.specs.BoardBuckets.{EntriesBelow, body_on, entries_on};

use crate::sources::Source;
use air_base::{Form, Policy};
use bucket_codec::{Body, Bucket};

/// The bucket of a slot with this item, or of an idle one, in this edition.
#[tactic(auto, using(crate::proofs::RangeLemmas::spelling_long), unfolding(crate::specs::BoardBuckets::body_on, bucket_codec::specs::BucketsToAir::body_to_air))]
pub fn slot_bucket<'a, S: Source>(
    source: &'a S,
    form: Form,
    edition: u16,
    slot: u32,
    item: Option<u16>,
) -> Bucket<'a>
    requires within { IfSome item (λ i. i < length (S.board source.now).values) }
    requires slot { slot < 2 ^ 16 }
    requires version { (form.version ≡ 1) ⊎ (form.version ≡ 2) }
    requires few { length (S.board source.now).values ≤ most_count form.version }
    requires started { 1 ≤ (S.board source.now).cycle }
    requires below { EntriesBelow (S.board source.now) }
    requires allowed { S.airs form.policy }
    ensures bucket { bucket_to_air result ≡ record { version = form.version; edition = edition; cycle = (S.board source.now).cycle; slot = slot; body = body_on form.policy (S.board source.now) item } }
    ensures range { IsInRange (capped_bucket (bucket_to_air result)) }
    ensures long { HEAD_BYTES ≤ length (spelling (bucket_to_air result)) }
    ensures sized { length (spelling (bucket_to_air result)) ≤ HEAD_BYTES + entry_len form.version * length (S.board source.now).values }
{
    let version = form.version;
    let cycle = source.its_cycle();
    let slot = slot as u16;
    let Some(item) = item else {
        let body = Body::Idle {
            count: source.count_items(),
        };
        return Bucket {
            version,
            edition,
            cycle,
            slot,
            body,
        };
    };
    let value = source.value_of(item);
    let body = item_body(source, form.policy, item, value);
    Bucket {
        version,
        edition,
        cycle,
        slot,
        body,
    }
}

/// What a slot with this item and value carries under the policy.
#[tactic(auto, unfolding(bucket_codec::specs::BucketsToAir::body_to_air))]
fn item_body<'a, S: Source>(source: &'a S, policy: Policy, item: u16, value: u64) -> Body<'a>
    requires within { item < length (S.board source.now).values }
    requires allowed { S.airs policy }
    ensures body { body_to_air result ≡ aired_as policy item value (entries_on policy (S.board source.now) item) }
    ensures sized { length (entries_on policy (S.board source.now) item) ≡ length (S.board source.now).values }
{
    let entries = source.entries_of(policy, item);
    match policy {
        Policy::FMatrix => Body::Column {
            item,
            value,
            entries,
        },
        Policy::Datacycle | Policy::RMatrix => Body::Vector {
            item,
            value,
            entries,
        },
    }
}
