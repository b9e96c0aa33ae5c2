//! Airing one cycle of a program from a source, slot by slot: the loop that boards and boards by groups share.

ghost use Rattle.std.specs.Prelude.{◌≡◌, ◌⊎◌, ℕ, ◌<◌, ◌≤◌, ◌+◌, ◌*◌, List, [], ◌∷◌, length, take, IfErr, Ok, OnErr, OnOk};
ghost use Rattle.air_base.specs.declared.limits.TheConstants.{MOST_FULL_ITEMS, MOST_SLOTS};
ghost use Rattle.air_history.specs.declared.histories.Event.{Event};
ghost use Rattle.air_model.specs.Disks.{all_items};
ghost use Rattle.air_model.specs.Programs.{program as slots_of};
ghost use Rattle.air_model.specs.Buckets.{entry_len, most_count, reading, spelling};
ghost use Rattle.air_model.specs.Aired.{Air};
ghost use Rattle.bucket_codec.specs.declared.offsets.TheConstants.{HEAD_BYTES};
ghost use Rattle.air_devices.specs.Counts.{TellsFailure};
ghost use Rattle.air_devices.specs.Masts.{Changes, with_buckets};
ghost use Rattle.air_sender.specs.BoardBuckets.{EntriesBelow, IsLastBoard, board_bytes, bucket_on, last_bytes};
ghost use Rattle.air_sender.specs.AirFaults.{IsAirAnswer, SendsUpToFault};

use crate::airing::AirFault;
use crate::buckets::slot_bucket;
use crate::sources::Source;
use air_base::Form;
use air_devices::{Failed, Mast};
use bucket_codec::encode;
use chunk_program::Program;

/// Sends the bucket of each slot in order for the source's cycle.
pub fn air_source<S: Source, M: Mast>(
    program: &Program,
    source: &S,
    form: Form,
    mast: &mut M,
    buf: &mut [u8],
) -> Result<(), AirFault>
    requires started { 1 ≤ (S.board source.now).cycle }
    requires below { EntriesBelow (S.board source.now) }
    requires allowed { S.airs form.policy }
    requires items { length (all_items program.now.disks) ≡ length (S.board source.now).values }
    requires version { (form.version ≡ 1) ⊎ (form.version ≡ 2) }
    requires few { form.version ≡ 1 → length (S.board source.now).values ≤ MOST_FULL_ITEMS }
    requires room { HEAD_BYTES + entry_len form.version * length (S.board source.now).values ≤ length buf.old }
    ensures aired { OnOk result (Changes (with_buckets (board_bytes form program.now.edition (slots_of program.now.disks) (S.board source.now))) (M.state mast.old).told (M.state mast.new).told) }
    ensures history { (values : List ℕ) (air : Air) (G : List Event) → IsLastBoard values air G form program.now.edition (slots_of program.now.disks) (S.board source.now) →
        SendsUpToFault (last_bytes values air G) result (M.state mast.old).told (M.state mast.new).told }
    ensures calm { OnOk result ((M.state mast.new).faults ≡ (M.state mast.old).faults) }
    ensures fault { IfErr result (IsAirAnswer M.state (board_bytes form program.now.edition (slots_of program.now.disks) (S.board source.now)) mast.old mast.new) }
    ensures port { (M.state mast.new).port ≡ (M.state mast.old).port }
    ensures buffer { length buf.new ≡ length buf.old }
{
    program.shows_well_made();
    for slot in 0..program.slots() {
        if air_slot(program, source, form, slot, mast, buf).is_err() {
            return Err(AirFault::Mast { slot });
        }
    }
    Ok(())
}

/// Sends the bucket of one slot.
fn air_slot<S: Source, M: Mast>(
    program: &Program,
    source: &S,
    form: Form,
    slot: u32,
    mast: &mut M,
    buf: &mut [u8],
) -> Result<(), Failed>
    requires slot { slot < length (slots_of program.now.disks) }
    requires short { slot < MOST_SLOTS }
    requires version { (form.version ≡ 1) ⊎ (form.version ≡ 2) }
    requires few { length (S.board source.now).values ≤ most_count form.version }
    requires started { 1 ≤ (S.board source.now).cycle }
    requires below { EntriesBelow (S.board source.now) }
    requires allowed { S.airs form.policy }
    requires items { length (all_items program.now.disks) ≡ length (S.board source.now).values }
    requires room { HEAD_BYTES + entry_len form.version * length (S.board source.now).values ≤ length buf.old }
    ensures sent { OnOk result (Changes (with_buckets (spelling (bucket_on form program.now.edition (slots_of program.now.disks) (S.board source.now) slot) ∷ [])) (M.state mast.old).told (M.state mast.new).told) }
    ensures refused { OnErr result ((M.state mast.new).told ≡ (M.state mast.old).told) }
    ensures port { (M.state mast.new).port ≡ (M.state mast.old).port }
    ensures cause { TellsFailure (M.state mast.old).faults (M.state mast.new).faults result }
{
    let len = encode_source(program, source, form, slot, buf);
    mast.send(&buf[..len])
}

/// Writes the bytes of a slot's bucket to the beginning of the buffer, and returns their number. They decode to that bucket.
pub fn encode_source<S: Source>(
    program: &Program,
    source: &S,
    form: Form,
    slot: u32,
    buf: &mut [u8],
) -> usize
    requires slot { slot < length (slots_of program.now.disks) }
    requires short { slot < MOST_SLOTS }
    requires version { (form.version ≡ 1) ⊎ (form.version ≡ 2) }
    requires few { length (S.board source.now).values ≤ most_count form.version }
    requires started { 1 ≤ (S.board source.now).cycle }
    requires below { EntriesBelow (S.board source.now) }
    requires allowed { S.airs form.policy }
    requires items { length (all_items program.now.disks) ≡ length (S.board source.now).values }
    requires room { HEAD_BYTES + entry_len form.version * length (S.board source.now).values ≤ length buf.old }
    ensures bytes { take result buf.new ≡ spelling (bucket_on form program.now.edition (slots_of program.now.disks) (S.board source.now) slot) }
    ensures decodes { reading (take result buf.new) ≡ Ok (bucket_on form program.now.edition (slots_of program.now.disks) (S.board source.now) slot) }
    ensures sized { result ≤ HEAD_BYTES + entry_len form.version * length (S.board source.now).values }
    ensures buffer { length buf.new ≡ length buf.old }
{
    let bucket = slot_bucket(
        source,
        form,
        program.edition(),
        slot,
        program.slot_item(slot),
    );
    encode(&bucket, buf)
}
