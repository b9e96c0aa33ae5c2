//! A cycle on the air, heard from its source, a board or a board by groups: a bucket is encoded only where a reader opens it.
//!
//! A reader takes its verdicts, and sleeps until the wanted item's next slot; that slot's bucket is encoded, and it hears it. So a
//! cycle costs a reader its wanted airings, and not the slots.

ghost use Rattle.std.specs.Prelude.{◌≡◌, ◌≢◌, ◌⊎◌, ℕ, ◌<◌, ◌≤◌, ◌+◌, ◌-◌, ◌*◌, ◌^◌, List, All, IfOk, IfSome, OnOk, Some, length, map};
ghost use Rattle.std.specs.List.{range_with_len};
ghost use Rattle.air_base.specs.declared.limits.TheConstants.{MOST_SLOTS};
ghost use Rattle.air_model.specs.Airings.{slot_item};
ghost use Rattle.air_model.specs.Buckets.{entry_len, most_count};
ghost use Rattle.air_model.specs.Disks.{all_items};
ghost use Rattle.air_model.specs.Programs.{program as slots_of};
ghost use Rattle.air_model.specs.Sessions.{SessionLine};
ghost use Rattle.air_sender.specs.BoardBuckets.{EntriesBelow, bucket_on};
ghost use Rattle.bucket_codec.specs.declared.offsets.TheConstants.{HEAD_BYTES};
ghost use Rattle.receiver_core.specs.Receivers.{IsSettled, heard_count};
ghost use Rattle.listeners.specs.AiredCycles.{AreFitting};
ghost use Rattle.listeners.specs.Listeners.{hears, hears_one};
ghost use Rattle.listeners.specs.Private.Sleeping.{listening};

use crate::listener::Listener;
use air_base::{Form, NoMemory};
use air_sender::{Source, encode_source};
use bucket_codec::decode;
use chunk_program::Program;
use receiver_core::Receiver;
use std::alloc::Global;

/// How many slots from a slot on don't carry the wanted item, up to the next that does, or to the end of the cycle.
fn wait_from(program: &Program, slot: u32, wanted: Option<u16>) -> u32
    requires slot { slot < length (slots_of program.now.disks) }
    requires item { IfSome wanted (λ i. i < length (all_items program.now.disks)) }
    ensures within { slot + result ≤ length (slots_of program.now.disks) }
    ensures few { slot + result ≤ MOST_SLOTS }
    ensures other { (j : ℕ) → j < result → IfSome wanted (λ i. slot_item (slots_of program.now.disks) (slot + j) ≢ Some i) }
{
    let left = program.slots() - slot;
    match wanted {
        None => left,
        Some(item) => program.next_wake(slot, item).min(left),
    }
}

/// A settled receiver sleeps through the slots of a cycle from this one on, up to the next wanted one, or to the end: the slot that is next.
pub(crate) fn sleep<S: Source>(
    receiver: &mut Receiver,
    program: &Program,
    source: &S,
    form: Form,
    slot: u32,
) -> u32
    requires settled { IsSettled receiver.old }
    requires slot { slot < length (slots_of program.now.disks) }
    requires counts { heard_count receiver.old.state.counts + (length (slots_of program.now.disks) - slot) < 2 ^ 64 }
    requires items { length (all_items program.now.disks) ≡ receiver.old.air.items }
    requires fitting { AreFitting receiver.old.air form program.now.edition (slots_of program.now.disks) (S.board source.now) }
    ensures next { (slot ≤ result) × (result ≤ length (slots_of program.now.disks)) }
    ensures settled { IsSettled receiver.new }
    ensures air { receiver.new.air ≡ receiver.old.air }
    ensures reader { receiver.new.reader ≡ receiver.old.reader }
    ensures counts { heard_count receiver.new.state.counts ≡ heard_count receiver.old.state.counts + (result - slot) }
    ensures slept { (n : ℕ) (L : List SessionLine) → listening n receiver.new L
        ≡ hears (map (λ s. Some (bucket_on form program.now.edition (slots_of program.now.disks) (S.board source.now) s)) (range_with_len slot (result - slot))) (listening n receiver.old L) }
{
    let wait = wait_from(program, slot, receiver.wanted());
    if wait == 0 {
        return slot;
    }
    receiver.doze(u64::from(wait), source.its_cycle());
    slot + wait
}

/// A settled receiver hears the bucket of a slot.
pub(crate) fn hear_slot<S: Source>(
    receiver: &mut Receiver,
    program: &Program,
    source: &S,
    form: Form,
    slot: u32,
    buf: &mut [u8],
)
    requires settled { IsSettled receiver.old }
    requires counts { heard_count receiver.old.state.counts + 1 < 2 ^ 64 }
    requires slot { slot < length (slots_of program.now.disks) }
    requires version { (form.version ≡ 1) ⊎ (form.version ≡ 2) }
    requires few { length (S.board source.now).values ≤ most_count form.version }
    requires started { 1 ≤ (S.board source.now).cycle }
    requires below { EntriesBelow (S.board source.now) }
    requires allowed { S.airs form.policy }
    requires items { length (all_items program.now.disks) ≡ length (S.board source.now).values }
    requires room { HEAD_BYTES + entry_len form.version * length (S.board source.now).values ≤ length buf.old }
    ensures air { receiver.new.air ≡ receiver.old.air }
    ensures reader { receiver.new.reader ≡ receiver.old.reader }
    ensures heard { (n : ℕ) (L : List SessionLine) → listening n receiver.new L
        ≡ hears_one (Some (bucket_on form program.now.edition (slots_of program.now.disks) (S.board source.now) slot)) (listening n receiver.old L) }
    ensures buffer { length buf.new ≡ length buf.old }
{
    let _slots = program.slots();
    let len = encode_source(program, source, form, slot, buf);
    receiver.hear(&decode(&buf[..len]));
}

/// Lets a listener hear what a source airs in its cycle by a program.
fn hear_cycle<S: Source>(
    alloc: Global,
    listener: &mut Listener,
    program: &Program,
    source: &S,
    form: Form,
    buf: &mut [u8],
) -> Result<(), NoMemory>
    requires counts { heard_count listener.old.state.counts + length (slots_of program.now.disks) < 2 ^ 64 }
    requires fitting { AreFitting listener.old.air form program.now.edition (slots_of program.now.disks) (S.board source.now) }
    requires own { length (all_items program.now.disks) ≡ listener.old.air.items }
    requires version { (form.version ≡ 1) ⊎ (form.version ≡ 2) }
    requires few { length (S.board source.now).values ≤ most_count form.version }
    requires started { 1 ≤ (S.board source.now).cycle }
    requires below { EntriesBelow (S.board source.now) }
    requires allowed { S.airs form.policy }
    requires items { length (all_items program.now.disks) ≡ length (S.board source.now).values }
    requires room { HEAD_BYTES + entry_len form.version * length (S.board source.now).values ≤ length buf.old }
    ensures heard { OnOk result (listener.new ≡ hears (map (λ s. Some (bucket_on form program.now.edition (slots_of program.now.disks) (S.board source.now) s)) (range_with_len 0 (length (slots_of program.now.disks)))) listener.old) }
    ensures buffer { length buf.new ≡ length buf.old }
{
    let mut slot = 0u32;
    while slot < program.slots() {
        slot = listener.hear_stretch(alloc, program, source, form, slot, buf)?;
    }
    Ok(())
}

/// Lets all hear what a source airs in its cycle by a program, one reader after another, and gives them back. If memory runs out, they are
/// dropped. The buffer has room for a bucket's bytes.
pub(crate) fn all_hear_cycle<S: Source>(
    alloc: Global,
    listeners: Vec<Listener>,
    program: &Program,
    source: &S,
    form: Form,
    buf: &mut [u8],
) -> Result<Vec<Listener>, NoMemory>
    requires counts { All (λ l. heard_count l.state.counts + length (slots_of program.now.disks) < 2 ^ 64) listeners.items }
    requires fitting { All (λ l. AreFitting l.air form program.now.edition (slots_of program.now.disks) (S.board source.now)) listeners.items }
    requires own { All (λ l. length (all_items program.now.disks) ≡ l.air.items) listeners.items }
    requires version { (form.version ≡ 1) ⊎ (form.version ≡ 2) }
    requires few { length (S.board source.now).values ≤ most_count form.version }
    requires started { 1 ≤ (S.board source.now).cycle }
    requires below { EntriesBelow (S.board source.now) }
    requires allowed { S.airs form.policy }
    requires items { length (all_items program.now.disks) ≡ length (S.board source.now).values }
    requires room { HEAD_BYTES + entry_len form.version * length (S.board source.now).values ≤ length buf.old }
    ensures heard { IfOk result (λ ls. ls.items ≡ map (hears (map (λ s. Some (bucket_on form program.now.edition (slots_of program.now.disks) (S.board source.now) s)) (range_with_len 0 (length (slots_of program.now.disks))))) listeners.items) }
    ensures buffer { length buf.new ≡ length buf.old }
{
    let mut listeners = listeners;
    for listener in listeners.iter_mut() {
        hear_cycle(alloc, listener, program, source, form, buf)?;
    }
    Ok(listeners)
}
