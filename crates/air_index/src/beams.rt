//! Writing an indexed tape: the buckets of a plain one as data records, with an index record ahead of those of each minor cycle.
//!
//! A tape can be written piece by piece, some cycles at a time. What an index counts depends on the plans alone, so a piece asks
//! nothing of the next one.

ghost use Rattle.std.specs.Prelude.{◌≡◌, ◌<◌, ◌≤◌, ◌+◌, ◌^◌, ◌++◌, None, OnErr, OnOk, drop, length, take};
ghost use Rattle.air_model.specs.Programs.{minor_len, num_minors};
ghost use Rattle.air_model.specs.Tapes.{tape_of, tape_read};
ghost use Rattle.chunk_program.specs.Editions.{HaveItems, planned_slots};
ghost use Rattle.air_index.specs.IndexedTapes.{AreBuckets, IsTapeIfLow, indexed_piece, indexed_tape, records_at_marks, records_from, slots_after};
ghost use Rattle.air_index.specs.OnAir.{marks_at};
ghost use Rattle.air_index.specs.Private.Beaming.{slot_records};

use crate::writing::{put_data, put_index};
use air_base::NoMemory;
use bucket_codec::TapeReader;
use chunk_program::Plans;

/// Puts the data records of the slots of a minor cycle at the end.
fn put_slots(slots: u32, buckets: &mut TapeReader<'_>, out: &mut Vec<u8>) -> Result<(), NoMemory>
    requires whole { buckets.old.cut ≡ None }
    requires enough { slots ≤ length buckets.old.records }
    requires grammar { AreBuckets buckets.old.records }
    ensures written { OnOk result (out.new.items ≡ out.old.items ++ tape_of (slot_records slots buckets.old.records)) }
    ensures left { OnOk result (buckets.new.records ≡ drop slots buckets.old.records) }
    ensures whole { OnOk result (buckets.new.cut ≡ None) }
    ensures begun { take (length out.old.items) out.new.items ≡ out.old.items }
{
    for slot in 0..slots {
        match buckets.next_whole() {
            Some(bucket) => put_data(slots - slot, bucket, out)?,
            None => unreachable!(),
        }
    }
    Ok(())
}

/// Puts the records of a cycle at the end.
fn put_cycle(
    plans: &Plans,
    n: u16,
    cycle: u64,
    buckets: &mut TapeReader<'_>,
    out: &mut Vec<u8>,
) -> Result<(), NoMemory>
    requires items { HaveItems n plans.now.programs }
    requires last { cycle ≤ 2 ^ 33 }
    requires whole { buckets.old.cut ≡ None }
    requires enough { length (planned_slots plans.now cycle) ≤ length buckets.old.records }
    requires grammar { AreBuckets buckets.old.records }
    ensures written { OnOk result (out.new.items ≡ out.old.items ++ tape_of (records_at_marks plans.now n cycle 0 (marks_at plans.now cycle) buckets.old.records)) }
    ensures left { OnOk result (buckets.new.records ≡ drop (length (planned_slots plans.now cycle)) buckets.old.records) }
    ensures whole { OnOk result (buckets.new.cut ≡ None) }
    ensures begun { take (length out.old.items) out.new.items ≡ out.old.items }
{
    let program = plans.in_force_by(cycle);
    let next = plans.in_force_by(cycle + 1);
    let _slots = program.slots();
    let _next_slots = next.slots();
    for minor in 0..program.minors() {
        put_index(program, next, n, cycle, minor, out)?;
        put_slots(program.minor_len(), buckets, out)?;
    }
    Ok(())
}

/// Puts the records of the cycles after the first ones at the end.
fn put_cycles(
    plans: &Plans,
    n: u16,
    first: u64,
    cycles: u64,
    tape: &[u8],
    out: &mut Vec<u8>,
) -> Result<(), NoMemory>
    requires items { HaveItems n plans.now.programs }
    requires last { first + cycles ≤ 2 ^ 33 }
    requires whole { (tape_read tape.now).cut ≡ None }
    requires counted { length (tape_read tape.now).records ≡ slots_after plans.now first cycles }
    requires grammar { AreBuckets (tape_read tape.now).records }
    ensures written { OnOk result (out.new.items ≡ out.old.items ++ indexed_piece plans.now n first cycles (tape_read tape.now).records) }
    ensures begun { take (length out.old.items) out.new.items ≡ out.old.items }
{
    let mut buckets = TapeReader::new(tape);
    for done in 0..cycles {
        put_cycle(plans, n, first + done + 1, &mut buckets, out)?;
    }
    Ok(())
}

/// Puts the indexed tape of the cycles after the first ones at the end, from the plain tape of their buckets. Pieces written so one after
/// another are the whole tape (`pieces_law`). `n` is the number of items of each edition. If the last cycle is 2^32, its index has the lowest
/// four bytes of that number, 0, and is no index.
pub fn beam_piece(
    plans: &Plans,
    n: u16,
    first: u32,
    cycles: u32,
    tape: &[u8],
    out: &mut Vec<u8>,
) -> Result<(), NoMemory>
    requires items { HaveItems n plans.now.programs }
    requires whole { (tape_read tape.now).cut ≡ None }
    requires counted { length (tape_read tape.now).records ≡ slots_after plans.now first cycles }
    requires grammar { AreBuckets (tape_read tape.now).records }
    ensures written { OnOk result (out.new.items ≡ out.old.items ++ indexed_piece plans.now n first cycles (tape_read tape.now).records) }
    ensures indexed { IsTapeIfLow plans.now n first cycles (tape_read tape.now).records }
    ensures kept { OnErr result (out.new.items ≡ out.old.items) }
{
    let before = out.len();
    let put = put_cycles(plans, n, u64::from(first), u64::from(cycles), tape, out);
    if put.is_err() {
        out.truncate(before);
    }
    put
}

/// Puts the indexed tape of the first cycles at the end, from the plain tape of their buckets.
pub fn beam_tape(
    plans: &Plans,
    n: u16,
    cycles: u32,
    tape: &[u8],
    out: &mut Vec<u8>,
) -> Result<(), NoMemory>
    requires items { HaveItems n plans.now.programs }
    requires whole { (tape_read tape.now).cut ≡ None }
    requires counted { length (tape_read tape.now).records ≡ slots_after plans.now 0 cycles }
    requires grammar { AreBuckets (tape_read tape.now).records }
    ensures written { OnOk result (out.new.items ≡ out.old.items ++ indexed_tape plans.now n cycles (tape_read tape.now).records) }
    ensures indexed { IsTapeIfLow plans.now n 0 cycles (tape_read tape.now).records }
    ensures kept { OnErr result (out.new.items ≡ out.old.items) }
{
    beam_piece(plans, n, 0, cycles, tape, out)
}
