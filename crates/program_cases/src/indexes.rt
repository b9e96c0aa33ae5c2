//! Cases of indexed tapes: a cycle that the mast has is indexed, and items are sought on what is kept of the tape.
//!
//! `index` takes the number of cycles before that one, and puts its records at the end of the kept tape. The transcript has these records.

ghost use Rattle.std.specs.Prelude.{◌≡◌, ◌≤◌, ◌+◌, None, IfSome, IsTrue, length};
ghost use Rattle.air_index.specs.IndexedTapes.{AreBuckets, slots_after};
ghost use Rattle.air_model.specs.Tapes.{tape_read};

use crate::tapes::add_records;
use air_base::NoMemory;
use air_index::{Sought, beam_bytes, beam_piece, beam_tape, seek};
use air_sender::own_form;
use bucket_codec::{TapeFault, TapeReader, check_tape, decode};
use case_lines::{Parts, add_line};
use chunk_program::{Planned, Plans};

/// How many records a tape has, if it is whole and each of them is a bucket.
fn count_buckets(tape: &[u8]) -> Option<u64>
    ensures whole { IfSome result (λ _. (tape_read tape.now).cut ≡ None) }
    ensures counted { IfSome result (λ count. length (tape_read tape.now).records ≡ count) }
    ensures grammar { IfSome result (λ _. AreBuckets (tape_read tape.now).records) }
{
    if check_tape(tape).is_err() {
        return None;
    }
    let mut records = TapeReader::new(tape);
    let mut count = 0u64;
    while let Some(bytes) = records.next_whole() {
        let Ok(_bucket) = decode(bytes) else {
            return None;
        };
        count = count.checked_add(1)?;
    }
    Some(count)
}

/// Whether a tape has a bucket for each slot of the cycle after the first ones, and no more.
fn fits_cycle(plans: &Plans, first: u32, tape: &[u8]) -> bool
    ensures whole { IsTrue result → (tape_read tape.now).cut ≡ None }
    ensures counted { IsTrue result → length (tape_read tape.now).records ≡ slots_after plans.now first 1 }
    ensures grammar { IsTrue result → AreBuckets (tape_read tape.now).records }
{
    let program = plans.in_force_by(u64::from(first) + 1);
    let slots = u64::from(program.slots());
    match count_buckets(tape) {
        Some(count) => count == slots,
        None => false,
    }
}

/// Puts the records of the cycle after the first ones at the end of the kept tape, and returns whether the tape fits that cycle.
fn index(
    planned: &Planned,
    n: u16,
    first: u32,
    tape: &[u8],
    kept: &mut Vec<u8>,
) -> Result<bool, NoMemory>
    requires { length planned.now.items ≡ n }
    ensures begun { length kept.old.items ≤ length kept.new.items }
{
    let plans = planned.plans();
    if !fits_cycle(plans, first, tape) {
        return Ok(false);
    }
    if first == 0 {
        beam_tape(plans, n, 1, tape, kept)?;
    } else {
        beam_piece(plans, n, first, 1, tape, kept)?;
    }
    Ok(true)
}

/// Indexes the cycle after the first ones, and adds the records that it has on the kept tape.
pub fn tell_index(
    planned: &Planned,
    parts: &mut Parts<'_>,
    tape: &[u8],
    kept: &mut Vec<u8>,
    came: &mut Vec<u8>,
) -> Result<(), NoMemory> {
    let first = parts.narrow();
    let before = kept.len();
    if !index(planned, planned.deck().items(), first, tape, kept)? {
        return add_line(b"not this cycle", &[], came);
    }
    add_records(&kept[before..], came)
}

/// Adds the number of bytes of the indexed tape of a number of cycles.
pub fn tell_indexed_length(
    planned: &Planned,
    parts: &mut Parts<'_>,
    came: &mut Vec<u8>,
) -> Result<(), NoMemory> {
    let cycles = parts.narrow();
    let n = planned.deck().items();
    let bytes = beam_bytes(planned.plans(), n, cycles, own_form(planned));
    add_line(b"bytes", &[bytes], came)
}

/// Seeks an item on the kept tape from a record on, and adds what came of it: how many records were opened, and of a found one the place, the
/// cycle and the value.
pub fn tell_seek(parts: &mut Parts<'_>, kept: &[u8], came: &mut Vec<u8>) -> Result<(), NoMemory> {
    let item = parts.small();
    let from = parts.narrow();
    match seek(kept, item, from) {
        Ok(
            Sought::Found {
                opens,
                place,
                cycle,
                value,
            },
        ) => {
            let numbers = [u64::from(opens), place, u64::from(cycle), value];
            add_line(b"found", &numbers, came)
        }
        Ok(Sought::Lost { opens }) => add_line(b"lost", &[u64::from(opens)], came),
        Err(TapeFault::Cut { at }) => add_line(b"cut at", &[at], came),
    }
}
