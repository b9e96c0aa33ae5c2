//! Cases of a sender: the cycle of a board on a mast, and the calls of the mast that gathers a tape.
//!
//! `air` and `memory` take the letter of a policy, and the number of bytes that the buffer has after the longest bucket; the transcript also has what
//! these bytes are then. `memory` airs on a new mast, and takes its room and the call that fails.

ghost use Rattle.std.specs.Prelude.{◌≡◌, ◌⊎◌, ℕ, ◌<◌, ◌≤◌, ◌+◌, ◌*◌, length};
ghost use Rattle.air_base.specs.declared.limits.TheConstants.{MOST_FULL_ITEMS, MOST_GROUP};
ghost use Rattle.air_base.specs.declared.verdicts.Policy.TheVariants.{FMatrix};
ghost use Rattle.air_model.specs.Buckets.{entry_len};
ghost use Rattle.air_model.specs.Disks.{all_items};
ghost use Rattle.air_sender.specs.BoardBuckets.{EntriesBelow, spread};
ghost use Rattle.bucket_codec.specs.declared.offsets.TheConstants.{HEAD_BYTES};
ghost use Rattle.group_matrix.specs.GroupBoards.{grouped};

use crate::tapes::add_records;
use air_base::limits::MOST_DATAGRAM_BYTES;
use air_base::{Form, NoMemory, Policy};
use air_devices::{Failed, Mast, MemMast};
use air_sender::{
    AirFault, TapeMast, air_cycle, air_group_cycle, bucket_room, own_form, tape_bytes,
};
use case_lines::{BadCase, Parts, add_hex_words, add_line};
use chunk_program::{Planned, Program};
use control_matrix::Board;
use group_matrix::GroupBoard;
use std::alloc::Global;

/// Airs the board's cycle by groups of this number of items.
fn air_by_groups<M: Mast>(
    alloc: Global,
    program: &Program,
    board: &Board,
    group: u16,
    form: Form,
    mast: &mut M,
    buf: &mut [u8],
) -> Result<Result<(), AirFault>, NoMemory>
    requires started { 1 ≤ board.now.cycle }
    requires below { (g : ℕ) → 0 < g → EntriesBelow (spread (grouped g board.now)) }
    requires some_group { 1 ≤ group }
    requires few_group { group ≤ MOST_GROUP }
    requires columns { form.policy ≡ FMatrix }
    requires items { length (all_items program.now.disks) ≡ length board.now.values }
    requires version { (form.version ≡ 1) ⊎ (form.version ≡ 2) }
    requires few { form.version ≡ 1 → length board.now.values ≤ MOST_FULL_ITEMS }
    requires room { HEAD_BYTES + entry_len form.version * length board.now.values ≤ length buf.old }
    ensures { length buf.new ≡ length buf.old }
{
    let mut groups = GroupBoard::new(alloc, board.n(), group)?;
    groups.fill(board);
    Ok(air_group_cycle(program, &groups, form, mast, buf))
}

/// The number of items of a group under a policy: only F-Matrix has groups.
fn group_under(policy: Policy, group: u16) -> u16
    ensures most { result ≤ group }
    ensures columns { 1 ≤ result → policy ≡ FMatrix }
{
    match policy {
        Policy::FMatrix => group,
        Policy::Datacycle | Policy::RMatrix => 0,
    }
}

/// Airs the board's cycle, by groups if a group has items.
fn air_in_groups<M: Mast>(
    alloc: Global,
    program: &Program,
    board: &Board,
    group: u16,
    form: Form,
    mast: &mut M,
    buf: &mut [u8],
) -> Result<Result<(), AirFault>, NoMemory>
    requires started { 1 ≤ board.now.cycle }
    requires below { EntriesBelow board.now }
    requires groups_below { (g : ℕ) → 0 < g → EntriesBelow (spread (grouped g board.now)) }
    requires few_group { group ≤ MOST_GROUP }
    requires columns { 1 ≤ group → form.policy ≡ FMatrix }
    requires items { length (all_items program.now.disks) ≡ length board.now.values }
    requires version { (form.version ≡ 1) ⊎ (form.version ≡ 2) }
    requires few { form.version ≡ 1 → length board.now.values ≤ MOST_FULL_ITEMS }
    requires room { HEAD_BYTES + entry_len form.version * length board.now.values ≤ length buf.old }
    ensures { length buf.new ≡ length buf.old }
{
    if group == 0 {
        return Ok(air_cycle(program, board, form, mast, buf));
    }
    air_by_groups(alloc, program, board, group, form, mast, buf)
}

/// Airs the board's cycle on the mast, under F-Matrix by the deck's groups, from a buffer with this many bytes after the longest bucket. Adds the answer, and what these bytes are then.
fn air<M: Mast>(
    alloc: Global,
    planned: &Planned,
    board: &Board,
    policy: Policy,
    after: u8,
    mast: &mut M,
    came: &mut Vec<u8>,
) -> Result<(), NoMemory>
    requires started { 1 ≤ board.now.cycle }
    requires below { EntriesBelow board.now }
    requires groups_below { (g : ℕ) → 0 < g → EntriesBelow (spread (grouped g board.now)) }
    requires items { length planned.now.items ≡ length board.now.values }
{
    planned.shows_planned();
    let version = own_form(planned).version;
    let form = Form { policy, version };
    let long = bucket_room(planned);
    let mut buf = vec![in alloc; 0xeeu8; long + usize::from(after)]?;
    let program = planned.plans().in_force(board.cycle());
    let group = group_under(policy, planned.deck().settings().group);
    let answer = air_in_groups(alloc, program, board, group, form, mast, &mut buf)?;
    match answer {
        Ok(()) => add_line(b"aired", &[], came)?,
        Err(AirFault::Mast { slot }) => add_line(b"failed at slot", &[u64::from(slot)], came)?,
    }
    came.extend_from_slice(b"after the longest bucket")?;
    add_hex_words(&buf[long..], came)?;
    came.push(b'\n')?;
    Ok(())
}

/// Answers a question about what is aired: the number of bytes of a number of cycles, or the board's cycle on a mast.
pub fn tell_aired(
    alloc: Global,
    planned: &Planned,
    board: &Board,
    word: &[u8],
    parts: &mut Parts<'_>,
    mast: &mut TapeMast,
    came: &mut Vec<u8>,
) -> Result<(), NoMemory>
    requires started { 1 ≤ board.now.cycle }
    requires below { EntriesBelow board.now }
    requires groups_below { (g : ℕ) → 0 < g → EntriesBelow (spread (grouped g board.now)) }
    requires items { length planned.now.items ≡ length board.now.values }
{
    if word == b"length".as_slice() {
        let cycles = parts.narrow();
        let bytes = tape_bytes(planned.plans(), board.n(), cycles, own_form(planned));
        return add_line(b"bytes", &[bytes], came);
    }
    let policy = parts.policy();
    let after = parts.byte();
    if word == b"air".as_slice() {
        return air(alloc, planned, board, policy, after, mast, came);
    }
    let room = parts.number();
    let fail = parts.numbers(alloc)?;
    let mut memory = MemMast::new(alloc, room as usize, fail)?;
    air(alloc, planned, board, policy, after, &mut memory, came)?;
    add_records(memory.sent(), came)
}

/// Calls the mast that gathers a tape, and adds the answer.
pub fn tell_call(
    alloc: Global,
    mast: &mut TapeMast,
    word: &[u8],
    parts: &mut Parts<'_>,
    came: &mut Vec<u8>,
) -> Result<(), NoMemory> {
    let answer = match word {
        b"aim" => mast.aim(parts.small()),
        b"send" => {
            let bytes = parts.text(alloc)?;
            if bytes.len() > MOST_DATAGRAM_BYTES {
                parts.refuse(BadCase::NoCall);
                return Ok(());
            }
            mast.send(&bytes)
        }
        _ => mast.finish(),
    };
    match answer {
        Ok(()) => add_line(b"done", &[], came),
        Err(Failed) => add_line(b"failed", &[], came),
    }
}
