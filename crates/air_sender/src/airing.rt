//! Airing one cycle of a program from a board, or from a board by groups.
//!
//! Each slot's bucket is written into the buffer and sent through the mast; no call takes memory. The buckets sent are the board's, and so those of
//! the history of which the board is.

ghost use Rattle.std.specs.Prelude.{◌≡◌, ◌⊎◌, ℕ, ◌<◌, ◌≤◌, ◌+◌, ◌*◌, List, [], ◌∷◌, length, IfErr, OnOk};
ghost use Rattle.air_base.specs.declared.verdicts.Policy.TheVariants.{FMatrix};
ghost use Rattle.air_base.specs.declared.limits.TheConstants.{MOST_FULL_ITEMS, MOST_ITEMS, MOST_SLOTS};
ghost use Rattle.air_history.specs.declared.histories.Event.{Event};
ghost use Rattle.air_model.specs.Disks.{all_items};
ghost use Rattle.air_model.specs.Programs.{program as slots_of};
ghost use Rattle.air_model.specs.Buckets.{entry_len};
ghost use Rattle.air_model.specs.Aired.{Air};
ghost use Rattle.air_devices.specs.Masts.{Changes, with_buckets};
ghost use Rattle.chunk_program.specs.Editions.{HaveItems, planned_slots};
ghost use Rattle.air_sender.specs.BoardBuckets.{EntriesBelow, IsLastBoard, board_bytes, last_bytes, spread};
ghost use Rattle.air_sender.specs.AirFaults.{IsAirAnswer, SendsUpToFault};
ghost use Rattle.air_sender.specs.TapeSizes.{cycle_size, tape_size};

use crate::slots::air_source;
use air_base::Form;
use air_devices::Mast;
use bucket_codec::entry_size;
use bucket_codec::offsets::{ENTRY_BYTES, HEAD_BYTES, LENGTH_BYTES};
use chunk_program::{Plans, Program};
use control_matrix::Board;
use group_matrix::GroupBoard;

/// The bytes of a slot's record before its entries.
const RECORD_HEAD: u64 = (LENGTH_BYTES + HEAD_BYTES) as u64;

/// Why a cycle wasn't aired whole.
#[derive(Clone, Copy, Debug, PartialEq, Eq)]
pub enum AirFault {
    /// The mast failed at the send of this slot. Just before it the buckets of the slots before had been sent, and the mast's count of failures was
    /// still as at first. The failure was then counted, and what the mast tells stayed.
    Mast { slot: u32 },
}

/// Sends the bucket of each slot in order for the board's cycle. `Board::new` and `Board::apply` tell whose board it is: if the last event was a
/// start, its cycle has started, and by `below_law` of `board_laws` its entries are below it. `Plans::in_force` lends the program of a cycle. No call
/// tests that this is the board's cycle. The program has the deck's items, as many as `Board::new` got values. `Board::n` is the number of entries
/// that the buffer needs room for; `entry_size` is the size of one in bytes.
pub fn air_cycle<M: Mast>(
    program: &Program,
    board: &Board,
    form: Form,
    mast: &mut M,
    buf: &mut [u8],
) -> Result<(), AirFault>
    requires started { 1 ≤ board.now.cycle }
    requires below { EntriesBelow board.now }
    requires items { length (all_items program.now.disks) ≡ length board.now.values }
    requires version { (form.version ≡ 1) ⊎ (form.version ≡ 2) }
    requires few { form.version ≡ 1 → length board.now.values ≤ MOST_FULL_ITEMS }
    requires room { HEAD_BYTES + entry_len form.version * length board.now.values ≤ length buf.old }
    ensures aired { OnOk result (Changes (with_buckets (board_bytes form program.now.edition (slots_of program.now.disks) board.now)) (M.state mast.old).told (M.state mast.new).told) }
    ensures history { (values : List ℕ) (air : Air) (G : List Event) → IsLastBoard values air G form program.now.edition (slots_of program.now.disks) board.now →
        SendsUpToFault (last_bytes values air G) result (M.state mast.old).told (M.state mast.new).told }
    ensures calm { OnOk result ((M.state mast.new).faults ≡ (M.state mast.old).faults) }
    ensures fault { IfErr result (IsAirAnswer M.state (board_bytes form program.now.edition (slots_of program.now.disks) board.now) mast.old mast.new) }
    ensures port { (M.state mast.new).port ≡ (M.state mast.old).port }
    ensures buffer { length buf.new ≡ length buf.old }
{
    air_source(program, board, form, mast, buf)
}

/// Sends the bucket of each slot in order for the cycle of a board by groups, as `air_cycle` does for that of a board. `GroupBoard::fill` tells of
/// which board it is, and by `groups_below_law` of `board_laws` its entries are below its cycle, if that board's last event was a start.
pub fn air_group_cycle<M: Mast>(
    program: &Program,
    groups: &GroupBoard,
    form: Form,
    mast: &mut M,
    buf: &mut [u8],
) -> Result<(), AirFault>
    requires started { 1 ≤ (spread groups.now).cycle }
    requires below { EntriesBelow (spread groups.now) }
    requires columns { form.policy ≡ FMatrix }
    requires items { length (all_items program.now.disks) ≡ length (spread groups.now).values }
    requires version { (form.version ≡ 1) ⊎ (form.version ≡ 2) }
    requires few { form.version ≡ 1 → length (spread groups.now).values ≤ MOST_FULL_ITEMS }
    requires room { HEAD_BYTES + entry_len form.version * length (spread groups.now).values ≤ length buf.old }
    ensures aired { OnOk result (Changes (with_buckets (board_bytes form program.now.edition (slots_of program.now.disks) (spread groups.now))) (M.state mast.old).told (M.state mast.new).told) }
    ensures history { (values : List ℕ) (air : Air) (G : List Event) → IsLastBoard values air G form program.now.edition (slots_of program.now.disks) (spread groups.now) →
        SendsUpToFault (last_bytes values air G) result (M.state mast.old).told (M.state mast.new).told }
    ensures calm { OnOk result ((M.state mast.new).faults ≡ (M.state mast.old).faults) }
    ensures fault { IfErr result (IsAirAnswer M.state (board_bytes form program.now.edition (slots_of program.now.disks) (spread groups.now)) mast.old mast.new) }
    ensures port { (M.state mast.new).port ≡ (M.state mast.old).port }
    ensures buffer { length buf.new ≡ length buf.old }
{
    air_source(program, groups, form, mast, buf)
}

/// The exact length in bytes of the tape of the first `cycles` cycles in this form, if each edition has n items.
pub fn tape_bytes(plans: &Plans, n: u16, cycles: u32, form: Form) -> u64
    requires items { HaveItems n plans.now.programs }
    requires version { (form.version ≡ 1) ⊎ (form.version ≡ 2) }
    ensures { result ≡ tape_size form.version n (planned_slots plans.now) cycles }
{
    let mut bytes = 0u64;
    let mut done = 0u32;
    for edition in 0..plans.editions() {
        let end = plans.cycles_up_to(edition, cycles);
        bytes += u64::from(end - done) * cycle_len(plans.program(edition), n, form.version);
        done = end;
    }
    bytes
}

/// The length in bytes of the records of one cycle of a program with n items in this version.
pub fn cycle_len(program: &Program, n: u16, version: u8) -> u64
    requires { length (all_items program.now.disks) ≡ n }
    ensures len { result ≡ cycle_size version n (slots_of program.now.disks) }
    ensures some { 1 ≤ result }
    ensures few { result ≤ (LENGTH_BYTES + HEAD_BYTES + ENTRY_BYTES * MOST_ITEMS) * MOST_SLOTS }
{
    program.shows_well_made();
    let entries = (entry_size(version) * usize::from(n)) as u64;
    let mut len = 0;
    for slot in 0..program.slots() {
        len += match program.slot_item(slot) {
            None => RECORD_HEAD,
            Some(_) => RECORD_HEAD + entries,
        };
    }
    len
}
