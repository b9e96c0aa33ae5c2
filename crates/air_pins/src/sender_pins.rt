//! These pins of `air_sender` say what a cycle of four slots sends, to any mast and to one that collects a tape.
//!
//! The program's slots carry the items 0, 1, 0 and none, and from a replan on the items 0 and 1; the board is in cycle 2.
#![tactic(auto, unfolding(air_model::specs::Disks::all_items, air_model::specs::Programs::least_common_multiple, air_model::specs::Programs::num_minors, air_model::specs::Programs::num_chunks, air_model::specs::Programs::chunk_len, air_model::specs::Programs::chunk, air_model::specs::Programs::minor_cycle, air_model::specs::Programs::program, air_model::specs::Tapes::record_bytes, air_model::specs::Tapes::tape_of, air_sender::specs::BoardBuckets::body_on, air_sender::specs::BoardBuckets::bucket_on, air_model::specs::Buckets::capped_body, air_model::specs::Buckets::capped_entries, air_history::specs::Ages::capped))]

ghost use Rattle.std.specs.Prelude.{◌∷◌, ◌≡◌, ◌<◌, ◌≤◌, [], codes, length, take, Some, None, IsErr, IfErr, IfOk, OnOk};
ghost use Rattle.air_devices.specs.Masts.{fresh_mast};
ghost use Rattle.air_sender.specs.AirFaults.{failed_slot};
ghost use Rattle.air_sender.specs.TapeMasts.{tape_mast_state};
ghost use Rattle.air_pins.specs.SmallPrograms.{idle_slot, in_edition, two_slots};
ghost use Rattle.air_pins.specs.SmallAirings.{two_item_board, two_item_groups, lone_item_groups, four_buckets, group_buckets, sent};

use air_base::{Form, NoMemory, Policy};
use air_devices::{Failed, Mast};
use air_sender::{AirFault, TapeMast, air_cycle, air_group_cycle, groups_of, tape_bytes};
use chunk_program::{Planned, Plans, Program};
use control_matrix::Board;
use group_matrix::GroupBoard;
use std::alloc::Global;

/// Control columns, with their entries in full.
const COLUMNS: Form = Form {
    policy: Policy::FMatrix,
    version: 1,
};

/// Control columns, with the ages of their entries.
const AGES: Form = Form {
    policy: Policy::FMatrix,
    version: 2,
};

/// If no send failed, the mast got the bucket of each slot, idle ones too, once and with its number; each has the board's
/// cycle, and its item's own value and column. It also refuses idle slots that are skipped, a slot that is sent twice, slots
/// that are counted from one, the cycle before, the value of another item, and that a failed send is ignored.
/// Promise: the conductor airs the history
pub fn column_of_another_item(
    program: &Program,
    board: &Board,
    mast: &mut TapeMast,
    buf: &mut [u8],
) -> Result<(), AirFault>
    requires program { program.now ≡ in_edition 0 idle_slot }
    requires board { board.now ≡ two_item_board }
    requires mast { tape_mast_state mast.old ≡ fresh_mast }
    requires room { 32 ≤ length buf.old }
    ensures { OnOk result (tape_mast_state mast.new ≡ record { told = Some (sent (four_buckets 1 0)); faults = 0; port = None }) }
{
    air_cycle(program, board, COLUMNS, mast, buf)
}

/// By groups of two items each has the column of both, which is greater than item 0's own.
/// Promise: a cycle is aired by groups
pub fn own_column_whatever_the_groups(
    program: &Program,
    groups: &GroupBoard,
    mast: &mut TapeMast,
    buf: &mut [u8],
) -> Result<(), AirFault>
    requires program { program.now ≡ in_edition 0 idle_slot }
    requires groups { groups.now ≡ two_item_groups }
    requires mast { tape_mast_state mast.old ≡ fresh_mast }
    requires room { 32 ≤ length buf.old }
    ensures { OnOk result (tape_mast_state mast.new ≡ record { told = Some (sent group_buckets); faults = 0; port = None }) }
{
    air_group_cycle(program, groups, COLUMNS, mast, buf)
}

/// With groups of one item each has its own column: item 1 isn't aired with that of the first group.
/// Promise: a cycle is aired by groups
pub fn first_group_aired_for_all(
    program: &Program,
    groups: &GroupBoard,
    mast: &mut TapeMast,
    buf: &mut [u8],
) -> Result<(), AirFault>
    requires program { program.now ≡ in_edition 0 idle_slot }
    requires groups { groups.now ≡ lone_item_groups }
    requires mast { tape_mast_state mast.old ≡ fresh_mast }
    requires room { 32 ≤ length buf.old }
    ensures { OnOk result (tape_mast_state mast.new ≡ record { told = Some (sent (four_buckets 1 0)); faults = 0; port = None }) }
{
    air_group_cycle(program, groups, COLUMNS, mast, buf)
}

/// A deck without groups has no board by groups.
/// Promise: a cycle is aired by groups
pub fn groups_if_the_deck_has_none(
    alloc: Global,
    planned: &Planned,
) -> Result<Option<GroupBoard>, NoMemory>
    requires { planned.now.settings.group ≡ 0 }
    ensures { IfOk result (λ groups. groups ≡ None) }
{
    groups_of(alloc, planned)
}

/// In the form of version 2 the buckets are of version 2, also from a buffer that has no room for those of version 1.
/// Promise: the conductor airs the history
pub fn version_1_whatever_the_form(
    program: &Program,
    board: &Board,
    mast: &mut TapeMast,
    buf: &mut [u8],
) -> Result<(), AirFault>
    requires program { program.now ≡ in_edition 0 idle_slot }
    requires board { board.now ≡ two_item_board }
    requires mast { tape_mast_state mast.old ≡ fresh_mast }
    requires room { 26 ≤ length buf.old }
    ensures { OnOk result (tape_mast_state mast.new ≡ record { told = Some (sent (four_buckets 2 0)); faults = 0; port = None }) }
{
    air_cycle(program, board, AGES, mast, buf)
}

/// After a fault there is a state of the mast directly before the send of the named slot: the buckets of the slots before had
/// been sent, and no call had failed. Since then the count went up, and what the mast tells is unchanged. If a slot was sent
/// again, there is no such state.
/// Promise: a refusal leaves its objects
pub fn next_slot_blamed_after_a_second_try<M: Mast>(
    program: &Program,
    board: &Board,
    mast: &mut M,
    buf: &mut [u8],
) -> Result<(), AirFault>
    requires program { program.now ≡ in_edition 0 idle_slot }
    requires board { board.now ≡ two_item_board }
    requires mast { M.state mast.old ≡ fresh_mast }
    requires room { 32 ≤ length buf.old }
    ensures within { IfErr result (λ fault. failed_slot fault < 4) }
    ensures fault { IfErr result (λ fault. (just_before : M) × (M.state just_before ≡ record { told = Some (sent (take (failed_slot fault) (four_buckets 1 0))); faults = 0; port = None }) ×
        (0 < (M.state mast.new).faults) × ((M.state mast.new).told ≡ (M.state just_before).told)) }
{
    air_cycle(program, board, COLUMNS, mast, buf)
}

/// Each bucket has the program's edition.
/// Promise: the conductor airs the history
pub fn edition_0_in_every_bucket(
    program: &Program,
    board: &Board,
    mast: &mut TapeMast,
    buf: &mut [u8],
) -> Result<(), AirFault>
    requires program { program.now ≡ in_edition 1 idle_slot }
    requires board { board.now ≡ two_item_board }
    requires mast { tape_mast_state mast.old ≡ fresh_mast }
    requires room { 32 ≤ length buf.old }
    ensures { OnOk result (tape_mast_state mast.new ≡ record { told = Some (sent (four_buckets 1 1)); faults = 0; port = None }) }
{
    air_cycle(program, board, COLUMNS, mast, buf)
}

/// A record includes the bytes of its length: 36 bytes with an item, 28 without one.
/// Promise: buckets and tapes are their grammar
pub fn record_size_without_its_length(plans: &Plans) -> u64
    requires replans { plans.now.replans ≡ [] }
    requires programs { plans.now.programs ≡ in_edition 0 idle_slot ∷ [] }
    ensures { result ≡ 408 }
{
    tape_bytes(plans, 2, 3, COLUMNS)
}

/// In version 2 an entry takes one byte: a record with an item has 30 bytes.
/// Promise: buckets and tapes are their grammar
pub fn four_bytes_for_an_age(plans: &Plans) -> u64
    requires replans { plans.now.replans ≡ [] }
    requires programs { plans.now.programs ≡ in_edition 0 idle_slot ∷ [] }
    ensures { result ≡ 354 }
{
    tape_bytes(plans, 2, 3, AGES)
}

/// A cycle has the records of the edition in force: the first has 136 bytes, the two after the replan have 72 each.
/// Promise: buckets and tapes are their grammar
pub fn length_by_the_first_edition_alone(plans: &Plans) -> u64
    requires replans { plans.now.replans ≡ 2 ∷ [] }
    requires programs { plans.now.programs ≡ in_edition 0 idle_slot ∷ in_edition 1 two_slots ∷ [] }
    ensures { result ≡ 280 }
{
    tape_bytes(plans, 2, 3, COLUMNS)
}

/// A replan after the cycles that are aired doesn't change the length.
/// Promise: buckets and tapes are their grammar
pub fn length_with_a_replan_that_no_cycle_reaches(plans: &Plans) -> u64
    requires replans { plans.now.replans ≡ 4 ∷ [] }
    requires programs { plans.now.programs ≡ in_edition 0 idle_slot ∷ in_edition 1 two_slots ∷ [] }
    ensures { result ≡ 408 }
{
    tape_bytes(plans, 2, 3, COLUMNS)
}

/// A bucket whose record has no room is refused.
/// Promise: buckets and tapes are their grammar
pub fn send_past_the_room_passes(mast: &mut TapeMast, bytes: &[u8]) -> Result<(), Failed>
    requires mast { mast.old.tape ≡ record { records = []; room = 10 } }
    requires bytes { bytes.now ≡ codes "seventh" }
    ensures { IsErr result }
{
    mast.send(bytes)
}
