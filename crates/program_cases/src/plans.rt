//! Cases of cuts and programs: where each item is, and what the slots of a cycle carry.
//!
//! `plan` and `cut` add all that the program and the cut of an edition say. `wait` takes a slot and an item, and asks how far off the item is.
//! `in-force` takes a cycle, and asks for its edition.

ghost use Rattle.std.specs.Prelude.{◌≡◌, ◌≤◌, ◌<◌, length};
ghost use Rattle.air_model.specs.Decks.{count_editions, disks_in};
ghost use Rattle.air_model.specs.Disks.{all_items};
ghost use Rattle.air_model.specs.Programs.{program as slots_of};

use air_base::limits::MOST_ITEMS;
use air_base::{NoMemory, write_u64};
use case_lines::{Parts, add_line};
use chunk_program::{Cut, PlanFault, Planned, Program, cut, disk_count, disk_freq};
use item_catalog::Deck;
use std::alloc::Global;

/// Adds the text of the fault.
pub fn tell_fault(alloc: Global, fault: &PlanFault, came: &mut Vec<u8>) -> Result<(), NoMemory> {
    add_line(fault.to_string(alloc)?.as_bytes(), &[], came)
}

/// Adds for each disk its frequency, the number of its chunks and their length.
#[tactic(auto, using(chunk_program::proofs::CutLemmas::length_disks_in))]
fn add_disks(planned: &Planned, edition: u32, out: &mut Vec<u8>) -> Result<(), NoMemory>
    requires { edition < count_editions planned.now }
{
    let deck = planned.deck();
    let program = planned.program(edition);
    for disk in 0..disk_count(deck, edition) {
        let numbers = [
            u64::from(disk),
            u64::from(disk_freq(deck, edition, disk)),
            u64::from(program.chunks(disk)),
            u64::from(program.chunk_len(disk)),
        ];
        add_line(b"disk", &numbers, out)?;
    }
    Ok(())
}

/// Adds the items of the slots, a line for each minor cycle.
fn add_slots(program: &Program, out: &mut Vec<u8>) -> Result<(), NoMemory> {
    let len = program.minor_len().max(1);
    for slot in 0..program.slots() {
        if slot % len == 0 {
            out.extend_from_slice(b"\nminor ")?;
            write_u64(u64::from(slot / len), out)?;
            out.push(b':')?;
        }
        out.push(b' ')?;
        match program.slot_item(slot) {
            Some(item) => write_u64(u64::from(item), out)?,
            None => out.push(b'-')?,
        }
    }
    out.push(b'\n')?;
    Ok(())
}

/// The rate of an item; 0 if there is no such item.
fn rate_of(deck: &Deck, item: u16) -> u32
    ensures { result ≤ 1000000 }
{
    if item < deck.items() {
        deck.rate(item)
    } else {
        0
    }
}

/// Adds for each item its disk, the number of its slots and the gap between them, its first slot, and its PIX number at its rate.
fn add_items(deck: &Deck, program: &Program, cut: &Cut, out: &mut Vec<u8>) -> Result<(), NoMemory>
    requires cut { cut.now ≡ program.now.disks }
    requires items { length (all_items program.now.disks) ≡ length deck.now.items }
    requires some { 1 ≤ length (slots_of program.now.disks) }
{
    for item in 0..deck.items() {
        let numbers = [
            u64::from(item),
            u64::from(program.disk_of(item)),
            u64::from(program.times(item)),
            u64::from(program.gap(item)),
            u64::from(program.next_wake(0, item)),
            program.pix(item, rate_of(deck, item)),
        ];
        add_line(b"item", &numbers, out)?;
    }
    Ok(())
}

/// The plan: slots, minor cycles and their length, the disks, the slots of each minor cycle, and the items.
fn tell_plan(planned: &Planned, edition: u32, cut: &Cut, came: &mut Vec<u8>) -> Result<(), NoMemory>
    requires edition { edition < count_editions planned.now }
    requires cut { cut.now ≡ disks_in planned.now edition }
{
    let program = planned.program(edition);
    let numbers = [
        u64::from(program.slots()),
        u64::from(program.minors()),
        u64::from(program.minor_len()),
    ];
    add_line(b"program", &numbers, came)?;
    add_disks(planned, edition, came)?;
    add_slots(program, came)?;
    add_items(planned.deck(), program, cut, came)
}

/// The order of the items, and for each its disk and its place there.
fn tell_cut(cut: &Cut, came: &mut Vec<u8>) -> Result<(), NoMemory> {
    for item in cut.order() {
        add_line(b"next", &[u64::from(*item)], came)?;
    }
    add_homes(cut, came)
}

/// Adds for each item its disk and its place there.
fn add_homes(cut: &Cut, came: &mut Vec<u8>) -> Result<(), NoMemory> {
    for item in 0..cut.order().len().min(MOST_ITEMS) as u16 {
        let numbers = [
            u64::from(item),
            u64::from(cut.disk_of(item)),
            u64::from(cut.place_of(item)),
        ];
        add_line(b"item", &numbers, came)?;
    }
    Ok(())
}

/// The number of slots from a slot to the next one of an item.
fn tell_wait(
    program: &Program,
    cut: &Cut,
    parts: &mut Parts<'_>,
    came: &mut Vec<u8>,
) -> Result<(), NoMemory>
    requires { cut.now ≡ program.now.disks }
{
    let slot = parts.number();
    let item = parts.number();
    if slot >= u64::from(program.slots()) || item >= cut.order().len().min(MOST_ITEMS) as u64 {
        return add_line(b"not a call", &[], came);
    }
    let wait = program.next_wake(slot as u32, item as u16);
    add_line(b"wait", &[u64::from(wait)], came)
}

/// Answers a question about an edition of the deck: its slots, its plan, its cut, or a wait.
pub fn tell_edition(
    alloc: Global,
    planned: &Planned,
    edition: u32,
    word: &[u8],
    parts: &mut Parts<'_>,
    came: &mut Vec<u8>,
) -> Result<(), NoMemory> {
    if edition > planned.deck().replans() {
        return add_line(b"no such edition", &[], came);
    }
    let program = planned.program(edition);
    let cut = cut(alloc, planned.deck(), edition)?;
    match word {
        b"slots" => add_line(b"slots", &[u64::from(program.slots())], came),
        b"plan" => tell_plan(planned, edition, &cut, came),
        b"cut" => tell_cut(&cut, came),
        _ => tell_wait(program, &cut, parts, came),
    }
}

/// The edition of a cycle.
pub fn tell_in_force(
    planned: &Planned,
    parts: &mut Parts<'_>,
    came: &mut Vec<u8>,
) -> Result<(), NoMemory> {
    let edition = planned.plans().edition_at(parts.narrow());
    add_line(b"edition", &[u64::from(edition)], came)
}
