//! Cases that ask a deck for its parts: each answer is one or more lines, and `missing` if the deck has no such part.
//!
//! `counts`, `replans` and `settings` ask for all at once. `item`, `disk`, `replan`, `updates`, `reader` and `event` take a number. `update` takes
//! the number of an updater and that of its update, and `query` that of a reader and that of its query.

ghost use Rattle.std.specs.Prelude.{◌<◌, length};

use air_base::{NoMemory, Policy};
use air_history::Update;
use case_lines::{BadCase, Parts, add_items, add_line, add_writes};
use item_catalog::Deck;

/// The two numbers after a word; 0 for each that is missing.
pub fn question(word: &[u8], parts: &mut Parts<'_>) -> (u64, u64) {
    match word {
        b"counts" | b"replans" | b"settings" => (0, 0),
        b"item" | b"disk" | b"replan" | b"updates" | b"reader" | b"event" => (parts.number(), 0),
        b"update" | b"query" => (parts.number(), parts.number()),
        _ => {
            parts.refuse(BadCase::NoSuchWord);
            (0, 0)
        }
    }
}

/// Answers a question about the deck.
pub fn answer(
    deck: &Deck,
    word: &[u8],
    question: (u64, u64),
    came: &mut Vec<u8>,
) -> Result<(), NoMemory> {
    let (first, second) = question;
    deck.shows_well_made();
    match word {
        b"counts" => add_counts(deck, came),
        b"item" if first < u64::from(deck.items()) => add_item(deck, first as u16, came),
        b"disk" if first < u64::from(deck.disks()) => add_disk(deck, first as u32, came),
        b"replans" => add_line(b"replans", &[u64::from(deck.replans())], came),
        b"replan" if first < u64::from(deck.replans()) => add_replan(deck, first as u32, came),
        b"updates" if first < u64::from(deck.updaters()) => {
            add_line(b"updates", &[deck.updates(first as u32).len() as u64], came)
        }
        b"update" if first < u64::from(deck.updaters()) => {
            add_update(deck.updates(first as u32), second, came)
        }
        b"reader" if first < u64::from(deck.readers()) => add_reader(deck, first as u32, came),
        b"query" if first < u64::from(deck.readers()) => {
            add_query(deck, first as u32, second, came)
        }
        b"event" if first < u64::from(deck.script_len()) => add_event(deck, first as u32, came),
        b"settings" => add_settings(deck, came),
        _ => add_line(b"missing", &[], came),
    }
}

/// Adds the number of each part.
fn add_counts(deck: &Deck, came: &mut Vec<u8>) -> Result<(), NoMemory> {
    add_line(b"items", &[u64::from(deck.items())], came)?;
    add_line(b"disks", &[u64::from(deck.disks())], came)?;
    add_line(b"updaters", &[u64::from(deck.updaters())], came)?;
    add_line(b"readers", &[u64::from(deck.readers())], came)?;
    add_line(b"script", &[u64::from(deck.script_len())], came)?;
    add_line(b"starts", &[u64::from(deck.script_starts())], came)
}

/// Adds an item's value and rate.
fn add_item(deck: &Deck, i: u16, came: &mut Vec<u8>) -> Result<(), NoMemory>
    requires { i < length deck.now.items }
{
    add_line(b"value", &[deck.value(i)], came)?;
    add_line(b"rate", &[u64::from(deck.rate(i))], came)
}

/// Adds a disk's size and frequency.
fn add_disk(deck: &Deck, d: u32, came: &mut Vec<u8>) -> Result<(), NoMemory>
    requires { d < length deck.now.disks }
{
    add_line(b"size", &[u64::from(deck.size(d))], came)?;
    add_line(b"freq", &[u64::from(deck.freq(d))], came)
}

/// Adds a replan's cycle, and the size and the frequency of each of its disks.
fn add_replan(deck: &Deck, k: u32, came: &mut Vec<u8>) -> Result<(), NoMemory>
    requires { k < length deck.now.replans }
{
    let replan = deck.replan(k);
    add_line(b"cycle", &[u64::from(replan.cycle())], came)?;
    for d in 0..replan.disks() {
        let numbers = [u64::from(replan.size(d)), u64::from(replan.freq(d))];
        add_line(b"disk", &numbers, came)?;
    }
    Ok(())
}

/// Adds a reader's plan, and the number of its queries.
fn add_reader(deck: &Deck, r: u32, came: &mut Vec<u8>) -> Result<(), NoMemory>
    requires { r < length deck.now.readers }
{
    let plan = deck.reader(r);
    add_line(b"room", &[u64::from(plan.room)], came)?;
    add_line(b"age", &[u64::from(plan.age)], came)?;
    add_line(b"tries", &[u64::from(plan.tries)], came)?;
    add_line(b"queries", &[u64::from(deck.queries(r))], came)
}

/// Adds the items of a reader's query.
fn add_query(deck: &Deck, r: u32, q: u64, came: &mut Vec<u8>) -> Result<(), NoMemory>
    requires { r < length deck.now.readers }
{
    if q >= u64::from(deck.queries(r)) {
        return add_line(b"missing", &[], came);
    }
    came.extend_from_slice(b"asks")?;
    add_items(deck.query(r, q as u32), came)
}

/// Adds the reads and the writes of one of an updater's updates.
fn add_update(updates: &[Update], seq: u64, came: &mut Vec<u8>) -> Result<(), NoMemory> {
    if seq >= updates.len() as u64 {
        return add_line(b"missing", &[], came);
    }
    let update = &updates[seq as usize];
    came.extend_from_slice(b"reads")?;
    add_items(update.reads(), came)?;
    came.extend_from_slice(b"\nwrites")?;
    add_writes(update.writes(), came)
}

/// Adds a part of the script.
fn add_event(deck: &Deck, k: u32, came: &mut Vec<u8>) -> Result<(), NoMemory>
    requires { k < length deck.now.script }
{
    match deck.script(k) {
        Some(by) => add_line(b"commit", &[u64::from(by)], came),
        None => add_line(b"start", &[], came),
    }
}

/// Adds each setting.
fn add_settings(deck: &Deck, came: &mut Vec<u8>) -> Result<(), NoMemory> {
    let settings = deck.settings();
    let policy = match settings.policy {
        Policy::FMatrix => b"policy F",
        Policy::Datacycle => b"policy D",
        Policy::RMatrix => b"policy R",
    };
    add_line(policy, &[], came)?;
    add_line(b"cycles", &[u64::from(settings.cycles)], came)?;
    add_line(b"seed", &[settings.seed], came)?;
    add_line(b"loss", &[u64::from(settings.loss)], came)?;
    add_line(b"again", &[u64::from(settings.again)], came)?;
    add_line(b"late", &[u64::from(settings.late)], came)?;
    add_line(b"monitors", &[u64::from(settings.monitors)], came)?;
    add_line(b"hears", &[u64::from(settings.hears)], came)?;
    add_line(b"version", &[u64::from(settings.version)], came)?;
    add_line(b"group", &[u64::from(settings.group)], came)
}
