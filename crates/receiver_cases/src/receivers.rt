//! Receivers of a deck's text, and their calls.
//!
//! `hear` takes the bytes of a bucket in hexadecimal digits; the other calls have no parts. The result of a step is one line; that of an abort or an
//! aged attempt is two.

use air_base::limits::MOST_DECK_BYTES;
use air_base::{NoMemory, Verdict, VerdictKind};
use case_lines::{BadCase, Parts, add_line};
use chunk_program::{PlanFault, Plans};
use item_catalog::{DeckError, read_deck};
use receiver_core::{Fed, Receiver, Step};
use std::alloc::Global;

/// The text's receiver of a number.
pub fn new_receiver(
    alloc: Global,
    text: &[u8],
    parts: &mut Parts<'_>,
    came: &mut Vec<u8>,
) -> Result<Option<Receiver>, NoMemory> {
    let number = parts.narrow();
    if text.len() > MOST_DECK_BYTES {
        parts.refuse(BadCase::NoCall);
        return Ok(None);
    }
    let deck = match read_deck(alloc, text) {
        Ok(deck) => deck,
        Err(DeckError::NoMemory) => return Err(NoMemory),
        Err(DeckError::Fault(_)) => {
            add_line(b"no deck", &[], came)?;
            return Ok(None);
        }
    };
    let plans = match Plans::plan(alloc, &deck) {
        Ok(plans) => plans,
        Err(PlanFault::NoMemory) => return Err(NoMemory),
        Err(PlanFault::TooLong { .. }) => {
            add_line(b"no program", &[], came)?;
            return Ok(None);
        }
    };
    if number >= deck.readers() {
        add_line(b"no reader", &[], came)?;
        return Ok(None);
    }
    Ok(Some(Receiver::new(alloc, &deck, number, &plans)?))
}

/// Adds the verdict.
fn add_verdict(verdict: &Verdict, came: &mut Vec<u8>) -> Result<(), NoMemory> {
    let query = u64::from(verdict.query);
    let attempt = u64::from(verdict.attempt);
    match verdict.kind {
        VerdictKind::Accept => add_line(b"accepts query, at attempt", &[query, attempt], came),
        VerdictKind::Unfinished => add_line(b"ends query, attempt", &[query, attempt], came),
        VerdictKind::Abort { item, cycle, clash } => {
            add_line(b"aborts query, attempt", &[query, attempt], came)?;
            let numbers = [u64::from(item), u64::from(cycle), u64::from(clash)];
            add_line(b"by item, cycle, clash", &numbers, came)
        }
        VerdictKind::Aged { item, cycle } => {
            add_line(b"ages query, attempt", &[query, attempt], came)?;
            let numbers = [u64::from(item), u64::from(cycle)];
            add_line(b"by item, cycle", &numbers, came)
        }
    }
}

/// Adds the result of a step.
fn add_step(step: &Step, came: &mut Vec<u8>) -> Result<(), NoMemory> {
    match step {
        Step::Verdict(verdict) => add_verdict(verdict, came),
        Step::Waiting => add_line(b"waits", &[], came),
        Step::Done => add_line(b"done", &[], came),
    }
}

/// Hears the bytes and makes a step, if the receiver is settled and its counts are small.
fn hear(
    alloc: Global,
    receiver: &mut Receiver,
    parts: &mut Parts<'_>,
    came: &mut Vec<u8>,
) -> Result<(), NoMemory> {
    let bytes = parts.bytes(alloc)?;
    let counts = receiver.counts();
    let few = counts.opened < 99
        && counts.dozed < 99
        && counts.late < 99
        && counts.refused < 99
        && counts.foreign < 99;
    if !few || !receiver.settled() {
        parts.refuse(BadCase::NoCall);
        return Ok(());
    }
    match receiver.feed(&bytes) {
        Fed::Refused(fault) => {
            let text = format!(in alloc; "refused: {fault}\n")?;
            came.extend_from_slice(text.as_bytes())?;
        }
        Fed::Foreign => add_line(b"foreign", &[], came)?,
        Fed::Dozed => add_line(b"dozed", &[], came)?,
        Fed::Late => add_line(b"late", &[], came)?,
        Fed::Opened => add_line(b"opened", &[], came)?,
    }
    add_step(&receiver.step(), came)
}

/// Adds the reads of the last verdict.
fn add_reads(receiver: &Receiver, came: &mut Vec<u8>) -> Result<(), NoMemory> {
    for read in receiver.last_reads() {
        let numbers = [u64::from(read.item), u64::from(read.cycle), read.value];
        add_line(b"item, cycle, value", &numbers, came)?;
    }
    Ok(())
}

/// Adds what the receiver has counted.
fn add_counts(receiver: &Receiver, came: &mut Vec<u8>) -> Result<(), NoMemory> {
    let counts = receiver.counts();
    let heard = [counts.opened, counts.dozed, counts.late];
    add_line(b"opened, dozed, late", &heard, came)?;
    let others = [counts.refused, counts.foreign, counts.copied];
    add_line(b"refused, foreign, copied", &others, came)
}

/// A call of the receiver.
pub fn call(
    alloc: Global,
    receiver: &mut Receiver,
    word: &[u8],
    parts: &mut Parts<'_>,
    came: &mut Vec<u8>,
) -> Result<(), NoMemory> {
    match word {
        b"hear" => hear(alloc, receiver, parts, came)?,
        b"step" => add_step(&receiver.step(), came)?,
        b"reads" => add_reads(receiver, came)?,
        b"wanted" => match receiver.wanted() {
            Some(item) => add_line(b"item", &[u64::from(item)], came)?,
            None => add_line(b"none", &[], came)?,
        },
        b"end" if receiver.settled() => match receiver.end() {
            Some(verdict) => add_verdict(&verdict, came)?,
            None => add_line(b"none", &[], came)?,
        },
        b"counts" => add_counts(receiver, came)?,
        _ => parts.refuse(BadCase::NoCall),
    }
    Ok(())
}
