//! Masts, and a tape in a room of fixed size.
//!
//! `mast` takes a room and the calls that fail, `room` only a room. `send` and `add` take the text that is sent or added.

use crate::broken::BrokenSystem;
use crate::shelves::{add_done, add_text};
use air_base::NoMemory;
use air_base::limits::MOST_DATAGRAM_BYTES;
use air_devices::{Failed, Mast, MemMast, NetFailure, TapeRoom, UdpMast};
use case_lines::{BadCase, Parts, add_hex, add_line};
use std::alloc::Global;

/// A mast in memory.
pub fn new_mast(alloc: Global, parts: &mut Parts<'_>) -> Result<MemMast, NoMemory> {
    let room = parts.number() as usize;
    MemMast::new(alloc, room, parts.numbers(alloc)?)
}

/// Sends the text, or the end if there is none, and adds whether it was done.
pub fn send(
    alloc: Global,
    mast: &mut MemMast,
    parts: &mut Parts<'_>,
    came: &mut Vec<u8>,
) -> Result<(), NoMemory> {
    let bytes = parts.text(alloc)?;
    if bytes.len() > MOST_DATAGRAM_BYTES {
        parts.refuse(BadCase::NoCall);
        return Ok(());
    }
    if bytes.is_empty() {
        add_done(mast.finish(), came)
    } else {
        add_done(mast.send(&bytes), came)
    }
}

/// Adds the tape of what was sent, and whether the end was sent.
pub fn add_sent(mast: &MemMast, came: &mut Vec<u8>) -> Result<(), NoMemory> {
    came.extend_from_slice(b"tape ")?;
    add_hex(mast.sent(), came)?;
    came.extend_from_slice(if mast.ended() {
        b"\nended"
    } else {
        b"\nnot ended"
    })?;
    Ok(())
}

/// Adds a record to the tape, whether there was room for it, and the tape with the number of its records.
pub fn add_record(
    alloc: Global,
    tape: &mut TapeRoom,
    parts: &mut Parts<'_>,
    came: &mut Vec<u8>,
) -> Result<(), NoMemory> {
    let bytes = parts.text(alloc)?;
    if bytes.len() > MOST_DATAGRAM_BYTES {
        parts.refuse(BadCase::NoCall);
        return Ok(());
    }
    let is_taken = tape.add(&bytes);
    add_text(if is_taken { b"taken" } else { b"left out" }, came)?;
    add_line(b"records", &[tape.count() as u64], came)?;
    came.extend_from_slice(b"tape ")?;
    add_hex(tape.as_slice(), came)
}

/// Adds `done` if the call didn't fail, and what the given failure says.
pub fn add_said(
    alloc: Global,
    answer: Result<(), Failed>,
    failure: Option<&NetFailure>,
    came: &mut Vec<u8>,
) -> Result<(), NoMemory> {
    if answer.is_ok() {
        came.extend_from_slice(b"done ")?;
    }
    if let Some(failure) = failure {
        add_line(failure.to_string(alloc)?.as_bytes(), &[], came)?;
    }
    Ok(())
}

/// Adds what a mast over a failing system says of each of its calls.
pub fn send_broken(alloc: Global, came: &mut Vec<u8>) -> Result<(), NoMemory> {
    let mut mast = UdpMast::new(BrokenSystem);
    let ended = mast.finish();
    add_said(alloc, ended, mast.last_failure(), came)?;
    let aimed = mast.aim(4000);
    add_said(alloc, aimed, mast.last_failure(), came)?;
    let sent = mast.send(b"a");
    add_said(alloc, sent, mast.last_failure(), came)
}
