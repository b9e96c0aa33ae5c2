//! Ears. The buffer has room for three bytes, so that longer buckets are cut.
//!
//! `ear` takes the number of times that the ear hears, the calls that fail, and the buckets that wait.

ghost use Rattle.std.specs.Prelude.{◌≤◌, length, All, IfOk, IsSome};

use crate::broken::BrokenSystem;
use crate::masts::add_said;
use crate::shelves::{add_done, add_text};
use air_base::NoMemory;
use air_devices::{Ear, Heard, MemEar, UdpEar};
use case_lines::{Parts, first_part};
use std::alloc::Global;

/// The buckets that the remaining parts spell.
fn buckets(alloc: Global, parts: &mut Parts<'_>) -> Result<Vec<Vec<u8>>, NoMemory>
    ensures { IfOk result (λ all. All (λ bytes. 1 ≤ length bytes.items) all.items) }
{
    let mut all = Vec::new(alloc);
    for _ in 0..parts.left() {
        if parts.left() > 0 {
            let bucket = parts.next();
            if !bucket.is_empty() {
                all.push(Vec::from_slice(alloc, bucket)?)?;
            }
        }
    }
    Ok(all)
}

/// The numbers of calls, separated by commas, or `-`.
fn calls(alloc: Global, parts: &mut Parts<'_>) -> Result<Vec<u64>, NoMemory> {
    let mut all = Vec::new(alloc);
    let mut rest = if parts.takes(b"-") { &[] } else { parts.next() };
    for _ in 0..rest.len() {
        if !rest.is_empty() {
            let (call, more) = first_part(rest, b',');
            all.push(parts.number_of(call))?;
            rest = more;
        }
    }
    Ok(all)
}

/// Hears once, and adds what was heard.
fn hear_once<E: Ear>(ear: &mut E, came: &mut Vec<u8>) -> Result<(), NoMemory>
    requires { IsSome (E.state ear.old).port }
    ensures { IsSome (E.state ear.new).port }
{
    let mut buf = [0; 3];
    match ear.hear(&mut buf) {
        Ok(Heard::Bucket(len)) => {
            came.extend_from_slice(b"bucket ")?;
            add_text(&buf[..len], came)
        }
        Ok(Heard::Over) => add_text(b"over", came),
        Err(_) => add_text(b"failed", came),
    }
}

/// An ear in memory is tuned in and hears.
pub fn play_ear(alloc: Global, parts: &mut Parts<'_>, came: &mut Vec<u8>) -> Result<(), NoMemory> {
    let times = parts.number();
    let fail = calls(alloc, parts)?;
    let mut ear = MemEar::new(buckets(alloc, parts)?, fail);
    add_done(ear.tune_in(4000), came)?;
    for _ in 0..times {
        hear_once(&mut ear, came)?;
    }
    Ok(())
}

/// Adds what an ear over a failing system says of each of its calls.
pub fn hear_broken(alloc: Global, came: &mut Vec<u8>) -> Result<(), NoMemory> {
    let mut ear = UdpEar::new(BrokenSystem);
    let tuned = ear.tune_in(4000);
    add_said(alloc, tuned, ear.last_failure(), came)?;
    let heard = ear.hear(&mut [0; 3]).map(|_| ());
    add_said(alloc, heard, ear.last_failure(), came)
}
