//! Cases of a core: the answer to each event of a history, and what the core then has.
//!
//! The core has a number of updaters. An event that it can't have is answered with `not a call`.

ghost use Rattle.std.specs.Prelude.{◌≡◌, ◌+◌, ◌<◌, ◌≤◌, length};

use air_base::limits::{MOST_EVENTS, MOST_UPDATERS, MOST_VALUES};
use air_base::{NoMemory, write_u64};
use air_history::{Event, History};
use case_lines::{BadCase, Parts, add_line};
use std::alloc::Global;
use update_commit::{Core, Receipt};

/// Adds the event to the core, and adds the answer.
#[tactic(auto, using(crate::proofs::Starts::few_made, crate::proofs::Starts::few_starts))]
fn add_event(
    alloc: Global,
    core: &mut Core,
    updaters: u32,
    items: u16,
    event: &Event,
    came: &mut Vec<u8>,
) -> Result<(), NoMemory>
    requires core { (core.old.updaters ≡ updaters) × (length core.old.values ≡ items) × (length core.old.events < 1000000) }
    ensures core { (core.new.updaters ≡ updaters) × (length core.new.values ≡ items) × (length core.new.events ≤ length core.old.events + 1) }
{
    core.reserve(1)?;
    let Event::Commit { by, update, .. } = event else {
        return add_line(b"start", &[u64::from(core.start())], came);
    };
    if *by >= updaters || !update.fits(items) {
        return add_line(b"not a call", &[], came);
    }
    let mut receipt = Receipt::room(alloc, update)?;
    core.commit(*by, update.copy(alloc)?, &mut receipt);
    add_line(b"commit", &[receipt.number, u64::from(receipt.cycle)], came)?;
    add_line(b"read", receipt.read.as_slice(), came)?;
    add_line(b"wrote", receipt.written.as_slice(), came)
}

/// Adds the events since the last start, each commit with its updater and that updater's number for it.
fn add_fresh(alloc: Global, core: &Core, out: &mut Vec<u8>) -> Result<(), NoMemory> {
    let mut events = Vec::new(alloc);
    core.since_start(alloc, &mut events)?;
    for event in &events {
        match event {
            Event::Start => add_line(b"since: start", &[], out)?,
            Event::Commit { by, seq, .. } => {
                add_line(b"since: commit", &[u64::from(*by), u64::from(*seq)], out)?;
            }
        }
    }
    Ok(())
}

/// Adds the cycle and the values.
fn add_state(core: &Core, items: u16, out: &mut Vec<u8>) -> Result<(), NoMemory>
    requires core { length core.now.values ≡ items }
{
    add_line(b"cycle", &[u64::from(core.cycle())], out)?;
    out.extend_from_slice(b"values")?;
    for item in 0..items {
        out.push(b' ')?;
        write_u64(core.value(item), out)?;
    }
    out.push(b'\n')?;
    Ok(())
}

/// The answers of a core of a number of updaters to the history's events, and what it has after them.
pub fn tell_core(
    alloc: Global,
    history: &History,
    first: &[u64],
    parts: &mut Parts<'_>,
    came: &mut Vec<u8>,
) -> Result<(), NoMemory> {
    let updaters = parts.narrow();
    if first.len() > MOST_VALUES || updaters > MOST_UPDATERS as u32 {
        parts.refuse(BadCase::NoCall);
        return Ok(());
    }
    let mut core = Core::new(alloc, first, updaters)?;
    for (place, event) in history.events().iter().enumerate() {
        if place >= MOST_EVENTS {
            parts.refuse(BadCase::NoCall);
            return Ok(());
        }
        add_event(alloc, &mut core, updaters, first.len() as u16, event, came)?;
    }
    add_state(&core, first.len() as u16, came)?;
    add_fresh(alloc, &core, came)?;
    add_line(b"events", &[core.into_history().len()], came)
}
