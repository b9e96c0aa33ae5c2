//! A closed station's history once more, event by event on a core: the station must have answered what the core answers.
ghost use Rattle.std.specs.Prelude.{◌≡◌, ◌<◌, ◌≤◌, ◌+◌, length};

use crate::workers::StartAnswer;
use air_base::NoMemory;
use air_history::{Event, History};
use std::alloc::Global;
use update_commit::{Core, Receipt};

/// Whether the receipt at this place says exactly this.
pub fn says(
    receipts: &[Receipt],
    place: usize,
    number: u64,
    cycle: u32,
    read: &[u64],
    written: &[u64],
) -> bool {
    match receipts.get(place) {
        Some(receipt) => {
            receipt.number == number
                && receipt.cycle == cycle
                && receipt.read.as_slice() == read
                && receipt.written.as_slice() == written
        }
        None => false,
    }
}

/// An event: the start of a cycle, or a commit with its updater and number.
#[derive(Clone, Copy, PartialEq, Eq)]
pub enum Mark {
    Start,
    Commit(u32, u32),
}

/// The mark of an event.
fn mark_of(event: &Event) -> Mark {
    match event {
        Event::Start => Mark::Start,
        Event::Commit { by, seq, .. } => Mark::Commit(*by, *seq),
    }
}

/// Whether the start at this place gave exactly this number and these events.
pub fn gives(starts: &[StartAnswer], place: usize, number: u32, marks: &[Mark]) -> bool {
    let Some(started) = starts.get(place) else {
        return false;
    };
    for (event, mark) in started.events.iter().zip(marks) {
        if mark_of(event) != *mark {
            return false;
        }
    }
    started.number == number && started.events.len() == marks.len()
}

/// Whether both lists have the same events.
fn are_equal(events: &[Event], others: &[Event]) -> bool {
    for (one, other) in events.iter().zip(others) {
        if mark_of(one) != mark_of(other)
            || one.reads() != other.reads()
            || one.writes() != other.writes()
        {
            return false;
        }
    }
    events.len() == others.len()
}

/// Adds the event to a core of two updaters; whether the station answered the same.
#[tactic(auto, using(crate::proofs::Counts::few_made, crate::proofs::Counts::few_starts))]
fn is_replayed(
    alloc: Global,
    core: &mut Core,
    items: u16,
    event: &Event,
    receipts: &[&Vec<Receipt>; 2],
    starts: &[StartAnswer],
) -> Result<bool, NoMemory>
    requires core { (core.old.updaters ≡ 2) × (length core.old.values ≡ items) × (length core.old.events < 1000000) }
    ensures core { (core.new.updaters ≡ 2) × (length core.new.values ≡ items) × (length core.new.events ≤ length core.old.events + 1) }
{
    core.reserve(1)?;
    let Event::Commit { by, seq, update } = event else {
        let mut since = Vec::new(alloc);
        core.since_start(alloc, &mut since)?;
        since.push(Event::Start)?;
        let before = core.cycle();
        let number = core.start();
        return Ok(match starts.get(before as usize) {
            Some(given) => given.number == number && are_equal(&given.events, &since),
            None => false,
        });
    };
    if *by >= 2 || !update.fits(items) {
        return Ok(false);
    }
    let mut own = Receipt::room(alloc, update)?;
    core.commit(*by, update.copy(alloc)?, &mut own);
    let (read, written) = (own.read.as_slice(), own.written.as_slice());
    let told = receipts[*by as usize];
    Ok(says(told, *seq as usize, own.number, own.cycle, read, written))
}

/// Replays the history on a core of these values and two updaters. The answer is the first two values at the end, or the first place at which the
/// station answered otherwise.
pub fn replay(
    alloc: Global,
    history: &History,
    first: &[u64],
    receipts: [&Vec<Receipt>; 2],
    starts: &[StartAnswer],
) -> Result<Result<[u64; 2], usize>, NoMemory> {
    if first.len() < 2 || first.len() > 1000 {
        return Ok(Err(0));
    }
    let mut core = Core::new(alloc, first, 2)?;
    for (place, event) in history.events().iter().enumerate() {
        if place >= 100000
            || !is_replayed(
                alloc,
                &mut core,
                first.len() as u16,
                event,
                &receipts,
                starts,
            )?
        {
            return Ok(Err(place));
        }
    }
    Ok(Ok([core.value(0), core.value(1)]))
}
