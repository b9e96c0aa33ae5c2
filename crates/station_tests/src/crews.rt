//! A conductor and two updaters on a station, side by side, and the end, when their passes come back.
ghost use Rattle.std.specs.Prelude.{◌≡◌, ℕ, ◌<◌, length, Contains, IfOk, IfSome, IsTrue};
ghost use Rattle.std.specs.Thread.{IsSync};
ghost use Rattle.station.specs.PassStates.{numbers_of, with_seen};
ghost use Rattle.station_tests.specs.Workers.{FitsStation};

use crate::replays::replay;
use crate::workers::{Conductor, Worker};
use air_base::NoMemory;
use item_catalog::{Deck, read_deck};
use station::{Station, UpdaterPass};
use std::alloc::Global;
use std::sync::Wait;
use std::test::Fail;
use std::thread::{Threads, join_mut};

/// The worker of a pass, with the first update of its updater, or `None` if the deck has none that fits.
fn hire(
    alloc: Global,
    station: &Station,
    deck: &Deck,
    pass: UpdaterPass,
) -> Result<Option<Worker>, NoMemory>
    requires own { (pass.station ≡ station.now) × (length pass.values ≡ length deck.now.items) }
    ensures ready { IfOk result (λ w. IfSome w (λ w. FitsStation station.now w.pass w.update)) }
{
    let by = pass.by();
    if by >= deck.updaters() {
        return Ok(None);
    }
    match deck.updates(by).first() {
        Some(update) if update.fits(deck.items()) => Ok(Some(Worker {
            pass,
            update: update.copy(alloc)?,
            receipts: Vec::new(alloc),
        })),
        _ => Ok(None),
    }
}

/// A station of the deck with its conductor and its two updaters, or `None` if the deck doesn't have exactly two.
pub fn open(
    alloc: Global,
    text: &[u8],
) -> Result<Option<(Station, Conductor, Worker, Worker)>, Fail>
    ensures conductor { IfOk result (λ o. IfSome o (λ c. (c.1.pass.station ≡ c.0) × (c.1.pass.updaters ≡ 2))) }
    ensures one { IfOk result (λ o. IfSome o (λ c. FitsStation c.0 c.2.pass c.2.update)) }
    ensures two { IfOk result (λ o. IfSome o (λ c. FitsStation c.0 c.3.pass c.3.update)) }
{
    if text.len() > 1000 {
        return Ok(None);
    }
    let deck = read_deck(alloc, text)?;
    let (station, mut passes, pass) = Station::new(alloc, &deck)?;
    if deck.updaters() != 2 {
        return Ok(None);
    }
    let Some(second) = passes.pop() else {
        return Ok(None);
    };
    let Some(first) = passes.pop() else {
        return Ok(None);
    };
    let one = hire(alloc, &station, &deck, first)?;
    let two = hire(alloc, &station, &deck, second)?;
    let (Some(one), Some(two)) = (one, two) else {
        return Ok(None);
    };
    let starts = Vec::new(alloc);
    Ok(Some((station, Conductor { pass, starts }, one, two)))
}

/// Lets each updater make this number of commits, side by side.
fn work_both<R: Threads + Wait + Sync>(
    rt: &R,
    alloc: Global,
    station: &Station,
    one: &mut Worker,
    two: &mut Worker,
    commits: u32,
)
    requires one { FitsStation station.now one.old.pass one.old.update }
    requires two { FitsStation station.now two.old.pass two.old.update }
    ensures one { FitsStation station.now one.new.pass one.new.update }
    ensures two { FitsStation station.now two.new.pass two.new.update }
{
    join_mut(
        rt,
        &mut || one.commit_all(rt, alloc, station, commits),
        &mut || two.commit_all(rt, alloc, station, commits),
    );
}

/// Lets each updater make this number of commits, while the conductor starts this number of cycles.
pub fn work_all<R: Threads + Wait + Sync>(
    rt: &R,
    alloc: Global,
    station: &Station,
    conductor: &mut Conductor,
    one: &mut Worker,
    two: &mut Worker,
    commits: u32,
    cycles: u32,
)
    requires conductor { conductor.old.pass.station ≡ station.now }
    requires one { FitsStation station.now one.old.pass one.old.update }
    requires two { FitsStation station.now two.old.pass two.old.update }
    ensures conductor { conductor.new.pass ≡ with_seen conductor.old.pass conductor.new.pass.seen }
    ensures one { FitsStation station.now one.new.pass one.new.update }
    ensures two { FitsStation station.now two.new.pass two.new.update }
{
    join_mut(
        rt,
        &mut || conductor.start_all(rt, alloc, station, cycles),
        &mut ||
            requires { IsSync R.row × FitsStation station.now one.now.pass one.now.update × FitsStation station.now two.now.pass two.now.update }
            ensures { FitsStation station.entry.now one.exit.now.pass one.exit.now.update × FitsStation station.entry.now two.exit.now.pass two.exit.now.update }
        { work_both(rt, alloc, station, one, two, commits) },
    );
}

/// Whether a pass has the number.
fn has_number(passes: &[UpdaterPass], by: u32) -> bool
    ensures { IsTrue result → Contains (numbers_of passes.now) by }
{
    for pass in passes {
        if pass.by() == by {
            return true;
        }
    }
    false
}

/// Whether each updater's number has a pass.
fn is_complete(passes: &[UpdaterPass], updaters: u32) -> bool
    ensures { IsTrue result → (by : ℕ) → by < updaters → Contains (numbers_of passes.now) by }
{
    for by in 0..updaters {
        if !has_number(passes, by) {
            return false;
        }
    }
    true
}

/// The number of events and of starts of a history, and the number of receipts of each updater and of starts answered to the conductor. Then the
/// first two values at the history's end, or the first place that was answered otherwise than by a core.
pub type HistoryCounts = (u64, u32, [usize; 3], Result<[u64; 2], usize>);

/// Closes the station, and replays its history from these values; `None` if a pass is missing.
pub fn close(
    alloc: Global,
    station: Station,
    conductor: Conductor,
    one: Worker,
    two: Worker,
    first: &[u64],
) -> Result<Option<HistoryCounts>, NoMemory>
    requires conductor { (conductor.pass.station ≡ station) × (conductor.pass.updaters ≡ 2) }
    requires workers { (one.pass.station ≡ station) × (two.pass.station ≡ station) }
{
    let mut passes = Vec::new(alloc);
    passes.push(one.pass)?;
    passes.push(two.pass)?;
    if !is_complete(&passes, 2) {
        return Ok(None);
    }
    let history = station.close(passes, conductor.pass);
    let starts = conductor.starts;
    let (ones, twos) = (one.receipts, two.receipts);
    let values = replay(alloc, &history, first, [&ones, &twos], &starts)?;
    let counts = [ones.len(), twos.len(), starts.len()];
    Ok(Some((history.len(), history.starts(), counts, values)))
}
