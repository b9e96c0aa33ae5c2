//! The end: all passes come back, and the history comes out.
ghost use Rattle.std.specs.Prelude.{◌≡◌, ℕ, ◌<◌, length, All, Contains, Some};
ghost use Rattle.air_history.specs.Histories.{is_start, EventFits};
ghost use Rattle.air_model.specs.Decks.{is_by};
ghost use Rattle.air_model.specs.Closings.{GoesOnWithout};
ghost use Rattle.station.specs.EventEntries.{events_of};
ghost use Rattle.station.specs.PassStates.{PassState, numbers_of};
ghost use Rattle.station.specs.PassFields.{IsPass, base_in};

use crate::locked::StationCore;
use crate::passes::{ConductorPass, UpdaterPass};
use crate::stations::Station;
use air_history::History;
use turnstile::Pass;

/// Joins the passes to the conductor's, and gives the value.
fn finish(
    station: Station,
    mut first: Pass<StationCore>,
    mut passes: Vec<UpdaterPass>,
) -> StationCore
    requires own { (first.turnstile ≡ station) × All (λ (p : PassState). p.station ≡ station) passes.items }
    requires first { IsPass first (base_in first).1 }
    requires all { (by : ℕ) → by < (base_in first).1 → Contains (numbers_of passes.items) by }
    ensures base { first.base ≡ Some (result.core.values, result.core.updaters) }
    ensures each { All (λ (p : PassState). GoesOnWithout (is_by p.number) p.seen result.core.events) passes.items }
    ensures first { GoesOnWithout is_start (events_of first.seen) result.core.events }
{
    while let Some(next) = passes.pop() {
        let UpdaterPass { pass, .. } = next;
        station.turnstile.join(&mut first, pass);
    }
    let Station { turnstile } = station;
    turnstile.close(first)
}

impl Station {
    /// The history, for all passes. It begins with what each pass has seen; what follows has no commit of that updater, and for the conductor no
    /// start. So each call made through a pass is in it once. The passes may come in any order. `UpdaterPass::by` is the test for `all`.
    pub fn close(self, passes: Vec<UpdaterPass>, conductor: ConductorPass) -> History
        requires own { (conductor.station ≡ self) × All (λ (p : PassState). p.station ≡ self) passes.items }
        requires all { (by : ℕ) → by < conductor.updaters → Contains (numbers_of passes.items) by }
        ensures each { All (λ (p : PassState). GoesOnWithout (is_by p.number) p.seen result) passes.items }
        ensures conductor { GoesOnWithout is_start conductor.seen result }
        ensures fits { All (EventFits conductor.updaters (length conductor.values)) result }
    {
        let ConductorPass { pass, .. } = conductor;
        let StationCore { core } = finish(self, pass, passes);
        core.shows_events_fit();
        core.into_history()
    }
}
