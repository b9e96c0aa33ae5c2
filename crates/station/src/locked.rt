//! The value behind the turnstile of a station.
use air_base::Values;
use air_history::Event;
use turnstile::Chronicle;
use update_commit::Core;

/// A core. Its events are the turnstile's entries, each with the number of the pass that makes such an event. The base is the first values and the
/// number of updaters.
#[derive(Drop)]
pub struct StationCore {
    pub core: Core,
}

impl Chronicle for StationCore {
    ghost use Rattle.station.specs.EventEntries.{event_entries};

    type Entry = Event;

    type Base = (Values, u32);

    ghost entries = { λ locked. event_entries locked.core.updaters locked.core.events };

    ghost base = { λ locked. (locked.core.values, locked.core.updaters) };
}
