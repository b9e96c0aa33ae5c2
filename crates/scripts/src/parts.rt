//! The script parts of a deck: the event of each, and how many are each updater's.

ghost use Rattle.std.specs.Prelude.{◌≡◌, ◌<◌, ◌+◌, None, IfOk, get_or, length, take};
ghost use Rattle.air_model.specs.Decks.{event_of};
ghost use Rattle.scripts.specs.Private.RunSteps.{CountsScripted};

use air_base::NoMemory;
use air_history::Event;
use item_catalog::Deck;
use std::alloc::Global;

/// The event of a script part, after those before it; `made` tells how many of these are each updater's.
pub(crate) fn event_at(alloc: Global, deck: &Deck, made: &[u32], k: u32) -> Result<Event, NoMemory>
    requires within { k < length deck.now.script }
    requires updaters { length made.now ≡ length deck.now.updates }
    requires made { CountsScripted deck.now k made.now }
    ensures { IfOk result (λ event. event ≡ event_of deck.now (take k deck.now.script) (get_or deck.now.script k None)) }
{
    deck.shows_well_made();
    let Some(by) = deck.script(k) else {
        return Ok(Event::Start);
    };
    let seq = made[by as usize];
    let update = deck.updates(by)[seq as usize].copy(alloc)?;
    Ok(Event::Commit { by, seq, update })
}

/// Counts a script part as its updater's.
pub(crate) fn count_part(deck: &Deck, made: &mut [u32], k: u32)
    requires within { k < length deck.now.script }
    requires updaters { length made.old ≡ length deck.now.updates }
    requires made { CountsScripted deck.now k made.old }
    ensures { CountsScripted deck.now (k + 1) made.new }
{
    deck.shows_well_made();
    if let Some(by) = deck.script(k) {
        made[by as usize] += 1;
    }
}
