//! The events that the lines of a history name.

ghost use Rattle.std.specs.Prelude.{◌≡◌, All, IfOk, map};
ghost use Rattle.air_report.specs.ReportLines.{event_in};
ghost use Rattle.air_report.specs.Private.ReportsOfLines.{NamesUpdate};

use crate::reading::lines::EventLine;
use air_base::NoMemory;
use air_history::Event;
use item_catalog::Deck;
use std::alloc::Global;

/// The event that a line names: a start, or a commit with the deck's update.
fn event_in(alloc: Global, deck: &Deck, line: EventLine) -> Result<Event, NoMemory>
    requires { NamesUpdate deck.now line }
    ensures { IfOk result (λ event. event ≡ event_in deck.now line) }
{
    match line {
        EventLine::Start => Ok(Event::Start),
        EventLine::Commit { by, seq } => {
            let update = deck.updates(by)[seq as usize].copy(alloc)?;
            Ok(Event::Commit { by, seq, update })
        }
    }
}

/// The events that lines name, in order.
pub(crate) fn events_in(
    alloc: Global,
    deck: &Deck,
    lines: &[EventLine],
) -> Result<Vec<Event>, NoMemory>
    requires { All (NamesUpdate deck.now) lines.now }
    ensures { IfOk result (λ events. events.items ≡ map (event_in deck.now) lines.now) }
{
    let mut events = Vec::with_capacity(alloc, lines.len())?;
    for line in lines {
        let event = event_in(alloc, deck, *line)?;
        events.push(event)?;
    }
    Ok(events)
}
