//! The sessions of all readers of a deck over a history on the air.
//!
//! Each reader hears its own ether of what the history airs, and judges by the entries that it hears; that is what the history judges.

ghost use Rattle.std.specs.Prelude.{◌≡◌, ◌<◌, ◌≤◌, ◌+◌, ◌*◌, ◌^◌, ◌++◌, ◌∷◌, [], List, IfOk, length};
ghost use Rattle.air_history.specs.declared.histories.Event.{Event};
ghost use Rattle.air_history.specs.Histories.{starts};
ghost use Rattle.air_model.specs.AiredLaws.{CanAir};
ghost use Rattle.air_model.specs.Buckets.{entry_len};
ghost use Rattle.air_model.specs.Outputs.{true_sessions};
ghost use Rattle.air_model.specs.Reports.{counts_lines, verdict_lines};
ghost use Rattle.air_sender.specs.AiredBytes.{aired_bytes};
ghost use Rattle.air_sender.specs.DeckGroups.{HasGroups};
ghost use Rattle.bucket_codec.specs.declared.offsets.TheConstants.{HEAD_BYTES};
ghost use Rattle.listeners.specs.declared.readers.TheConstants.{MOST_TAPE_RECORDS};
ghost use Rattle.listeners.specs.Hearings.{AreHearing};
ghost use Rattle.listeners.specs.Private.HistorySteps.{CanHearNext};

use crate::hearers::Hearers;
use crate::readers::Sessions;
use crate::sources::fill_groups;
use air_base::NoMemory;
use air_history::Event;
use air_sender::{bucket_room, groups_of};
use chunk_program::Planned;
use control_matrix::Board;
use group_matrix::GroupBoard;
use std::alloc::Global;

/// The sessions of all readers of a deck, each over its own ether of what a history airs: those that the history judges. The readers hear
/// each cycle from its board, so a bucket is encoded only if a reader opens it.
pub fn history_sessions(
    alloc: Global,
    planned: &Planned,
    events: &[Event],
) -> Result<Sessions, NoMemory>
    requires can { CanAir planned.now events.now }
    requires few { length (aired_bytes planned.now events.now) ≤ MOST_TAPE_RECORDS }
    requires cycles { starts events.now + 1 < 2 ^ 32 }
    ensures verdicts { IfOk result (λ s. s.verdicts.items ≡ verdict_lines (true_sessions planned.now events.now)) }
    ensures counts { IfOk result (λ s. s.counts.items ≡ counts_lines (true_sessions planned.now events.now)) }
{
    let hearers = hear_history(alloc, planned, events)?;
    let sessions = hearers.end(alloc)?;
    Ok(sessions)
}

/// All readers of a deck, after what a history airs.
fn hear_history(alloc: Global, planned: &Planned, events: &[Event]) -> Result<Hearers, NoMemory>
    requires can { CanAir planned.now events.now }
    requires few { length (aired_bytes planned.now events.now) ≤ MOST_TAPE_RECORDS }
    requires cycles { starts events.now + 1 < 2 ^ 32 }
    ensures { IfOk result (AreHearing planned.now (aired_bytes planned.now events.now)) }
{
    let values = planned.deck().values(alloc)?;
    let mut board = Board::new(alloc, &values)?;
    let mut groups = groups_of(alloc, planned)?;
    let mut room = vec![in alloc; 0; bucket_room(planned)]?;
    let mut hearers = Hearers::new(alloc, planned)?;
    for event in events {
        board.apply(event);
        hearers = hear_event(
            alloc,
            planned,
            event,
            &board,
            &mut groups,
            hearers,
            &mut room,
        )?;
    }
    Ok(hearers)
}

/// Lets all readers hear the cycle that an event starts, from the board that the event leaves, or from its board by groups if the deck has
/// groups; a commit starts none.
fn hear_event(
    alloc: Global,
    planned: &Planned,
    event: &Event,
    board: &Board,
    groups: &mut Option<GroupBoard>,
    hearers: Hearers,
    room: &mut [u8],
) -> Result<Hearers, NoMemory>
    requires next { (G : List Event) × CanHearNext planned.now G event.now board.now hearers }
    requires groups { HasGroups planned.now groups.old }
    requires room { length room.old ≡ HEAD_BYTES + entry_len planned.now.settings.version * length planned.now.items }
    ensures heard { (G : List Event) → CanHearNext planned.now G event.now board.now hearers →
        IfOk result (AreHearing planned.now (aired_bytes planned.now (G ++ event.now ∷ []))) }
    ensures groups { HasGroups planned.now groups.new }
    ensures room { length room.new ≡ length room.old }
{
    if !event.is_start() {
        return Ok(hearers);
    }
    fill_groups(planned, board, groups);
    hearers.hear_board(alloc, planned, board, groups, room)
}
