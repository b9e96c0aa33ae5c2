//! The board of a deck's script and one more start, so that a cycle can be aired from it.
//!
//! Each commit of the script is taken to be of updater 0, with its next update. There is no board if an event doesn't fit.

ghost use Rattle.std.specs.Prelude.{◌≡◌, ◌<◌, ◌≤◌, ℕ, List, ◌++◌, ◌∷◌, [], length, IfOk, IfSome, IsTrue};
ghost use Rattle.air_history.specs.declared.histories.Event.{Event};
ghost use Rattle.air_history.specs.Boards.{board_of};
ghost use Rattle.air_sender.specs.BoardBuckets.{EntriesBelow, spread};
ghost use Rattle.group_matrix.specs.GroupBoards.{grouped};

use air_base::NoMemory;
use air_base::limits::MOST_VALUES;
use air_history::Event;
use air_sender::{below_law, groups_below_law};
use control_matrix::Board;
use item_catalog::Deck;
use std::alloc::Global;

/// The event of a part of the script: a start, or the commit of the update of updater 0 with this number.
fn event(alloc: Global, deck: &Deck, part: u32, number: usize) -> Result<Option<Event>, NoMemory>
    requires { part < length deck.now.script }
{
    if deck.script(part).is_none() {
        return Ok(Some(Event::Start));
    }
    if deck.updaters() == 0 {
        return Ok(None);
    }
    match deck.updates(0).get(number) {
        Some(update) => Ok(Some(Event::Commit {
            by: 0,
            seq: 0,
            update: update.copy(alloc)?,
        })),
        None => Ok(None),
    }
}

/// Applies the event if it is allowed, and returns whether it was.
fn apply(board: &mut Board, event: &Event) -> bool
    ensures { IsTrue result → (values : List ℕ) (G : List Event) → board.old ≡ board_of values G → board.new ≡ board_of values (G ++ event.now ∷ []) }
{
    if !event.fits(board.n()) || board.cycle() == u32::MAX {
        return false;
    }
    board.apply(event);
    true
}

/// The board of the script and a start, or `None` if an event doesn't fit.
pub fn started_board(alloc: Global, deck: &Deck) -> Result<Option<Board>, NoMemory>
    ensures below { IfOk result (λ b. IfSome b EntriesBelow) }
    ensures groups_below { IfOk result (λ b. IfSome b (λ b. (g : ℕ) → 0 < g → EntriesBelow (spread (grouped g b)))) }
    ensures started { IfOk result (λ b. IfSome b (λ b. 1 ≤ b.cycle)) }
{
    let values = deck.values(alloc)?;
    if values.is_empty() || values.len() > MOST_VALUES {
        return Ok(None);
    }
    let mut board = Board::new(alloc, &values)?;
    let mut made = 0_usize;
    for part in 0..deck.script_len() {
        let Some(event) = event(alloc, deck, part, made)? else {
            return Ok(None);
        };
        if !apply(&mut board, &event) {
            return Ok(None);
        }
        if !event.is_start() {
            made = made.saturating_add(1);
        }
    }
    if !apply(&mut board, &Event::Start) || board.cycle() == 0 {
        return Ok(None);
    }
    below_law();
    groups_below_law();
    Ok(Some(board))
}
