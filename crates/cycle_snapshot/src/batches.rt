//! Batches of events: what is published at one step.
ghost use Rattle.std.specs.Prelude.{◌≡◌, ◌+◌, ◌<◌, ◌^◌, length, All};
ghost use Rattle.air_history.specs.Histories.{starts, ItemsFit};
ghost use Rattle.air_history.specs.Tables.{BasesRead};
ghost use Rattle.control_matrix.specs.BoardSteps.{step_all};

use air_history::Event;
use control_matrix::Board;
use std::marker::Model;

/// The events of one cycle. Contracts see the list.
#[derive(Drop)]
pub struct Batch {
    events: Vec<Event>,
}

impl Model for Batch {
    ghost use Rattle.std.specs.Prelude.{List};
    ghost use Rattle.air_history.specs.declared.histories.Event.{Event};

    ghost Value = { List Event };

    ghost view = { λ b. b.events.items };
}

/// For proofs only: tells the caller that each base of each update is read. It does nothing at run time.
fn shows_all_rules_kept(events: &[Event])
    ensures { All BasesRead events.now }
{
    for event in events {
        event.shows_rules_kept();
    }
}

impl Batch {
    /// The batch of these events.
    pub fn of(events: Vec<Event>) -> Batch
        ensures list { result ≡ events.items }
        ensures bases { All BasesRead result }
    {
        shows_all_rules_kept(&events);
        Batch { events }
    }

    /// Changes the board by the events, in order.
    pub fn apply_to(&self, board: &mut Board)
        requires fits { All (ItemsFit (length board.old.values)) self.now }
        requires room { board.old.cycle + starts self.now + 1 < 2 ^ 32 }
        ensures { board.new ≡ step_all board.old self.now }
    {
        for event in &self.events {
            board.apply(event);
        }
    }
}
