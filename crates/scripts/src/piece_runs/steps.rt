//! The steps of a run: the next event, and its cycle on the air.

ghost use Rattle.std.specs.Prelude.{◌≡◌, ◌<◌, ◌≤◌, ◌+◌, ◌++◌, ◌∷◌, [], ℕ, List, None, cond, true, IfOk, OnOk, get_or, length, take};
ghost use Rattle.air_base.specs.declared.limits.TheConstants.{MOST_TAPE_BYTES};
ghost use Rattle.air_history.specs.declared.histories.Event.{Event};
ghost use Rattle.air_history.specs.Boards.{board_of};
ghost use Rattle.air_history.specs.Histories.{is_start, starts};
ghost use Rattle.air_model.specs.Decks.{event_of, values_in};
ghost use Rattle.air_model.specs.Outputs.{script_tape};
ghost use Rattle.air_sender.specs.TapeMasts.{told_by_tape};
ghost use Rattle.air_sender.specs.AiredBytes.{aired_bytes};
ghost use Rattle.air_sender.specs.DeckGroups.{HasGroups};
ghost use Rattle.listeners.specs.AiredCycles.{AirsFrom};
ghost use Rattle.listeners.specs.Hearings.{AreHearing};
ghost use Rattle.scripts.specs.PieceRuns.{IsPieceRun};
ghost use Rattle.scripts.specs.Private.RunSteps.{CountsScripted, HasRun};

use crate::cycle_sources::air_board;
use crate::parts::{count_part, event_at};
use crate::piece_runs::PieceRun;
use air_base::NoMemory;
use air_history::Event;
use air_sender::TapeMast;
use chunk_program::Planned;
use listeners::{Hearers, fill_groups};
use std::alloc::Global;

impl PieceRun {
    /// Runs the next event, airs its cycle, and tells whether it starts one.
    pub(crate) fn step(
        &mut self,
        alloc: Global,
        planned: &Planned,
        piece: &mut TapeMast,
    ) -> Result<bool, NoMemory>
        requires kept { IsPieceRun planned.now self.old }
        requires more { length self.old.events.items < length planned.now.script }
        ensures ran { IfOk result (λ started. HasRun planned.now self.old.events.items started self.new) }
        ensures kept { OnOk result (IsPieceRun planned.now self.new) }
        ensures one { OnOk result (length self.new.events.items ≡ length self.old.events.items + 1) }
        ensures cycle { IfOk result (λ started. starts self.new.events.items ≡ starts self.old.events.items + cond started 1 0) }
        ensures aired { (before : List (List ℕ)) → aired_bytes planned.now self.old.events.items ≡ before ++ (told_by_tape piece.old).buckets →
            OnOk result (aired_bytes planned.now self.new.events.items ≡ before ++ (told_by_tape piece.new).buckets) }
    {
        let started = self.run_next(alloc, planned)?;
        self.air_last(planned, started, piece)?;
        Ok(started)
    }

    /// Runs the next event, and tells whether it starts a cycle.
    pub(crate) fn run_next(&mut self, alloc: Global, planned: &Planned) -> Result<bool, NoMemory>
        requires kept { IsPieceRun planned.now self.old }
        requires more { length self.old.events.items < length planned.now.script }
        ensures { IfOk result (λ started. HasRun planned.now self.old.events.items started self.new) }
    {
        let event = self.run_event(alloc, planned)?;
        self.fill(planned, &event);
        let started = event.is_start();
        self.events.push(event)?;
        Ok(started)
    }

    /// Runs the next event, which isn't among the events yet: the board and what is counted are as after it.
    fn run_event(&mut self, alloc: Global, planned: &Planned) -> Result<Event, NoMemory>
        requires kept { IsPieceRun planned.now self.old }
        requires more { length self.old.events.items < length planned.now.script }
        ensures event { IfOk result (λ e. e ≡ event_of planned.now (take (length self.old.events.items) planned.now.script) (get_or planned.now.script (length self.old.events.items) None)) }
        ensures board { IfOk result (λ e. self.new.board ≡ board_of (values_in planned.now) (self.old.events.items ++ e ∷ [])) }
        ensures updaters { OnOk result (length self.new.made.items ≡ length planned.now.updates) }
        ensures made { OnOk result (CountsScripted planned.now (length self.old.events.items + 1) self.new.made.items) }
        ensures events { self.new.events ≡ self.old.events }
        ensures groups { self.new.groups ≡ self.old.groups }
        ensures room { self.new.room ≡ self.old.room }
    {
        let deck = planned.deck();
        let k = self.events.len() as u32;
        let event = event_at(alloc, deck, &self.made, k)?;
        count_part(deck, &mut self.made, k);
        self.board.apply(&event);
        Ok(event)
    }

    /// If an event starts a cycle, fills the board by groups from the board that the event leaves, so that the cycle is aired from there. A deck
    /// without groups airs the board.
    fn fill(&mut self, planned: &Planned, event: &Event)
        requires stepped { self.old.board ≡ board_of (values_in planned.now) (self.old.events.items ++ event.now ∷ []) }
        requires groups { HasGroups planned.now self.old.groups }
        ensures source { is_start event.now ≡ true → AirsFrom planned.now self.old.events.items self.new.board self.new.groups }
        ensures groups { HasGroups planned.now self.new.groups }
        ensures events { self.new.events ≡ self.old.events }
        ensures made { self.new.made ≡ self.old.made }
        ensures board { self.new.board ≡ self.old.board }
        ensures room { self.new.room ≡ self.old.room }
    {
        if !event.is_start() {
            return;
        }
        fill_groups(planned, &self.board, &mut self.groups);
    }

    /// Airs the cycle that the last event started; a commit started none.
    fn air_last(
        &mut self,
        planned: &Planned,
        started: bool,
        piece: &mut TapeMast,
    ) -> Result<(), NoMemory>
        requires { (before : List Event) × HasRun planned.now before started self.old }
        ensures ran { (before : List Event) → HasRun planned.now before started self.old → HasRun planned.now before started self.new }
        ensures aired { (before : List Event) (sent : List (List ℕ)) → HasRun planned.now before started self.old → aired_bytes planned.now before ≡ sent ++ (told_by_tape piece.old).buckets →
            OnOk result (aired_bytes planned.now self.old.events.items ≡ sent ++ (told_by_tape piece.new).buckets) }
        ensures events { self.new.events ≡ self.old.events }
    {
        if !started {
            return Ok(());
        }
        air_board(planned, &self.board, &self.groups, piece, &mut self.room)
    }

    /// Lets all readers hear the cycle that the last event started; a commit started none. If memory runs out, the readers are dropped.
    pub(crate) fn hear_last(
        &mut self,
        alloc: Global,
        planned: &Planned,
        started: bool,
        hearers: Hearers,
    ) -> Result<Hearers, NoMemory>
        requires few { length (script_tape planned.now) ≤ MOST_TAPE_BYTES }
        requires heard { (before : List Event) × HasRun planned.now before started self.old × AreHearing planned.now (aired_bytes planned.now before) hearers }
        ensures heard { (before : List Event) → HasRun planned.now before started self.old → AreHearing planned.now (aired_bytes planned.now before) hearers →
            IfOk result (AreHearing planned.now (aired_bytes planned.now self.old.events.items)) }
        ensures kept { IsPieceRun planned.now self.new }
        ensures events { self.new.events ≡ self.old.events }
    {
        planned.shows_planned();
        if !started {
            return Ok(hearers);
        }
        hearers.hear_board(alloc, planned, &self.board, &self.groups, &mut self.room)
    }
}
