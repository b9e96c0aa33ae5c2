//! A run of a deck's script piece by piece: some cycles at a time, each piece with the buckets of its own cycles alone.
//!
//! The buckets of the pieces, one piece after another, are those of the script's whole history: so no more than one piece of the tape
//! has to be kept, and one mast gathers them all.

ghost use Rattle.std.specs.Prelude.{◌≡◌, ◌↔◌, ◌<◌, ◌≤◌, ◌+◌, ◌++◌, [], false, IfOk, IsTrue, OnOk, length};
ghost use Rattle.air_base.specs.declared.limits.TheConstants.{MOST_TAPE_BYTES};
ghost use Rattle.air_history.specs.Histories.{starts};
ghost use Rattle.air_model.specs.Decks.{Deck, script_history};
ghost use Rattle.air_model.specs.Outputs.{script_tape};
ghost use Rattle.air_sender.specs.TapeMasts.{told_by_tape};
ghost use Rattle.air_sender.specs.AiredBytes.{aired_bytes};
ghost use Rattle.listeners.specs.Hearings.{AreHearing};
ghost use Rattle.scripts.specs.PieceRuns.{IsPieceRun};

mod steps;

use air_base::NoMemory;
use air_history::Event;
use air_sender::{TapeMast, bucket_room, groups_of};
use chunk_program::Planned;
use control_matrix::Board;
use group_matrix::GroupBoard;
use listeners::Hearers;
use std::alloc::Global;

/// The events so far, how many of them are each updater's, their board, the board by groups of the last cycle if the deck has groups, and
/// room for a bucket's bytes.
#[derive(Drop)]
pub struct PieceRun {
    pub events: Vec<Event>,
    made: Vec<u32>,
    board: Board,
    groups: Option<GroupBoard>,
    room: Vec<u8>,
}

impl PieceRun {
    /// No event yet.
    pub fn new(alloc: Global, planned: &Planned) -> Result<PieceRun, NoMemory>
        ensures kept { IfOk result (IsPieceRun planned.now) }
        ensures empty { IfOk result (λ r. r.events.items ≡ []) }
    {
        let deck = planned.deck();
        let values = deck.values(alloc)?;
        Ok(PieceRun {
            events: Vec::new(alloc),
            made: vec![in alloc; 0; deck.updaters() as usize]?,
            board: Board::new(alloc, &values)?,
            groups: groups_of(alloc, planned)?,
            room: vec![in alloc; 0; bucket_room(planned)]?,
        })
    }

    /// Whether all events of the script were run.
    pub fn is_done(&self, planned: &Planned) -> bool
        requires { IsPieceRun planned.now self.now }
        ensures done { IsTrue result ↔ (self.now.events.items ≡ script_history planned.now) }
        ensures left { result ≡ false → length self.now.events.items < length planned.now.script }
    {
        self.events.len() == planned.deck().script_len() as usize
    }

    /// The number of cycles that were aired.
    pub fn cycles(&self) -> u32
        ensures { (planned : Deck) → IsPieceRun planned self.now → result ≡ starts self.now.events.items }
    {
        self.board.cycle()
    }

    /// Runs until `cycles` more cycles were aired, or to the end of the script: afterwards the mast has the buckets of these cycles alone.
    /// The mast needs room for them, as `tape_bytes` tells; a send without room counts as out of memory. The run is kept from `new` on,
    /// until a call runs out of memory.
    pub fn next_piece(
        &mut self,
        alloc: Global,
        planned: &Planned,
        cycles: u32,
        piece: &mut TapeMast,
    ) -> Result<(), NoMemory>
        requires some { 1 ≤ cycles }
        requires kept { IsPieceRun planned.now self.old }
        ensures kept { OnOk result (IsPieceRun planned.now self.new) }
        ensures aired { OnOk result (aired_bytes planned.now self.new.events.items ≡ aired_bytes planned.now self.old.events.items ++ (told_by_tape piece.new).buckets) }
        ensures on { OnOk result (length self.old.events.items < length planned.now.script → length self.old.events.items < length self.new.events.items) }
        ensures cycles { OnOk result (starts self.new.events.items ≤ starts self.old.events.items + cycles) }
        ensures full { OnOk result (length self.new.events.items < length planned.now.script → starts self.new.events.items ≡ starts self.old.events.items + cycles) }
    {
        piece.clear();
        let mut left = cycles;
        for next in self.events.len()..planned.deck().script_len() as usize {
            if left == 0 {
                break;
            }
            if self.step(alloc, planned, piece)? {
                left -= 1;
            }
        }
        Ok(())
    }

    /// Does as `next_piece`, and lets all readers hear each of the cycles from its board, so that nothing is read back from the mast. If memory
    /// runs out, the readers are dropped.
    pub fn next_piece_heard(
        &mut self,
        alloc: Global,
        planned: &Planned,
        cycles: u32,
        piece: &mut TapeMast,
        hearers: Hearers,
    ) -> Result<Hearers, NoMemory>
        requires some { 1 ≤ cycles }
        requires kept { IsPieceRun planned.now self.old }
        requires few { length (script_tape planned.now) ≤ MOST_TAPE_BYTES }
        requires heard { AreHearing planned.now (aired_bytes planned.now self.old.events.items) hearers }
        ensures kept { OnOk result (IsPieceRun planned.now self.new) }
        ensures aired { OnOk result (aired_bytes planned.now self.new.events.items ≡ aired_bytes planned.now self.old.events.items ++ (told_by_tape piece.new).buckets) }
        ensures heard { IfOk result (AreHearing planned.now (aired_bytes planned.now self.new.events.items)) }
        ensures on { OnOk result (length self.old.events.items < length planned.now.script → length self.old.events.items < length self.new.events.items) }
        ensures cycles { OnOk result (starts self.new.events.items ≤ starts self.old.events.items + cycles) }
        ensures full { OnOk result (length self.new.events.items < length planned.now.script → starts self.new.events.items ≡ starts self.old.events.items + cycles) }
    {
        piece.clear();
        let mut left = cycles;
        let mut hearers = hearers;
        for next in self.events.len()..planned.deck().script_len() as usize {
            if left == 0 {
                break;
            }
            let started = self.step(alloc, planned, piece)?;
            hearers = self.hear_last(alloc, planned, started, hearers)?;
            if started {
                left -= 1;
            }
        }
        Ok(hearers)
    }

    /// Runs the next event, and lets all readers hear what it airs: from the board, so a bucket is encoded only if a reader opens it. If
    /// memory runs out, the readers are dropped.
    pub fn next_heard(
        &mut self,
        alloc: Global,
        planned: &Planned,
        hearers: Hearers,
    ) -> Result<Hearers, NoMemory>
        requires kept { IsPieceRun planned.now self.old }
        requires more { length self.old.events.items < length planned.now.script }
        requires few { length (script_tape planned.now) ≤ MOST_TAPE_BYTES }
        requires heard { AreHearing planned.now (aired_bytes planned.now self.old.events.items) hearers }
        ensures kept { OnOk result (IsPieceRun planned.now self.new) }
        ensures one { OnOk result (length self.new.events.items ≡ length self.old.events.items + 1) }
        ensures heard { IfOk result (AreHearing planned.now (aired_bytes planned.now self.new.events.items)) }
    {
        let started = self.run_next(alloc, planned)?;
        let hearers = self.hear_last(alloc, planned, started, hearers)?;
        Ok(hearers)
    }
}
