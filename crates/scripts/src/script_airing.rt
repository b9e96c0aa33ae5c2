//! A deck's script on the air piece by piece, with all its readers.

ghost use Rattle.std.specs.Prelude.{◌≡◌, ◌↔◌, ◌<◌, ◌≤◌, ◌+◌, ◌*◌, ◌++◌, [], false, IfOk, IsTrue, OnOk, length};
ghost use Rattle.air_base.specs.declared.limits.TheConstants.{MOST_TAPE_BYTES};
ghost use Rattle.air_history.specs.Histories.{starts};
ghost use Rattle.air_model.specs.Decks.{script_history};
ghost use Rattle.air_model.specs.Outputs.{script_tape, true_sessions};
ghost use Rattle.air_model.specs.Reports.{counts_lines, verdict_lines};
ghost use Rattle.scripts.specs.Pieces.{IsAiring, piece_in, tape_so_far};
ghost use Rattle.scripts.specs.LongestCycles.{longest_cycle};

use crate::piece_runs::PieceRun;
use crate::sizes::longest_cycle;
use air_base::NoMemory;
use air_history::Event;
use air_sender::TapeMast;
use chunk_program::Planned;
use listeners::{Hearers, Sessions};
use std::alloc::Global;
use std::mem;

/// The run of a deck's script so far, its readers, who heard all that was aired, and the mast that has the last piece of the tape.
#[derive(Drop)]
pub struct ScriptAiring {
    pub run: PieceRun,
    hearers: Hearers,
    mast: TapeMast,
    cycles: u32,
}

impl ScriptAiring {
    /// Nothing was aired yet. A piece is to have `cycles` cycles, and the mast has room for the tape of that number of cycles of the longest
    /// edition.
    pub fn new(alloc: Global, planned: &Planned, cycles: u32) -> Result<ScriptAiring, NoMemory>
        requires { 1 ≤ cycles }
        ensures kept { IfOk result (IsAiring planned.now) }
        ensures empty { IfOk result (λ a. a.run.events.items ≡ []) }
        ensures nothing { IfOk result (λ a. tape_so_far planned.now a ≡ []) }
        ensures size { IfOk result (λ a. a.cycles ≡ cycles) }
        ensures room { IfOk result (λ a. a.mast.tape.room ≡ cycles * longest_cycle planned.now) }
    {
        let bytes = u64::from(cycles) * longest_cycle(planned);
        Ok(ScriptAiring {
            run: PieceRun::new(alloc, planned)?,
            hearers: Hearers::new(alloc, planned)?,
            mast: TapeMast::new(alloc, bytes)?,
            cycles,
        })
    }

    /// Whether the whole script was aired.
    pub fn is_done(&self, planned: &Planned) -> bool
        requires { IsAiring planned.now self.now }
        ensures done { IsTrue result ↔ (self.now.run.events.items ≡ script_history planned.now) }
        ensures left { result ≡ false → length self.now.run.events.items < length planned.now.script }
    {
        self.run.is_done(planned)
    }

    /// The tape of the piece that was aired last.
    pub fn piece(&self) -> &[u8]
        ensures { result.now ≡ piece_in self.now }
    {
        self.mast.tape()
    }

    /// Airs the next piece, up to the end of the script, and lets every reader hear its cycles. It is kept from `new` on, until a call runs out
    /// of memory.
    pub fn next_piece(&mut self, alloc: Global, planned: &Planned) -> Result<(), NoMemory>
        requires few { length (script_tape planned.now) ≤ MOST_TAPE_BYTES }
        requires kept { IsAiring planned.now self.old }
        ensures kept { OnOk result (IsAiring planned.now self.new) }
        ensures aired { OnOk result (tape_so_far planned.now self.new ≡ tape_so_far planned.now self.old ++ piece_in self.new) }
        ensures on { OnOk result (length self.old.run.events.items < length planned.now.script → length self.old.run.events.items < length self.new.run.events.items) }
        ensures size { OnOk result (self.new.cycles ≡ self.old.cycles) }
        ensures cycles { OnOk result (starts self.new.run.events.items ≤ starts self.old.run.events.items + self.old.cycles) }
        ensures full { OnOk result (length self.new.run.events.items < length planned.now.script → starts self.new.run.events.items ≡ starts self.old.run.events.items + self.old.cycles) }
    {
        let nobody = Hearers::Together(Vec::new(alloc));
        let hearers = mem::replace(&mut self.hearers, nobody);
        self.hearers = self
            .run
            .next_piece_heard(alloc, planned, self.cycles, &mut self.mast, hearers)?;
        Ok(())
    }

    /// The history and the sessions of all readers, once the whole script was aired.
    pub fn end(self, alloc: Global, planned: &Planned) -> Result<(Vec<Event>, Sessions), NoMemory>
        requires few { length (script_tape planned.now) ≤ MOST_TAPE_BYTES }
        requires kept { IsAiring planned.now self }
        requires done { self.run.events.items ≡ script_history planned.now }
        ensures events { IfOk result (λ r. r.0.items ≡ script_history planned.now) }
        ensures verdicts { IfOk result (λ r. r.1.verdicts.items ≡ verdict_lines (true_sessions planned.now (script_history planned.now))) }
        ensures counts { IfOk result (λ r. r.1.counts.items ≡ counts_lines (true_sessions planned.now (script_history planned.now))) }
    {
        planned.shows_planned();
        let ScriptAiring { run, hearers, .. } = self;
        let sessions = hearers.end(alloc)?;
        Ok((run.events, sessions))
    }
}
