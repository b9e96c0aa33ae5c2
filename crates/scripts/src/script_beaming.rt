//! A deck's script on the air piece by piece, with an index record ahead of each minor cycle, and without readers.

ghost use Rattle.std.specs.Prelude.{◌≡◌, ◌↔◌, ◌<◌, ◌≤◌, ◌+◌, ◌++◌, [], false, IfOk, IsTrue, OnOk, length};
ghost use Rattle.air_history.specs.Histories.{starts};
ghost use Rattle.air_model.specs.Decks.{script_history};
ghost use Rattle.scripts.specs.Beamings.{IsBeaming, beamed_so_far};

use crate::piece_runs::PieceRun;
use crate::sizes::longest_cycle;
use air_base::NoMemory;
use air_index::beam_piece;
use air_sender::TapeMast;
use chunk_program::Planned;
use std::alloc::Global;

/// The run of a deck's script so far, the mast that has the last piece of the plain tape, and the same piece of the indexed tape.
#[derive(Drop)]
pub struct ScriptBeaming {
    pub run: PieceRun,
    mast: TapeMast,
    beamed: Vec<u8>,
    cycles: u32,
}

impl ScriptBeaming {
    /// Nothing was beamed yet. A piece is to have this number of cycles.
    pub fn new(alloc: Global, planned: &Planned, cycles: u32) -> Result<ScriptBeaming, NoMemory>
        requires { 1 ≤ cycles }
        ensures kept { IfOk result (IsBeaming planned.now) }
        ensures empty { IfOk result (λ b. b.run.events.items ≡ []) }
        ensures nothing { IfOk result (λ b. beamed_so_far planned.now b ≡ []) }
        ensures size { IfOk result (λ b. b.cycles ≡ cycles) }
    {
        let bytes = u64::from(cycles) * longest_cycle(planned);
        Ok(ScriptBeaming {
            run: PieceRun::new(alloc, planned)?,
            mast: TapeMast::new(alloc, bytes)?,
            beamed: Vec::new(alloc),
            cycles,
        })
    }

    /// Whether the whole script was beamed.
    pub fn is_done(&self, planned: &Planned) -> bool
        requires { IsBeaming planned.now self.now }
        ensures done { IsTrue result ↔ (self.now.run.events.items ≡ script_history planned.now) }
        ensures left { result ≡ false → length self.now.run.events.items < length planned.now.script }
    {
        self.run.is_done(planned)
    }

    /// The piece of the indexed tape that was beamed last.
    pub fn piece(&self) -> &[u8]
        ensures { result.now ≡ self.now.beamed.items }
    {
        &self.beamed
    }

    /// Airs the next piece, up to the end of the script, and beams it, if the script isn't at its end. It is kept from `new` on, until a call runs out of memory.
    pub fn next_piece(&mut self, alloc: Global, planned: &Planned) -> Result<(), NoMemory>
        requires kept { IsBeaming planned.now self.old }
        requires more { length self.old.run.events.items < length planned.now.script }
        ensures kept { OnOk result (IsBeaming planned.now self.new) }
        ensures beamed { OnOk result (beamed_so_far planned.now self.new ≡ beamed_so_far planned.now self.old ++ self.new.beamed.items) }
        ensures on { OnOk result (length self.old.run.events.items < length self.new.run.events.items) }
        ensures size { OnOk result (self.new.cycles ≡ self.old.cycles) }
        ensures cycles { OnOk result (starts self.new.run.events.items ≤ starts self.old.run.events.items + self.old.cycles) }
        ensures full { OnOk result (length self.new.run.events.items < length planned.now.script → starts self.new.run.events.items ≡ starts self.old.run.events.items + self.old.cycles) }
    {
        planned.shows_planned();
        let before = self.run.cycles();
        self.run
            .next_piece(alloc, planned, self.cycles, &mut self.mast)?;
        let now = self.run.cycles();
        let more = now - before;
        let items = planned.deck().items();
        self.beamed.clear();
        beam_piece(
            planned.plans(),
            items,
            before,
            more,
            self.mast.tape(),
            &mut self.beamed,
        )?;
        Ok(())
    }
}
