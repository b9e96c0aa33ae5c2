//! A deck's script on the air: its pieces, its history, and the sessions of its readers.

ghost use Rattle.std.specs.Prelude.{◌≡◌, ◌≤◌, [], IfErr, IfOk, OnOk, length};
ghost use Rattle.air_base.specs.declared.limits.TheConstants.{MOST_TAPE_BYTES};
ghost use Rattle.air_index.specs.IndexedTapes.{beam_tape_of};
ghost use Rattle.air_model.specs.Decks.{script_history};
ghost use Rattle.air_model.specs.Outputs.{script_tape, true_sessions};
ghost use Rattle.air_model.specs.Reports.{counts_lines, verdict_lines};
ghost use Rattle.scripts.specs.Sinks.{StopsAt};

use crate::piece_runs::PieceRun;
use crate::script_airing::ScriptAiring;
use crate::script_beaming::ScriptBeaming;
use crate::sinks::PieceSink;
use crate::sizes::piece_cycles;
use air_base::NoMemory;
use air_history::Event;
use chunk_program::Planned;
use listeners::{Hearers, Sessions};
use std::alloc::Global;

/// The result of a script on the air: its history, and what the sessions of the deck's readers tell.
#[derive(Drop)]
pub struct AiredScript {
    pub events: Vec<Event>,
    pub sessions: Sessions,
}

/// Airs the script of a deck piece by piece: each reader hears its own ether of what is aired, and the sink takes the piece. One piece of the
/// tape is kept and, with ethers, the last nine buckets. Both clauses on the sink are relative to an empty output.
pub fn air_script<P, S: PieceSink<P>>(
    alloc: Global,
    planned: &Planned,
    sink: &S,
    output: &mut P,
) -> Result<AiredScript, S::Fault>
    requires { length (script_tape planned.now) ≤ MOST_TAPE_BYTES }
    ensures events { IfOk result (λ s. s.events.items ≡ script_history planned.now) }
    ensures verdicts { IfOk result (λ s. s.sessions.verdicts.items ≡ verdict_lines (true_sessions planned.now (script_history planned.now))) }
    ensures counts { IfOk result (λ s. s.sessions.counts.items ≡ counts_lines (true_sessions planned.now (script_history planned.now))) }
    ensures taken { (first : P) → S.HasTaken sink.now [] first output.old → OnOk result (S.HasTaken sink.now (script_tape planned.now) first output.new) }
    ensures stopped { (first : P) → S.HasTaken sink.now [] first output.old →
        IfErr result (StopsAt (S.Fault.from_gives (record {})) (λ bytes. S.HasTaken sink.now bytes first output.new) (λ bytes. S.HasFailed sink.now bytes first output.new) (script_tape planned.now)) }
{
    let mut aired = ScriptAiring::new(alloc, planned, piece_cycles(planned))?;
    while !aired.is_done(planned) {
        aired.next_piece(alloc, planned)?;
        sink.take(output, aired.piece())?;
    }
    let (events, sessions) = aired.end(alloc, planned)?;
    Ok(AiredScript { events, sessions })
}

/// Beams the script of a deck piece by piece: the sink takes each piece of the indexed tape. No more of the tape than a piece is kept. Both clauses
/// are relative to an empty output.
pub fn beam_script<P, S: PieceSink<P>>(
    alloc: Global,
    planned: &Planned,
    sink: &S,
    output: &mut P,
) -> Result<(), S::Fault>
    ensures taken { (first : P) → S.HasTaken sink.now [] first output.old → OnOk result (S.HasTaken sink.now (beam_tape_of planned.now) first output.new) }
    ensures stopped { (first : P) → S.HasTaken sink.now [] first output.old →
        IfErr result (StopsAt (S.Fault.from_gives (record {})) (λ bytes. S.HasTaken sink.now bytes first output.new) (λ bytes. S.HasFailed sink.now bytes first output.new) (beam_tape_of planned.now)) }
{
    let mut beaming = ScriptBeaming::new(alloc, planned, piece_cycles(planned))?;
    while !beaming.is_done(planned) {
        beaming.next_piece(alloc, planned)?;
        sink.take(output, beaming.piece())?;
    }
    Ok(())
}

/// Airs the script of a deck without its tape: the readers hear each cycle from its board, and nothing else is made of it.
pub fn hear_script(alloc: Global, planned: &Planned) -> Result<AiredScript, NoMemory>
    requires { length (script_tape planned.now) ≤ MOST_TAPE_BYTES }
    ensures events { IfOk result (λ s. s.events.items ≡ script_history planned.now) }
    ensures verdicts { IfOk result (λ s. s.sessions.verdicts.items ≡ verdict_lines (true_sessions planned.now (script_history planned.now))) }
    ensures counts { IfOk result (λ s. s.sessions.counts.items ≡ counts_lines (true_sessions planned.now (script_history planned.now))) }
{
    planned.shows_planned();
    let mut run = PieceRun::new(alloc, planned)?;
    let mut hearers = Hearers::new(alloc, planned)?;
    while !run.is_done(planned) {
        hearers = run.next_heard(alloc, planned, hearers)?;
    }
    let sessions = hearers.end(alloc)?;
    Ok(AiredScript {
        events: run.events,
        sessions,
    })
}
