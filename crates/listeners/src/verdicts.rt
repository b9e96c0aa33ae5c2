//! The verdicts of a receiver, taken as they come: each becomes a line with its reads.
//!
//! Before a receiver hears its next bucket it gives out what it has decided; at the end, what is left unfinished. Both are what the
//! rules of the session say, since these only add lines and look at none.

ghost use Rattle.std.specs.Prelude.{◌≡◌, ◌++◌, ◌∷◌, [], OnOk};
ghost use Rattle.air_model.specs.Judges.{by_entries};
ghost use Rattle.air_model.specs.SessionLaws.{after};
ghost use Rattle.air_model.specs.Sessions.{end, settle};
ghost use Rattle.receiver_core.specs.Receivers.{IsSettled};
ghost use Rattle.listeners.specs.Private.Endings.{lines_and_counts};

use air_base::{NoMemory, Reads, Verdict};
use receiver_core::{Receiver, Step};
use std::alloc::Global;
use std::marker::Model;

/// A verdict, and the reads of its attempt in the order of reading.
#[derive(Debug, Drop)]
pub(crate) struct SessionLine {
    pub verdict: Verdict,
    pub reads: Reads,
}

impl Model for SessionLine {
    ghost use Rattle.air_model.specs.Sessions.{SessionLine};

    ghost Value = { SessionLine };

    ghost view = { λ l. record { verdict = l.verdict; reads = l.reads } };
}

/// Adds the line of a verdict that the receiver has just handed out.
fn push_line(
    alloc: Global,
    receiver: &Receiver,
    verdict: Verdict,
    lines: &mut Vec<SessionLine>,
) -> Result<(), NoMemory>
    ensures { OnOk result (lines.new.items
        ≡ lines.old.items ++ record { verdict = verdict; reads = receiver.now.last } ∷ []) }
{
    let reads = Reads::from_vec(receiver.last_reads().to_vec(alloc)?);
    lines.push(SessionLine { verdict, reads })?;
    Ok(())
}

/// Takes the verdicts that the receiver has before its next bucket.
pub(crate) fn take_verdicts(
    alloc: Global,
    receiver: &mut Receiver,
    lines: &mut Vec<SessionLine>,
) -> Result<(), NoMemory>
    ensures settled { OnOk result (IsSettled receiver.new) }
    ensures state { OnOk result (after lines.new.items receiver.new.state
        ≡ settle (by_entries receiver.old.air.scheme) receiver.old.air receiver.old.reader (after lines.old.items receiver.old.state)) }
    ensures air { receiver.new.air ≡ receiver.old.air }
    ensures reader { receiver.new.reader ≡ receiver.old.reader }
{
    while let Step::Verdict(verdict) = receiver.step() {
        push_line(alloc, receiver, verdict, lines)?;
    }
    Ok(())
}

/// Ends the queries that are left, each unfinished.
pub(crate) fn end_queries(
    alloc: Global,
    receiver: &mut Receiver,
    lines: &mut Vec<SessionLine>,
) -> Result<(), NoMemory>
    requires { IsSettled receiver.old }
    ensures settled { OnOk result (IsSettled receiver.new) }
    ensures told { OnOk result (lines_and_counts (after lines.new.items receiver.new.state)
        ≡ lines_and_counts (end (by_entries receiver.old.air.scheme) receiver.old.air receiver.old.reader (after lines.old.items receiver.old.state))) }
{
    while let Some(verdict) = receiver.end() {
        push_line(alloc, receiver, verdict, lines)?;
    }
    Ok(())
}
