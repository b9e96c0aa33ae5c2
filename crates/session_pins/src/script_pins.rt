//! Pins of `air_script`, `hear_script` and `history_sessions`: a small deck's script on the air, what a sink takes of it, and the sessions of its
//! reader.
#![tactic(auto)]

ghost use Rattle.std.specs.Prelude.{◌≡◌, [], ◌∷◌, IfOk, None, OnOk, Some};
ghost use Rattle.air_base.specs.declared.verdicts.VerdictKind.TheVariants.{Accept, Unfinished};
ghost use Rattle.air_history.specs.declared.histories.Event.TheVariants.{Start};
ghost use Rattle.session_pins.specs.SmallBuckets.{pair_tape};
ghost use Rattle.session_pins.specs.SmallDecks.{first_updater_commit, late_pair, pair, update_to, updated};
ghost use Rattle.session_pins.specs.SmallReceivers.{counted, counts, first_query_line, value_read};

use air_base::NoMemory;
use air_history::Event;
use chunk_program::Planned;
use listeners::{Sessions, history_sessions};
use scripts::{AiredScript, Discard, PieceSink, air_script, hear_script};
use std::alloc::Global;

/// A script is aired to its end, here in two pieces, of which the second has one commit (last part left out), and its history is answered (another
/// history at the end). Each bucket is heard once (piece heard twice).
/// Promise: script, drill and plan print their texts
pub fn history_left_out_of_the_report(
    alloc: Global,
    planned: &Planned,
) -> Result<AiredScript, NoMemory>
    requires { planned.now ≡ updated (Some 0 ∷ None ∷ Some 0 ∷ []) }
    ensures events { IfOk result (λ s. s.events.items ≡ first_updater_commit 0 (update_to 0 11) ∷ Start ∷ first_updater_commit 1 (update_to 1 21) ∷ []) }
    ensures verdicts { IfOk result (λ s. s.sessions.verdicts.items ≡ first_query_line 0 Accept (value_read 0 1 11 ∷ value_read 1 1 20 ∷ []) ∷ []) }
    ensures lines { IfOk result (λ s. s.sessions.counts.items ≡ counted 0 (counts 2 0 0 0 0 0) ∷ []) }
{
    let aired = air_script(alloc, planned, &Discard, &mut ())?;
    Ok(aired)
}

/// The last piece is heard like each other one: here it is the only one.
/// Promise: script, drill and plan print their texts
pub fn last_piece_not_heard(alloc: Global, planned: &Planned) -> Result<AiredScript, NoMemory>
    requires { planned.now ≡ pair }
    ensures { IfOk result (λ s. s.sessions.verdicts.items ≡ first_query_line 0 Accept (value_read 0 1 10 ∷ value_read 1 1 20 ∷ []) ∷ []) }
{
    let aired = air_script(alloc, planned, &Discard, &mut ())?;
    Ok(aired)
}

/// Each piece is given to the sink: here the only one, with both items of one cycle.
/// Promise: script, drill and plan print their texts
pub fn last_piece_not_taken<P, S: PieceSink<P>>(
    alloc: Global,
    planned: &Planned,
    sink: &S,
    output: &mut P,
) -> Result<AiredScript, S::Fault>
    requires deck { planned.now ≡ pair }
    requires begun { S.HasTaken sink.now [] output.old output.old }
    ensures { OnOk result (S.HasTaken sink.now pair_tape output.old output.new) }
{
    let aired = air_script(alloc, planned, sink, output)?;
    Ok(aired)
}

/// The sessions over a history on the air have their verdicts, and a line of counts for each reader.
/// Promise: script, drill and plan print their texts
pub fn sessions_without_their_counts(
    alloc: Global,
    planned: &Planned,
    events: &[Event],
) -> Result<Sessions, NoMemory>
    requires deck { planned.now ≡ pair }
    requires events { events.now ≡ Start ∷ [] }
    ensures verdicts { IfOk result (λ s. s.verdicts.items ≡ first_query_line 0 Accept (value_read 0 1 10 ∷ value_read 1 1 20 ∷ []) ∷ []) }
    ensures lines { IfOk result (λ s. s.counts.items ≡ counted 0 (counts 2 0 0 0 0 0) ∷ []) }
{
    planned.shows_planned();
    let sessions = history_sessions(alloc, planned, events)?;
    Ok(sessions)
}

/// The first bucket is heard in cycle 5, and it has the cycle and the value with which it was aired: its item was written since. It also refuses that
/// the bucket of another place is heard for it. All others are lost.
/// Promise: the ether is its definition
pub fn late_bucket_from_a_newer_board(
    alloc: Global,
    planned: &Planned,
) -> Result<AiredScript, NoMemory>
    requires { planned.now ≡ late_pair }
    ensures verdicts { IfOk result (λ s. s.sessions.verdicts.items ≡ first_query_line 0 Unfinished (value_read 0 1 10 ∷ []) ∷ []) }
    ensures lines { IfOk result (λ s. s.sessions.counts.items ≡ counted 0 (counts 1 0 0 0 0 0) ∷ []) }
{
    let aired = hear_script(alloc, planned)?;
    Ok(aired)
}
