//! All readers of a deck: as they are before they hear anything, as they hear one member, and what they tell at the end.
//!
//! Every reader hears what `decode` answered of a record, and nothing is copied. Their sessions give the lines of a report.

ghost use Rattle.std.specs.Prelude.{◌≡◌, ◌<◌, ◌+◌, ◌^◌, All, IfOk, length, map};
ghost use Rattle.std.specs.List.{range_with_len};
ghost use Rattle.std.specs.Result.{result_ok};
ghost use Rattle.air_model.specs.Buckets.{IsInRange};
ghost use Rattle.air_model.specs.Reports.{counts_lines, verdict_lines};
ghost use Rattle.receiver_core.specs.Receivers.{heard_count};
ghost use Rattle.listeners.specs.Listeners.{AreNumbered, end_state, hears_one, listener_of};

use crate::listener::Listener;
use air_base::NoMemory;
use air_model::bucket::BucketFault;
use air_model::reports::{CountsLine, VerdictLine};
use bucket_codec::BucketView;
use chunk_program::Planned;
use std::alloc::Global;

/// In how many threads readers hear at most.
pub(crate) const MOST_THREADS: usize = 16;

/// How many records listeners hear of one tape: what they count of them fits 64 bits.
pub const MOST_TAPE_RECORDS: u64 = 1_099_511_627_776;

/// What the sessions of a deck's readers tell: their verdicts in order, reader by reader, and the counts of each.
#[derive(Debug, Drop)]
pub struct Sessions {
    pub verdicts: Vec<VerdictLine>,
    pub counts: Vec<CountsLine>,
}

/// All readers of a deck, before they hear anything.
pub fn listeners_of(alloc: Global, planned: &Planned) -> Result<Vec<Listener>, NoMemory>
    ensures { IfOk result (λ ls. ls.items ≡ map (listener_of planned.now) (range_with_len 0 (length planned.now.readers))) }
{
    let mut listeners = Vec::new(alloc);
    for r in 0..planned.deck().readers() {
        listeners.push(Listener::new(alloc, planned, r)?)?;
    }
    Ok(listeners)
}

/// Lets all hear one member, and gives them back. If memory runs out, they are dropped. What `decode` answers is in range.
pub fn all_hear(
    alloc: Global,
    listeners: Vec<Listener>,
    heard: &Result<BucketView<'_>, BucketFault>,
) -> Result<Vec<Listener>, NoMemory>
    requires counts { All (λ l. heard_count l.state.counts + 1 < 2 ^ 64) listeners.items }
    requires range { IfOk heard.now IsInRange }
    ensures { IfOk result (λ ls. ls.items ≡ map (hears_one (result_ok heard.now)) listeners.items) }
{
    let mut listeners = listeners;
    for listener in listeners.iter_mut() {
        listener.hear(alloc, heard)?;
    }
    Ok(listeners)
}

/// Ends the sessions of all, one after another.
pub fn end_all(alloc: Global, listeners: Vec<Listener>) -> Result<Sessions, NoMemory>
    requires { AreNumbered listeners.items }
    ensures verdicts { IfOk result (λ s. s.verdicts.items ≡ verdict_lines (map end_state listeners.items)) }
    ensures counts { IfOk result (λ s. s.counts.items ≡ counts_lines (map end_state listeners.items)) }
{
    let mut sessions = Sessions {
        verdicts: Vec::new(alloc),
        counts: Vec::new(alloc),
    };
    for listener in listeners {
        sessions = listener.end(alloc, sessions)?;
    }
    Ok(sessions)
}
