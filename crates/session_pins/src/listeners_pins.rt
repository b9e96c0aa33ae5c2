//! Pins of `listeners`: a listener that hears one bucket, or ends, and readers that hear a tape of two buckets.
#![tactic(auto, unfolding(air_history::specs::Clashes::least, air_history::specs::Clashes::is_late, air_history::specs::Clashes::clash_by_entries, air_model::specs::Copies::keep, air_model::specs::Copies::without_item, air_model::specs::Copies::with_copy, air_model::specs::Aired::body_fits, air_model::specs::Aired::fits, air_model::specs::Judges::by_entries, air_model::specs::Sessions::query_of, air_model::specs::Sessions::wanted, air_model::specs::Sessions::line_of, air_model::specs::Sessions::with_line, air_model::specs::Sessions::count_opened, air_model::specs::Sessions::count_dozed, air_model::specs::Sessions::count_late, air_model::specs::Sessions::count_refused, air_model::specs::Sessions::count_foreign, air_model::specs::Sessions::next_query, air_model::specs::Sessions::next_attempt, air_model::specs::Sessions::accept_if_whole, air_model::specs::Sessions::hold, air_model::specs::Sessions::abort, air_model::specs::Sessions::drop_copy, air_model::specs::Sessions::copy_of, air_model::specs::Sessions::decide, air_model::specs::Sessions::offer, air_model::specs::Sessions::open_bucket, air_model::specs::Sessions::end_aged, air_model::specs::Sessions::judge_read, air_model::specs::Sessions::hear_read, air_model::specs::Sessions::hear, air_model::specs::Sessions::turn_with, air_model::specs::Sessions::turn, air_model::specs::Sessions::settle, air_model::specs::Sessions::end_query, air_model::specs::Sessions::end, listeners::specs::Listeners::hears_one, listeners::specs::Listeners::end_state))]

ghost use Rattle.std.specs.Prelude.{◌≡◌, [], ◌∷◌, IfOk, Ok, OnOk};
ghost use Rattle.air_base.specs.declared.verdicts.VerdictKind.TheVariants.{Unfinished};
ghost use Rattle.air_history.specs.declared.histories.Event.TheVariants.{Start};
ghost use Rattle.air_model.specs.Buckets.{Column};
ghost use Rattle.air_model.specs.Sessions.{start};
ghost use Rattle.air_model.specs.Tapes.{tape_read};
ghost use Rattle.session_pins.specs.SmallBuckets.{both_records, bucket, second_record};
ghost use Rattle.session_pins.specs.SmallDecks.{noisy};
ghost use Rattle.session_pins.specs.SmallListeners.{accepted, asleep, listener_in};
ghost use Rattle.session_pins.specs.SmallReceivers.{counted, counts, first_query_line, heard as heard_read, holding, value_read};

use air_base::NoMemory;
use air_history::Event;
use air_model::bucket::BucketFault;
use bucket_codec::BucketView;
use chunk_program::Planned;
use listeners::{Listener, Sessions, Together, history_sessions};
use std::alloc::Global;
use std::thread::Threads;

/// A listener hears what was read of the bytes: item 0 is held, and kept as a copy.
/// Promise: tune prints its session
pub fn every_record_refused_to_all(
    listener: &mut Listener,
    alloc: Global,
    heard: &Result<BucketView<'_>, BucketFault>,
) -> Result<(), NoMemory>
    requires listener { listener.old ≡ listener_in 0 start }
    requires heard { heard.now ≡ Ok (bucket 1 0 (Column 0 10 (0 ∷ 0 ∷ []))) }
    ensures { OnOk result (listener.new ≡ listener_in 0 (record (holding 1) { copies = heard_read 0 1 10 (0 ∷ 0 ∷ []) ∷ [] })) }
{
    listener.hear(alloc, heard)
}

/// The lines of a session are those of its own reader, and each has its reads (lines without their reads).
/// Promise: script, drill and plan print their texts
/// Promise: tune prints its session
pub fn lines_of_the_first_reader(
    listener: Listener,
    alloc: Global,
    before: Sessions,
) -> Result<Sessions, NoMemory>
    requires listener { listener ≡ listener_in 1 (holding 1) }
    requires verdicts { before.verdicts.items ≡ [] }
    requires lines { before.counts.items ≡ [] }
    ensures verdicts { IfOk result (λ s. s.verdicts.items ≡ first_query_line 1 Unfinished (value_read 0 1 10 ∷ []) ∷ []) }
    ensures lines { IfOk result (λ s. s.counts.items ≡ counted 1 (counts 1 0 0 0 0 0) ∷ []) }
{
    listener.end(alloc, before)
}

/// Each reader hears through its own ether, by its own generator (readers share one generator), and in the order of the air (pairs heard in the
/// other order). Out of memory, no session is answered (out of memory told as heard).
/// Promise: the ether is its definition
/// Promise: script, drill and plan print their texts
pub fn lossy_ethers_heard_together(
    alloc: Global,
    planned: &Planned,
    events: &[Event],
) -> Result<Sessions, NoMemory>
    requires deck { planned.now ≡ noisy }
    requires events { events.now ≡ Start ∷ [] }
    ensures verdicts { IfOk result (λ s. s.verdicts.items ≡ first_query_line 0 Unfinished [] ∷ first_query_line 1 Unfinished (value_read 0 1 10 ∷ []) ∷ []) }
    ensures lines { IfOk result (λ s. s.counts.items ≡ counted 0 (counts 0 0 0 0 0 0) ∷ counted 1 (counts 1 1 0 0 0 0) ∷ []) }
{
    planned.shows_planned();
    let sessions = history_sessions(alloc, planned, events)?;
    Ok(sessions)
}

/// Readers who hear a piece side by side hear all of it in its order, or one of them is out of memory (out of memory in a piece told as done).
/// Promise: readers side by side are as one after another
/// Promise: tune prints its session
pub fn piece_heard_in_two_orders<T: Threads + Sync>(
    readers: &mut Together,
    threads: &T,
    alloc: Global,
    tape: &[u8],
) -> Result<(), NoMemory>
    requires readers { readers.old ≡ listener_in 0 start ∷ listener_in 1 start ∷ [] }
    requires tape { tape_read tape.now ≡ both_records }
    ensures { OnOk result (readers.new ≡ accepted 0 ∷ accepted 1 ∷ []) }
{
    readers.hear(threads, alloc, tape)
}

/// A bucket that no reader wants is counted by each of them, and makes its cycle the newest that they heard.
/// Promise: the receiver steps as its session
pub fn unwanted_bucket_uncounted<T: Threads + Sync>(
    readers: &mut Together,
    threads: &T,
    alloc: Global,
    tape: &[u8],
) -> Result<(), NoMemory>
    requires readers { readers.old ≡ listener_in 0 start ∷ listener_in 1 start ∷ [] }
    requires tape { tape_read tape.now ≡ second_record }
    ensures { OnOk result (readers.new ≡ asleep 0 ∷ asleep 1 ∷ []) }
{
    readers.hear(threads, alloc, tape)
}
