//! Pins of `receiver_core`: what one heard bucket does to a receiver of two items.
#![tactic(auto, unfolding(air_history::specs::Clashes::least, air_history::specs::Clashes::is_late, air_history::specs::Clashes::clash_by_entries, air_model::specs::Copies::keep, air_model::specs::Copies::without_item, air_model::specs::Copies::with_copy, air_model::specs::Aired::body_fits, air_model::specs::Aired::fits, air_model::specs::Judges::by_entries, air_model::specs::Sessions::query_of, air_model::specs::Sessions::wanted, air_model::specs::Sessions::line_of, air_model::specs::Sessions::with_line, air_model::specs::Sessions::count_opened, air_model::specs::Sessions::count_dozed, air_model::specs::Sessions::count_late, air_model::specs::Sessions::count_refused, air_model::specs::Sessions::count_foreign, air_model::specs::Sessions::next_query, air_model::specs::Sessions::next_attempt, air_model::specs::Sessions::accept_if_whole, air_model::specs::Sessions::hold, air_model::specs::Sessions::abort, air_model::specs::Sessions::drop_copy, air_model::specs::Sessions::copy_of, air_model::specs::Sessions::decide, air_model::specs::Sessions::offer, air_model::specs::Sessions::open_bucket, air_model::specs::Sessions::end_aged, air_model::specs::Sessions::judge_read, air_model::specs::Sessions::hear_read, air_model::specs::Sessions::hear, receiver_core::specs::FeedAnswers::fed_read, receiver_core::specs::FeedAnswers::fed_of, receiver_core::specs::LastReads::last_reads))]

ghost use Rattle.std.specs.Prelude.{◌≡◌, false, true, [], ◌∷◌, Err, IfOk, Ok, Some};
ghost use Rattle.air_base.specs.declared.verdicts.Policy.TheVariants.{FMatrix, RMatrix};
ghost use Rattle.air_base.specs.declared.verdicts.VerdictKind.TheVariants.{Abort};
ghost use Rattle.air_model.specs.Buckets.{Column, Vector};
ghost use Rattle.air_model.specs.Sessions.{start};
ghost use Rattle.chunk_program.specs.Editions.{plans_in};
ghost use Rattle.session_pins.specs.EditionReceivers.{accepted_by_one, asking, changed_bucket, keeping_one};
ghost use Rattle.session_pins.specs.KeptCopies.{keeping_both};
ghost use Rattle.session_pins.specs.SmallBuckets.{bucket};
ghost use Rattle.session_pins.specs.SmallDecks.{tiered};
ghost use Rattle.session_pins.specs.SmallReceivers.{air_by, asker_in, counts, heard as heard_read, holding, session_line, value_read};

use air_base::NoMemory;
use air_model::bucket::BucketFault;
use bucket_codec::BucketView;
use chunk_program::Plans;
use item_catalog::Deck;
use receiver_core::{Fed, Receiver, Step};
use std::alloc::Global;

/// What is no bucket is refused with its own fault, and changes only that count (refused bucket moves now).
/// Promise: a refused or foreign bucket changes its count alone
pub fn every_fault_told_as_shape(
    receiver: &mut Receiver,
    heard: &Result<BucketView<'_>, BucketFault>,
) -> Fed
    requires receiver { receiver.old ≡ asker_in (air_by FMatrix) (holding 1) }
    requires heard { heard.now ≡ Err BucketFault.Magic }
    ensures fed { result ≡ Fed.Refused BucketFault.Magic }
    ensures state { receiver.new.state ≡ record (holding 1) { counts = counts 1 0 0 1 0 0 } }
{
    receiver.hear(heard)
}

/// If the first item of a query is held, the second is wanted.
/// Promise: the receiver steps as its session
pub fn held_item_wanted_again(receiver: &Receiver) -> Option<u16>
    requires { receiver.now ≡ asker_in (air_by FMatrix) (holding 1) }
    ensures { result ≡ Some 1 }
{
    receiver.wanted()
}

/// Under R-Matrix a read of an older cycle than the held one comes too late, even by one cycle (one cycle older not late).
/// Promise: the receiver steps as its session
/// Promise: accepted reads share a cycle
pub fn late_read_opened(receiver: &mut Receiver, heard: &Result<BucketView<'_>, BucketFault>) -> Fed
    requires receiver { receiver.old ≡ asker_in (air_by RMatrix) (holding 3) }
    requires heard { heard.now ≡ Ok (bucket 2 1 (Vector 1 20 (0 ∷ 0 ∷ []))) }
    ensures fed { result ≡ Fed.Late }
    ensures state { receiver.new.state ≡ record (holding 3) { counts = counts 1 0 1 0 0 0 } }
{
    receiver.hear(heard)
}

/// A bucket of another edition is foreign.
/// Promise: a refused or foreign bucket changes its count alone
pub fn loose_decoder_other_edition_opened(
    receiver: &mut Receiver,
    heard: &Result<BucketView<'_>, BucketFault>,
) -> Fed
    requires receiver { receiver.old ≡ asker_in (air_by FMatrix) start }
    requires heard { heard.now ≡ Ok (record (bucket 1 0 (Column 0 10 (0 ∷ 0 ∷ []))) { edition = 1 }) }
    ensures fed { result ≡ Fed.Foreign }
    ensures state { receiver.new.state ≡ record start { counts = counts 0 0 0 0 1 0 } }
{
    receiver.hear(heard)
}

/// A read that clashes with a held one ends the attempt, which was the only try (one try too many), and is kept as a copy.
/// Promise: the cache keeps the greatest
/// Promise: the receiver steps as its session
pub fn offer_left_out_after_an_abort(
    receiver: &mut Receiver,
    heard: &Result<BucketView<'_>, BucketFault>,
) -> Fed
    requires receiver { receiver.old ≡ asker_in (air_by FMatrix) (holding 1) }
    requires heard { heard.now ≡ Ok (bucket 2 1 (Column 1 25 (1 ∷ 1 ∷ []))) }
    ensures fed { result ≡ Fed.Opened }
    ensures state { receiver.new.state ≡ record start {
      query = 1;
      copies = heard_read 1 2 25 (1 ∷ 1 ∷ []) ∷ [];
      now = 2;
      counts = counts 2 0 0 0 0 0;
      lines = session_line 0 1 (Abort 1 2 0) (value_read 0 1 10 ∷ []) ∷ [];
    } }
    ensures last { receiver.new.last ≡ value_read 0 1 10 ∷ [] }
{
    receiver.hear(heard)
}

/// A kept copy that clashes with a held read is dropped, and the attempt waits for its item on the air: no verdict is given (abort on a kept copy).
/// Promise: the receiver steps as its session
pub fn abort_on_kept_copy(receiver: &mut Receiver) -> Step
    requires { receiver.old ≡ keeping_both }
    ensures step { result ≡ Step.Waiting }
    ensures state { receiver.new.state ≡ record keeping_both.state { copies = heard_read 0 1 10 (0 ∷ 0 ∷ []) ∷ [] } }
{
    receiver.step()
}

/// Each bucket that is slept through is counted as dozed, and the newest of their cycles is the newest heard one (time stops while dozing).
/// Promise: the receiver steps as its session
pub fn dozed_buckets_uncounted(receiver: &mut Receiver)
    requires { receiver.old ≡ asker_in (air_by FMatrix) (holding 1) }
    ensures { receiver.new.state ≡ record (holding 1) { now = 4; counts = counts 1 3 0 0 0 0 } }
{
    receiver.doze(3, 4)
}

/// Where an older cycle is slept through, the newest heard one stays.
/// Promise: the receiver steps as its session
pub fn time_set_back_by_dozing(receiver: &mut Receiver)
    requires { receiver.old ≡ asker_in (air_by FMatrix) (holding 5) }
    ensures { receiver.new.state ≡ record (holding 5) { counts = counts 1 2 0 0 0 0 } }
{
    receiver.doze(2, 3)
}

/// An item's PIX number is its rate times the number of its disk's chunks: for item 0 twice two, and for item 1 three times one.
/// Promise: the cache keeps the greatest
pub fn cache_by_rate(alloc: Global, deck: &Deck, plans: &Plans) -> Result<Receiver, NoMemory>
    requires deck { deck.now ≡ tiered }
    requires planned { plans.now ≡ plans_in deck.now }
    ensures { IfOk result (λ r. r.air.pix ≡ (4 ∷ 3 ∷ []) ∷ []) }
{
    let receiver = Receiver::new(alloc, deck, 0, plans)?;
    Ok(receiver)
}

/// When the program changes, the copies are put in the new order before the read is offered: item 1 is worth more from then on.
/// Promise: the cache keeps the greatest
pub fn old_order_kept(receiver: &mut Receiver, heard: &Result<BucketView<'_>, BucketFault>) -> Fed
    requires receiver { receiver.old ≡ asking 1 (keeping_one 1 (heard_read 0 1 10 (0 ∷ 0 ∷ []))) }
    requires heard { heard.now ≡ Ok changed_bucket }
    ensures fed { result ≡ Fed.Opened }
    ensures state { receiver.new.state ≡ accepted_by_one 2 (heard_read 1 2 20 (0 ∷ 0 ∷ [])) (value_read 1 2 20) }
{
    receiver.hear(heard)
}

/// The read of an older bucket is also offered by the order of the newest heard cycle, in which the kept copy is worth more.
/// Promise: the cache keeps the greatest
pub fn order_by_own_cycle(
    receiver: &mut Receiver,
    heard: &Result<BucketView<'_>, BucketFault>,
) -> Fed
    requires receiver { receiver.old ≡ asking 0 (keeping_one 2 (heard_read 1 2 20 (0 ∷ 0 ∷ []))) }
    requires heard { heard.now ≡ Ok (bucket 1 0 (Column 0 10 (0 ∷ 0 ∷ []))) }
    ensures fed { result ≡ Fed.Opened }
    ensures state { receiver.new.state ≡ accepted_by_one 2 (heard_read 1 2 20 (0 ∷ 0 ∷ [])) (value_read 0 1 10) }
{
    receiver.hear(heard)
}

/// A bucket is judged by the edition of its own cycle, even if the program has changed since (judged by the newest edition).
/// Promise: a refused or foreign bucket changes its count alone
pub fn old_bucket_foreign(receiver: &Receiver, heard: &BucketView<'_>) -> bool
    requires receiver { receiver.now ≡ asking 0 (keeping_one 2 (heard_read 1 2 20 (0 ∷ 0 ∷ []))) }
    requires heard { heard.now ≡ bucket 1 0 (Column 0 10 (0 ∷ 0 ∷ [])) }
    ensures { result ≡ true }
{
    receiver.fits(heard)
}

/// A bucket in the newest edition fits in no cycle before it.
/// Promise: a refused or foreign bucket changes its count alone
pub fn newest_edition_in_any_cycle(receiver: &Receiver, heard: &BucketView<'_>) -> bool
    requires receiver { receiver.now ≡ asking 0 (keeping_one 2 (heard_read 1 2 20 (0 ∷ 0 ∷ []))) }
    requires heard { heard.now ≡ record changed_bucket { cycle = 1 } }
    ensures { result ≡ false }
{
    receiver.fits(heard)
}
