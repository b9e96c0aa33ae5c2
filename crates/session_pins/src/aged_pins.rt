//! Pins of `receiver_core` in version 2: what the bucket of an item does 255 cycles after the held read of another.
#![tactic(auto, unfolding(air_history::specs::Ages::span, air_history::specs::Ages::spans_too_far, air_history::specs::Clashes::least, air_history::specs::Clashes::is_late, air_history::specs::Clashes::clash_by_entries, air_model::specs::Copies::keep, air_model::specs::Copies::without_item, air_model::specs::Copies::with_copy, air_model::specs::Aired::body_fits, air_model::specs::Aired::fits, air_model::specs::Judges::by_entries, air_model::specs::Sessions::query_of, air_model::specs::Sessions::wanted, air_model::specs::Sessions::line_of, air_model::specs::Sessions::with_line, air_model::specs::Sessions::count_opened, air_model::specs::Sessions::count_dozed, air_model::specs::Sessions::count_late, air_model::specs::Sessions::count_refused, air_model::specs::Sessions::count_foreign, air_model::specs::Sessions::next_query, air_model::specs::Sessions::next_attempt, air_model::specs::Sessions::accept_if_whole, air_model::specs::Sessions::hold, air_model::specs::Sessions::abort, air_model::specs::Sessions::drop_copy, air_model::specs::Sessions::copy_of, air_model::specs::Sessions::decide, air_model::specs::Sessions::offer, air_model::specs::Sessions::open_bucket, air_model::specs::Sessions::end_aged, air_model::specs::Sessions::judge_read, air_model::specs::Sessions::hear_read, air_model::specs::Sessions::hear, receiver_core::specs::FeedAnswers::fed_read, receiver_core::specs::FeedAnswers::fed_of, receiver_core::specs::LastReads::last_reads))]

ghost use Rattle.std.specs.Prelude.{◌≡◌, [], ◌∷◌, Ok};
ghost use Rattle.air_base.specs.declared.verdicts.Policy.TheVariants.{FMatrix};
ghost use Rattle.air_base.specs.declared.verdicts.VerdictKind.TheVariants.{Aged};
ghost use Rattle.air_model.specs.Sessions.{start};
ghost use Rattle.session_pins.specs.AgedReceivers.{aging_air, early_bucket, far_bucket, far_read, held_read, keeping};
ghost use Rattle.session_pins.specs.SmallReceivers.{air_by, asker_in, counts, holding, session_line, value_read};

use air_model::bucket::BucketFault;
use bucket_codec::BucketView;
use receiver_core::{Fed, Receiver};

/// A receiver of a deck of version 1 hears no bucket of version 2.
/// Promise: a refused or foreign bucket changes its count alone
pub fn newer_version_fits(
    receiver: &mut Receiver,
    heard: &Result<BucketView<'_>, BucketFault>,
) -> Fed
    requires receiver { receiver.old ≡ asker_in (air_by FMatrix) start }
    requires heard { heard.now ≡ Ok early_bucket }
    ensures fed { result ≡ Fed.Foreign }
    ensures state { receiver.new.state ≡ record start { counts = counts 0 0 0 0 1 0 } }
{
    receiver.hear(heard)
}

/// A read that is too far from the held one and also clashes with it makes the attempt an aged one.
/// Promise: the receiver steps as its session
pub fn clash_asked_before_the_span(
    receiver: &mut Receiver,
    heard: &Result<BucketView<'_>, BucketFault>,
) -> Fed
    requires receiver { receiver.old ≡ asker_in aging_air (holding 1) }
    requires heard { heard.now ≡ Ok far_bucket }
    ensures fed { result ≡ Fed.Opened }
    ensures lines { receiver.new.state.lines ≡ session_line 0 1 (Aged 1 256) (value_read 0 1 10 ∷ []) ∷ [] }
{
    receiver.hear(heard)
}

/// An aged attempt leaves the copy of the held read, with which the next one begins.
/// Promise: the receiver steps as its session
pub fn copy_dropped_by_an_aged_attempt(
    receiver: &mut Receiver,
    heard: &Result<BucketView<'_>, BucketFault>,
) -> Fed
    requires receiver { receiver.old ≡ keeping }
    requires heard { heard.now ≡ Ok far_bucket }
    ensures fed { result ≡ Fed.Opened }
    ensures state { receiver.new.state ≡ record start {
      attempt = 2;
      copies = held_read ∷ far_read ∷ [];
      now = 256;
      counts = counts 2 0 0 0 0 0;
      lines = session_line 0 1 (Aged 1 256) (value_read 0 1 10 ∷ []) ∷ [];
    } }
{
    receiver.hear(heard)
}

/// The read that makes an attempt an aged one is kept as a copy, even if this was the only try.
/// Promise: the receiver steps as its session
pub fn aged_read_not_offered(
    receiver: &mut Receiver,
    heard: &Result<BucketView<'_>, BucketFault>,
) -> Fed
    requires receiver { receiver.old ≡ asker_in aging_air (holding 1) }
    requires heard { heard.now ≡ Ok far_bucket }
    ensures state { receiver.new.state ≡ record start {
      query = 1;
      copies = far_read ∷ [];
      now = 256;
      counts = counts 2 0 0 0 0 0;
      lines = session_line 0 1 (Aged 1 256) (value_read 0 1 10 ∷ []) ∷ [];
    } }
{
    receiver.hear(heard)
}
