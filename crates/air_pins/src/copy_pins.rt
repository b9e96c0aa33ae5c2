//! These pins of `pix_cache` say what a reader keeps of two or three items: which copy is kept, which one is dropped, and what
//! is lent. The copy with the least PIX number is dropped first.
#![tactic(auto, unfolding(air_model::specs::Copies::keep, air_model::specs::Copies::with_copy, air_model::specs::Copies::without_item, pix_cache::specs::Caches::copy_among))]

ghost use Rattle.std.specs.Prelude.{◌≡◌, [], ◌∷◌, MatchOption};
ghost use Rattle.air_pins.specs.SmallCaches.{cache, of_two, of_three};

use pix_cache::{KeepAnswer, Kept, PixCache};

/// A newcomer with a lesser PIX number than the copy isn't kept if there is no room.
/// Promise: the cache keeps the greatest
pub fn cache_always_places(copies: &mut PixCache, column: &[u32]) -> KeepAnswer
    requires copies { copies.old ≡ cache 1 (5 ∷ 1 ∷ []) (of_two 0 2 ∷ []) }
    requires column { column.now ≡ 0 ∷ 0 ∷ [] }
    ensures answer { result ≡ KeepAnswer.Declined }
    ensures copies { copies.new ≡ cache 1 (5 ∷ 1 ∷ []) (of_two 0 2 ∷ []) }
{
    copies.keep(1, 3, 70, column)
}

/// A copy is lent with its cycle and its value.
/// Promise: the cache keeps the greatest
pub fn cycle_lent_for_the_value(copies: &PixCache) -> Option<Kept<'_>>
    requires { copies.now ≡ cache 1 (5 ∷ 1 ∷ []) (of_two 1 2 ∷ []) }
    ensures { MatchOption result ⊥ (λ kept. (kept.cycle ≡ 2) × (kept.value ≡ 70) × (kept.column.now ≡ 0 ∷ 0 ∷ [])) }
{
    copies.get(1)
}

/// A copy that is dropped is gone.
/// Promise: the cache keeps the greatest
pub fn dropped_copy_stays(copies: &mut PixCache)
    requires { copies.old ≡ cache 2 (5 ∷ 1 ∷ []) (of_two 0 2 ∷ of_two 1 2 ∷ []) }
    ensures { copies.new ≡ cache 2 (5 ∷ 1 ∷ []) (of_two 0 2 ∷ []) }
{
    copies.drop_copy(1);
}

/// A copy that gives way is gone.
/// Promise: the cache keeps the greatest
pub fn evicted_copy_stays(copies: &mut PixCache, column: &[u32]) -> KeepAnswer
    requires copies { copies.old ≡ cache 1 (1 ∷ 5 ∷ []) (of_two 0 2 ∷ []) }
    requires column { column.now ≡ 0 ∷ 0 ∷ [] }
    ensures answer { result ≡ KeepAnswer.Evicted 0 }
    ensures copies { copies.new ≡ cache 1 (1 ∷ 5 ∷ []) (of_two 1 3 ∷ []) }
{
    copies.keep(1, 3, 70, column)
}

/// The copy with the least PIX number is dropped, and the answer names it. It also refuses that the newcomer is named instead.
/// Promise: the cache keeps the greatest
pub fn greatest_goes(copies: &mut PixCache, column: &[u32]) -> KeepAnswer
    requires copies { copies.old ≡ cache 2 (1 ∷ 5 ∷ 3 ∷ []) (of_three 0 2 ∷ of_three 1 2 ∷ []) }
    requires column { column.now ≡ 0 ∷ 0 ∷ 0 ∷ [] }
    ensures answer { result ≡ KeepAnswer.Evicted 0 }
    ensures copies { copies.new ≡ cache 2 (1 ∷ 5 ∷ 3 ∷ []) (of_three 1 2 ∷ of_three 2 3 ∷ []) }
{
    copies.keep(2, 3, 70, column)
}

/// After a change of the PIX numbers an offer is decided by the new ones. These are two calls, since the effect of the first
/// shows only in the second.
/// Promise: the cache keeps the greatest
pub fn reorder_keeps_old_numbers(copies: &mut PixCache, pix: &[u64], column: &[u32]) -> KeepAnswer
    requires copies { copies.old ≡ cache 1 (1 ∷ 3 ∷ []) (of_two 0 2 ∷ []) }
    requires pix { pix.now ≡ 5 ∷ 3 ∷ [] }
    requires column { column.now ≡ 0 ∷ 0 ∷ [] }
    ensures answer { result ≡ KeepAnswer.Declined }
    ensures copies { copies.new ≡ cache 1 (5 ∷ 3 ∷ []) (of_two 0 2 ∷ []) }
{
    copies.reorder(pix);
    copies.keep(1, 3, 70, column)
}

/// A newcomer takes the place of its item's copy, with its own cycle.
/// Promise: the cache keeps the greatest
pub fn replaced_keeps_its_old_cycle(copies: &mut PixCache, column: &[u32]) -> KeepAnswer
    requires copies { copies.old ≡ cache 1 (5 ∷ 1 ∷ []) (of_two 0 2 ∷ []) }
    requires column { column.now ≡ 0 ∷ 0 ∷ [] }
    ensures answer { result ≡ KeepAnswer.Replaced }
    ensures copies { copies.new ≡ cache 1 (5 ∷ 1 ∷ []) (of_two 0 3 ∷ []) }
{
    copies.keep(0, 3, 70, column)
}

/// Of two items with one PIX number, the one with the smaller item number stays.
/// Promise: the cache keeps the greatest
pub fn smaller_item_goes_among_equals(copies: &mut PixCache, column: &[u32]) -> KeepAnswer
    requires copies { copies.old ≡ cache 1 (4 ∷ 4 ∷ []) (of_two 0 2 ∷ []) }
    requires column { column.now ≡ 0 ∷ 0 ∷ [] }
    ensures answer { result ≡ KeepAnswer.Declined }
    ensures copies { copies.new ≡ cache 1 (4 ∷ 4 ∷ []) (of_two 0 2 ∷ []) }
{
    copies.keep(1, 3, 70, column)
}
