//! These pins of `disk_split` say which sizes are best for decks of two disks, what they cost, and which decks are refused.
//!
//! The decks of 200 and of 256 items have disks with the frequencies 64 and 63 or 3, so some or all of their splits are too
//! long. No deck has a search of exactly the limit, so the limit is pinned at `check_size`, which `best_split` uses to refuse.

ghost use Rattle.std.specs.Prelude.{◌≡◌, ◌⊎◌, [], ◌∷◌, length, IfErr, IfOk, IsErr};
ghost use Rattle.air_model.specs.Decks.{rates_in};
ghost use Rattle.disk_split.specs.declared.splits.SplitFault.TheVariants as fault;
ghost use Rattle.air_pins.specs.SmallPrograms.{spec};
ghost use Rattle.air_pins.specs.SmallSplits.{but_the_last, five, six, unrated};

use disk_split::{Split, SplitFault, best_split, check_size};
use item_catalog::Deck;
use std::alloc::Global;

/// Each disk has at least one item, also if nothing costs anything.
/// Promise: the split is the least
pub fn disk_that_takes_no_item(alloc: Global, deck: &Deck) -> Result<Split, SplitFault>
    requires { deck.now ≡ unrated }
    ensures sizes { IfOk result (λ split. split.sizes ≡ 1 ∷ 2 ∷ []) }
    ensures cost { IfOk result (λ split. split.cost ≡ 0) }
{
    best_split(alloc, deck)
}

/// Of the splits that cost least, the one with the smallest first disk is given. It also refuses the first minor length that
/// reaches the cost, which is that of 4 2, and the deck's own sizes.
/// Promise: the split is the least
pub fn greatest_list_among_equals(alloc: Global, deck: &Deck) -> Result<Split, SplitFault>
    requires { deck.now ≡ six }
    ensures sizes { IfOk result (λ split. split.sizes ≡ 1 ∷ 5 ∷ []) }
    ensures cost { IfOk result (λ split. split.cost ≡ 120) }
    ensures given { IfOk result (λ split. split.given ≡ 128) }
{
    best_split(alloc, deck)
}

/// The split 255 1 costs less than any short one, and isn't given, since its program has 16,512 slots.
/// Promise: the split is the least
pub fn long_split_that_costs_less(alloc: Global, deck: &Deck) -> Result<Split, SplitFault>
    requires rates { rates_in deck.now ≡ but_the_last }
    requires disks { deck.now.disks ≡ spec 255 64 ∷ spec 1 3 ∷ [] }
    ensures { IfOk result (λ split. split.sizes ≡ 255 ∷ 1 ∷ [] → ⊥) }
{
    best_split(alloc, deck)
}

/// The deck's own program has 20,160 slots, and the split 189 11 has 16,128, so the deck isn't refused.
/// Promise: every answer is a named one
/// Promise: the split is the least
pub fn own_slots_refused(alloc: Global, deck: &Deck) -> Result<Split, SplitFault>
    requires items { length deck.now.items ≡ 200 }
    requires disks { deck.now.disks ≡ spec 199 64 ∷ spec 1 63 ∷ [] }
    ensures { IfErr result (λ e. e ≡ fault.NoMemory) }
{
    best_split(alloc, deck)
}

/// The deck's own program has 24,192 slots, and each split has 20,160 or more: that number is reported.
/// Promise: every answer is a named one
/// Promise: the split is the least
pub fn own_slots_told(alloc: Global, deck: &Deck) -> Result<Split, SplitFault>
    requires items { length deck.now.items ≡ 256 }
    requires disks { deck.now.disks ≡ spec 190 64 ∷ spec 66 63 ∷ [] }
    ensures refused { IsErr result }
    ensures slots { IfErr result (λ e. (e ≡ fault.TooLong 20160) ⊎ (e ≡ fault.NoMemory)) }
{
    best_split(alloc, deck)
}

/// A search of exactly the limit isn't too much.
/// Promise: the split is the least
pub fn too_much_from_the_limit_on() -> Result<(), SplitFault>
    ensures { IfErr result (λ e. ⊥) }
{
    check_size(600_000)
}

/// A search of one more is too much, and its size is reported.
/// Promise: the split is the least
pub fn too_much_let_through() -> Result<(), SplitFault>
    ensures refused { IsErr result }
    ensures product { IfErr result (λ e. e ≡ fault.TooMuch 600_001) }
{
    check_size(600_001)
}

/// A cost counts the chunks of each disk: without them the fewest slots, 1 4, would be best. It also refuses the deck's own
/// sizes.
/// Promise: the split is the least
pub fn weight_without_its_chunks(alloc: Global, deck: &Deck) -> Result<Split, SplitFault>
    requires { deck.now ≡ five }
    ensures sizes { IfOk result (λ split. split.sizes ≡ 3 ∷ 2 ∷ []) }
    ensures cost { IfOk result (λ split. split.cost ≡ 80) }
    ensures given { IfOk result (λ split. split.given ≡ 95) }
{
    best_split(alloc, deck)
}
