//! These pins fix what `item_catalog` reads of short lists of items and of writes. A list is read to the end of its text or
//! isn't taken, and a fault of a write's base is remembered.

ghost use Rattle.std.specs.Prelude.{◌≡◌, [], ◌∷◌, codes, true, false};
ghost use Rattle.item_catalog.specs.KeptLists.{no_items, no_writes};
ghost use Rattle.text_pins.specs.SmallWrites.{one_on_zero, one_write};

use item_catalog::{ItemList, WriteList};

/// The amount of the last write ends where the text ends.
/// Promise: texts are exact
#[tactic(auto, unfolding(air_base::specs::Numbers::number_of, air_base::specs::NumberLists::all_some, item_catalog::specs::Writes::spelled_write, item_catalog::specs::Writes::spelled_value_write, item_catalog::specs::KeptLists::writes_seen))]
pub fn last_part_filled_with_zeros(writes: &mut WriteList, reads: &ItemList, text: &[u8]) -> bool
    requires reads { reads.now.items ≡ 0 ∷ [] }
    requires text { text.now ≡ codes "1=0+5" }
    ensures spelled { result ≡ true }
    ensures writes { writes.new ≡ one_write (one_on_zero false 5) false }
{
    writes.read(2, reads, text)
}

/// A write with a `-` takes its amount from the base.
/// Promise: texts are exact
#[tactic(auto, unfolding(air_base::specs::Numbers::number_of, air_base::specs::NumberLists::all_some, item_catalog::specs::Writes::spelled_write, item_catalog::specs::Writes::spelled_value_write, item_catalog::specs::KeptLists::writes_seen))]
pub fn plus_for_a_minus(writes: &mut WriteList, reads: &ItemList, text: &[u8]) -> bool
    requires reads { reads.now.items ≡ 0 ∷ [] }
    requires text { text.now ≡ codes "1=0-5" }
    ensures spelled { result ≡ true }
    ensures writes { writes.new ≡ one_write (one_on_zero true 5) false }
{
    writes.read(2, reads, text)
}

/// A base that isn't among the reads is remembered.
/// Promise: texts are exact
#[tactic(auto, unfolding(air_base::specs::Numbers::number_of, air_base::specs::NumberLists::all_some, item_catalog::specs::Writes::spelled_write, item_catalog::specs::Writes::spelled_value_write, item_catalog::specs::KeptLists::writes_seen))]
pub fn unread_base_taken(writes: &mut WriteList, reads: &ItemList, text: &[u8]) -> bool
    requires reads { reads.now.items ≡ 1 ∷ [] }
    requires text { text.now ≡ codes "1=0+5" }
    ensures spelled { result ≡ true }
    ensures writes { writes.new ≡ one_write (one_on_zero false 5) true }
{
    writes.read(2, reads, text)
}

/// An empty part after the last space is no item.
/// Promise: texts are exact
#[tactic(auto, unfolding(air_base::specs::Numbers::number_of, air_base::specs::NumberLists::all_some))]
pub fn trailing_space_taken(items: &mut ItemList, text: &[u8]) -> bool
    requires { text.now ≡ codes "0 " }
    ensures { result ≡ false }
{
    items.read(2, text)
}

/// Of a text that isn't a list no item is kept, even if its first parts are items.
/// Promise: a refusal leaves its objects
#[tactic(auto, unfolding(air_base::specs::Numbers::number_of, air_base::specs::NumberLists::all_some))]
pub fn items_kept_of_no_list(items: &mut ItemList, text: &[u8]) -> bool
    requires { text.now ≡ codes "0 x" }
    ensures { items.new ≡ no_items }
{
    items.read(2, text)
}

/// Of a text that isn't a list no write is kept, even if its first parts are writes.
/// Promise: a refusal leaves its objects
#[tactic(auto, unfolding(air_base::specs::Numbers::number_of, air_base::specs::NumberLists::all_some, item_catalog::specs::Writes::spelled_write, item_catalog::specs::Writes::spelled_value_write))]
pub fn writes_kept_of_no_list(writes: &mut WriteList, reads: &ItemList, text: &[u8]) -> bool
    requires { text.now ≡ codes "1=5 x" }
    ensures { writes.new ≡ no_writes }
{
    writes.read(2, reads, text)
}
