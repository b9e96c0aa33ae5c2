//! These pins of `short_columns` say which entries are listed, which bytes are written, and what bytes tell.
//!
//! In cycle 300 there are six items. Item 1 was written in cycle 299, which is 1 cycle ago, and item 4 in cycle 46, which is 254
//! cycles ago. A short column begins at place 1.
#![tactic(auto, unfolding(air_history::specs::Ages::capped, short_columns::specs::Listings::listed, short_columns::specs::Listings::listed_entry, short_columns::specs::Listings::unlisted, short_columns::specs::Listings::rise, short_columns::specs::ShortColumns::short_spelling, short_columns::specs::ShortColumns::raw_pairs, short_columns::specs::ShortColumns::pairs_at, short_columns::specs::ShortColumns::is_young_age, short_columns::specs::ShortColumns::is_listing))]

ghost use Rattle.std.specs.Prelude.{◌≡◌, [], ◌∷◌, true, false};
ghost use Rattle.core_pins.specs.SmallColumns.{listing_bytes, listing_entries, one_pair, two_pairs};

use short_columns::{count_listed, entry_of, fill_entries, has_listing, is_short, put_short};

/// A column whose short bytes are as many as the ages of its items isn't short.
/// Promise: short columns are their definition
pub fn short_at_equal_length() -> bool
    ensures { result ≡ false }
{
    is_short(8, 2)
}

/// One item more makes the short bytes fewer.
/// Promise: short columns are their definition
pub fn dense_though_longer() -> bool
    ensures { result ≡ true }
{
    is_short(9, 2)
}

/// An entry of 255 cycles ago isn't listed, and one of 254 is. It also refuses that entries of 0 are counted.
/// Promise: short columns are their definition
pub fn old_entries_counted(entries: &[u32]) -> usize
    requires { entries.now ≡ 45 ∷ 46 ∷ 0 ∷ 299 ∷ [] }
    ensures { result ≡ 2 }
{
    count_listed(300, entries)
}

/// An item is followed by the age of its own entry, and what is before and after the column stays. It also refuses that the
/// number of items is written for the number of pairs.
/// Promise: short columns are their definition
pub fn entry_for_its_age(out: &mut [u8], entries: &[u32])
    requires out { out.old ≡ 7 ∷ 9 ∷ 9 ∷ 9 ∷ 9 ∷ 9 ∷ 9 ∷ 9 ∷ 9 ∷ 8 ∷ [] }
    requires entries { entries.now ≡ listing_entries }
    ensures { out.new ≡ 7 ∷ 0 ∷ 2 ∷ 0 ∷ 1 ∷ 1 ∷ 0 ∷ 4 ∷ 254 ∷ 8 ∷ [] }
{
    put_short(out, 1, 2, 300, entries);
}

/// Items that rise strictly and have ages are a listing.
/// Promise: short columns are their definition
pub fn every_listing_refused(bytes: &[u8]) -> bool
    requires { bytes.now ≡ listing_bytes }
    ensures { result ≡ true }
{
    has_listing(bytes, 1, 6, 300)
}

/// Items that fall are no listing.
/// Promise: short columns are their definition
pub fn falling_items_taken(bytes: &[u8]) -> bool
    requires { bytes.now ≡ two_pairs 4 1 }
    ensures { result ≡ false }
{
    has_listing(bytes, 1, 6, 300)
}

/// An item that is listed twice makes no listing.
/// Promise: short columns are their definition
pub fn item_listed_twice(bytes: &[u8]) -> bool
    requires { bytes.now ≡ two_pairs 4 4 }
    ensures { result ≡ false }
{
    has_listing(bytes, 1, 6, 300)
}

/// A column of one item can't have two pairs, regardless of their items.
/// Promise: short columns are their definition
pub fn more_pairs_than_items(bytes: &[u8]) -> bool
    requires { bytes.now ≡ two_pairs 0 1 }
    ensures { result ≡ false }
{
    has_listing(bytes, 1, 1, 300)
}

/// None of six items has the number 6.
/// Promise: short columns are their definition
pub fn item_at_the_limit(bytes: &[u8]) -> bool
    requires { bytes.now ≡ one_pair 6 1 }
    ensures { result ≡ false }
{
    has_listing(bytes, 1, 6, 300)
}

/// No entry was written in the cycle that airs it.
/// Promise: short columns are their definition
pub fn age_zero_taken(bytes: &[u8]) -> bool
    requires { bytes.now ≡ one_pair 4 0 }
    ensures { result ≡ false }
{
    has_listing(bytes, 1, 6, 300)
}

/// The age of the entry 0 is never listed.
/// Promise: short columns are their definition
pub fn cap_taken(bytes: &[u8]) -> bool
    requires { bytes.now ≡ one_pair 4 255 }
    ensures { result ≡ false }
{
    has_listing(bytes, 1, 6, 300)
}

/// Before the first cycle nothing was written, so no age is the cycle itself.
/// Promise: short columns are their definition
pub fn age_of_the_whole_air(bytes: &[u8]) -> bool
    requires { bytes.now ≡ one_pair 4 3 }
    ensures { result ≡ false }
{
    has_listing(bytes, 1, 6, 3)
}

/// An item after the last one that is listed has the entry 0, and not that item's.
/// Promise: short columns are their definition
pub fn last_entry_for_an_unlisted(bytes: &[u8]) -> u32
    requires { bytes.now ≡ listing_bytes }
    ensures { result ≡ 0 }
{
    entry_of(bytes, 1, 300, 5)
}

/// The second pair is read too. It also refuses that the age is given for the entry.
/// Promise: short columns are their definition
pub fn first_pair_alone(bytes: &[u8]) -> u32
    requires { bytes.now ≡ listing_bytes }
    ensures { result ≡ 46 }
{
    entry_of(bytes, 1, 300, 4)
}

/// Items that aren't listed get 0, and keep nothing of what was in the slice.
/// Promise: short columns are their definition
pub fn old_entries_kept(bytes: &[u8], out: &mut [u32])
    requires bytes { bytes.now ≡ listing_bytes }
    requires out { out.old ≡ 5 ∷ 5 ∷ 5 ∷ 5 ∷ 5 ∷ 5 ∷ [] }
    ensures { out.new ≡ listing_entries }
{
    fill_entries(bytes, 1, 300, out);
}
