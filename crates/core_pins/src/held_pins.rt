//! These pins of `held_reads` say what is found among two held reads over three items.
//!
//! A clash names a held read by its item and cycle.
#![tactic(auto, unfolding(air_history::specs::Clashes::least))]

ghost use Rattle.std.specs.Prelude.{◌≡◌, [], ◌∷◌, Some, true, false};
ghost use Rattle.core_pins.specs.SmallReads.{read_with_entries, two};

use air_base::Clash;
use held_reads::{HeldEntries, lesser_clash};

/// A clash has the cycle in which its item is held, and not the entry that reaches it.
/// Promise: the held-read check is its definition
pub fn entry_for_the_held_cycle(held: &HeldEntries, entries: &[u32]) -> Option<Clash>
    requires held { held.now ≡ two (read_with_entries 0 1 0 0 0) (read_with_entries 1 2 0 0 0) }
    requires entries { entries.now ≡ 0 ∷ 5 ∷ 0 ∷ [] }
    ensures { result ≡ Some (record { item = 1; cycle = 2 }) }
{
    held.least_reached(entries)
}

/// Reads whose cycles are 254 apart aren't too far apart. It refuses that 254 are too many.
/// Promise: the held-read check is its definition
pub fn apart_at_254(held: &HeldEntries) -> bool
    requires { held.now ≡ two (read_with_entries 0 1 0 0 0) (read_with_entries 1 3 0 0 0) }
    ensures { result ≡ false }
{
    held.spans(255)
}

/// Reads whose cycles are 255 apart are too far apart. It refuses that only more than 255 are too many, that the new read is
/// left out, and that only the last held cycle is tested.
/// Promise: the held-read check is its definition
pub fn apart_above_255(held: &HeldEntries) -> bool
    requires { held.now ≡ two (read_with_entries 0 300 0 0 0) (read_with_entries 1 299 0 0 0) }
    ensures { result ≡ true }
{
    held.spans(45)
}

/// The held reads are compared with each other too. It refuses that each of them is compared only with the new one.
/// Promise: the held-read check is its definition
pub fn apart_from_the_new_alone(held: &HeldEntries) -> bool
    requires { held.now ≡ two (read_with_entries 0 1 0 0 0) (read_with_entries 1 256 0 0 0) }
    ensures { result ≡ true }
{
    held.spans(128)
}

/// The last cycle isn't the first.
/// Promise: the held-read check is its definition
pub fn first_cycle_for_last(held: &HeldEntries) -> Option<u32>
    requires { held.now ≡ two (read_with_entries 0 1 0 0 0) (read_with_entries 1 3 0 0 0) }
    ensures { result ≡ Some 3 }
{
    held.last()
}

/// Of two clashes, the one with the lesser item is named, also if it comes later.
/// Promise: the held-read check is its definition
pub fn first_held_for_least(best: Option<Clash>, clash: Clash) -> Clash
    requires best { best ≡ Some (record { item = 5; cycle = 1 }) }
    requires clash { clash ≡ record { item = 2; cycle = 3 } }
    ensures { result ≡ record { item = 2; cycle = 3 } }
{
    lesser_clash(best, clash)
}

/// A held read keeps the entries that were heard with it.
/// Promise: the held-read check is its definition
pub fn hold_forgets_the_column(held: &mut HeldEntries, entries: &[u32])
    requires held { held.old ≡ record { n = 3; reads = [] } }
    requires entries { entries.now ≡ 0 ∷ 1 ∷ 1 ∷ [] }
    ensures { held.new ≡ record { n = 3; reads = read_with_entries 1 2 0 1 1 ∷ [] } }
{
    held.hold(1, 2, entries);
}

/// An entry of the cycle itself is not below it.
/// Promise: the held-read check is its definition
pub fn not_above_for_below(held: &HeldEntries) -> Option<Clash>
    requires { held.now ≡ two (read_with_entries 0 4 0 0 2) (read_with_entries 1 4 0 0 3) }
    ensures { result ≡ Some (record { item = 1; cycle = 4 }) }
{
    held.least_having(2, 3)
}
