//! These pins of `column_check` say whether a read is consistent with two held ones under F-Matrix.
//!
//! A clash names a held read by its item and cycle.
#![tactic(auto, unfolding(air_history::specs::Clashes::least, air_history::specs::Clashes::clash_by_entries))]

ghost use Rattle.std.specs.Prelude.{◌≡◌, [], ◌∷◌, Some, None};
ghost use Rattle.core_pins.specs.SmallReads.{read_with_entries, two};

use air_base::Clash;
use column_check::Held;

/// A read clashes with no held one if neither column has the other's item at the other's cycle or later.
/// Promise: the held-read check is its definition
pub fn always_aborts(held: &Held, column: &[u32]) -> Option<Clash>
    requires held { held.now ≡ two (read_with_entries 0 1 0 0 0) (read_with_entries 1 4 0 0 2) }
    requires column { column.now ≡ 0 ∷ 2 ∷ 0 ∷ [] }
    ensures { result ≡ None }
{
    held.clashes(2, 3, column)
}

/// The clash is with the held read whose cycle the new column reaches, in any order of holding. It also refuses that only the
/// held columns decide.
/// Promise: the held-read check is its definition
pub fn first_held_for_the_clashing(held: &Held, column: &[u32]) -> Option<Clash>
    requires held { held.now ≡ two (read_with_entries 0 1 0 0 0) (read_with_entries 1 2 0 0 0) }
    requires column { column.now ≡ 0 ∷ 3 ∷ 0 ∷ [] }
    ensures { result ≡ Some (record { item = 1; cycle = 2 }) }
{
    held.clashes(2, 4, column)
}

/// A held column that has the new item at the new cycle is a clash too.
/// Promise: the held-read check is its definition
pub fn one_way_check(held: &Held, column: &[u32]) -> Option<Clash>
    requires held { held.now ≡ two (read_with_entries 0 1 0 0 0) (read_with_entries 1 5 0 0 3) }
    requires column { column.now ≡ 0 ∷ 0 ∷ 0 ∷ [] }
    ensures { result ≡ Some (record { item = 1; cycle = 5 }) }
{
    held.clashes(2, 3, column)
}
