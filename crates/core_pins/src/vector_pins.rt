//! These pins of `vector_policies` say whether a read may join two held ones under Datacycle and R-Matrix.
//!
//! A clash names a held read by its item and cycle.
#![tactic(auto, unfolding(air_history::specs::Clashes::least, air_history::specs::Clashes::clash_by_entries))]

ghost use Rattle.std.specs.Prelude.{◌≡◌, ◌↔◌, [], ◌∷◌, List, All, Some, None};
ghost use Rattle.air_base.specs.declared.verdicts.Policy.TheVariants.{Datacycle};
ghost use Rattle.air_history.specs.declared.histories.Event.{Event};
ghost use Rattle.air_history.specs.Clashes.{IsCurrent, clash_by_history, read_at};
ghost use Rattle.air_history.specs.ClashLaws.{HasAiredEntries};
ghost use Rattle.air_history.specs.Columns.{aired_entries, scheme_of};
ghost use Rattle.core_pins.specs.SmallReads.{read_with_entries, two};

use air_base::Clash;
use vector_policies::{DataHeld, RHeld};

/// Datacycle names a read of the newest held cycle if its vector has the new item at the new cycle. It also refuses that the
/// oldest held cycle decides.
/// Promise: the held-read check is its definition
/// Promise: accepted reads share a cycle
pub fn another_cycle_for_the_newest(held: &DataHeld, vector: &[u32]) -> Option<Clash>
    requires held { held.now ≡ two (read_with_entries 0 2 0 0 0) (read_with_entries 1 4 0 0 3) }
    requires vector { vector.now ≡ 0 ∷ 0 ∷ 0 ∷ [] }
    ensures { result ≡ Some (record { item = 1; cycle = 4 }) }
{
    held.clashes(2, 3, vector)
}

/// If the new item was written since the first held cycle, R-Matrix names the held read that is stale, in any order of holding.
/// It also refuses that the last held cycle decides.
/// Promise: the held-read check is its definition
pub fn first_named_for_the_stale(held: &RHeld, vector: &[u32]) -> Option<Clash>
    requires held { held.now ≡ two (read_with_entries 0 2 0 0 0) (read_with_entries 1 3 0 0 2) }
    requires vector { vector.now ≡ 0 ∷ 4 ∷ 2 ∷ [] }
    ensures { result ≡ Some (record { item = 1; cycle = 3 }) }
{
    held.clashes(2, 5, vector)
}

/// A write that is 255 cycles old may be heard as none: for every history that has the write, the answer stays that history's.
/// It refuses a cap that is one cycle late.
/// Promise: the held-read check is its definition
pub fn capped_one_cycle_late(held: &DataHeld, vector: &[u32]) -> Option<Clash>
    requires held { held.now ≡ record { n = 3; reads = read_with_entries 0 2 0 1 0 ∷ [] } }
    requires vector { vector.now ≡ 0 ∷ 0 ∷ 2 ∷ [] }
    ensures { (H : List Event) → aired_entries (scheme_of Datacycle) 3 H 2 0 ≡ 0 ∷ 1 ∷ 0 ∷ [] → aired_entries (scheme_of Datacycle) 3 H 256 2 ≡ 0 ∷ 1 ∷ 2 ∷ [] →
        result ≡ clash_by_history Datacycle H (read_at (read_with_entries 0 2 0 1 0) ∷ []) (read_at (read_with_entries 2 256 0 0 2)) }
{
    held.clashes(2, 256, vector)
}

/// In a new newest cycle Datacycle names the held read that is stale there.
/// Promise: the held-read check is its definition
pub fn newest_named_for_the_stale(held: &DataHeld, vector: &[u32]) -> Option<Clash>
    requires held { held.now ≡ two (read_with_entries 0 2 0 0 0) (read_with_entries 1 4 0 0 0) }
    requires vector { vector.now ≡ 3 ∷ 0 ∷ 0 ∷ [] }
    ensures { result ≡ Some (record { item = 0; cycle = 2 }) }
{
    held.clashes(2, 5, vector)
}

/// R-Matrix takes a read of an item that wasn't written since the first held cycle, though a held read is stale.
/// Promise: the held-read check is its definition
pub fn second_condition_forgotten(held: &RHeld, vector: &[u32]) -> Option<Clash>
    requires held { held.now ≡ two (read_with_entries 0 2 0 0 0) (read_with_entries 1 3 0 0 0) }
    requires vector { vector.now ≡ 3 ∷ 0 ∷ 0 ∷ [] }
    ensures { result ≡ None }
{
    held.clashes(2, 5, vector)
}

/// For every history that aired these vectors, a read is taken if and only if all reads stay current.
/// Promise: the held-read check is its definition
pub fn taken_though_a_read_is_stale(held: &DataHeld, vector: &[u32]) -> Option<Clash>
    requires held { held.now ≡ record { n = 3; reads = read_with_entries 0 2 0 0 0 ∷ [] } }
    requires vector { vector.now ≡ 3 ∷ 0 ∷ 0 ∷ [] }
    ensures { (H : List Event) → All (HasAiredEntries (scheme_of Datacycle) 3 H) (read_with_entries 0 2 0 0 0 ∷ []) → HasAiredEntries (scheme_of Datacycle) 3 H (read_with_entries 2 5 3 0 0) →
        IsCurrent H (read_at (read_with_entries 0 2 0 0 0) ∷ []) →
        (result ≡ None) ↔ IsCurrent H (read_at (read_with_entries 0 2 0 0 0) ∷ read_at (read_with_entries 2 5 3 0 0) ∷ []) }
{
    held.clashes(2, 5, vector)
}
