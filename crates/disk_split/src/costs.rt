//! What the deck's own sizes cost.

ghost use Rattle.std.specs.Prelude.{◌≡◌};
ghost use Rattle.disk_split.specs.Splits.{sizes_in};
ghost use Rattle.disk_split.specs.Private.Bests.{cost_from};
ghost use Rattle.disk_split.specs.Rests.{AreChunks, AreSums, IsSplitRest};

use crate::lengths::chunk_slots;
use item_catalog::Deck;

/// What the deck's own sizes cost.
pub fn given_cost(deck: &Deck, chunks: &[u64], sums: &[u64]) -> u128
    requires sums { AreSums sums.now }
    requires chunks { AreChunks chunks.now }
    requires rest { IsSplitRest sums.now chunks.now 0 (sizes_in deck.now) }
    ensures { result ≡ cost_from sums.now chunks.now (sizes_in deck.now) }
{
    let mut from = 0usize;
    let mut slots = 0u64;
    let mut weight = 0u64;
    for disk in 0..deck.disks() {
        let size = deck.size(disk);
        let count = chunks[disk as usize];
        let end = from + usize::from(size);
        slots += chunk_slots(count, u64::from(size));
        weight += count * (sums[end] - sums[from]);
        from = end;
    }
    u128::from(slots) * u128::from(weight)
}
