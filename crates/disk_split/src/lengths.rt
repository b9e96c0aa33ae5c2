//! The slots of a minor cycle: of a chunk, and the fewest of any split.

ghost use Rattle.std.specs.Prelude.{◌≡◌, ◌<◌, ◌≤◌, ℕ, ◌+◌, ◌^◌, All, List, length};
ghost use Rattle.disk_split.specs.Numbers.{IsLeastMinor};
ghost use Rattle.disk_split.specs.Rests.{chunk_slots};

/// The slots of a chunk: the items of a disk divided among its chunks, rounded up.
pub fn chunk_slots(chunks: u64, size: u64) -> u64
    requires some { 1 ≤ chunks }
    requires fits { size + chunks < 2 ^ 64 }
    ensures { result ≡ chunk_slots chunks size }
{
    (size + chunks - 1) / chunks
}

/// The fewest slots of a minor cycle for a number of items: the chunk of each disk has one, and the disk of most chunks takes the items that
/// don't fit in these.
pub fn least_minor(chunks: &[u64], items: u16) -> u64
    requires filled { length chunks.now ≤ items }
    requires disks { 1 ≤ length chunks.now }
    requires some { All (λ c. 1 ≤ c) chunks.now }
    requires few { All (λ c. c ≤ 2 ^ 48) chunks.now }
    ensures { (sums : List ℕ) → length sums ≡ items + 1 → IsLeastMinor sums chunks.now result }
{
    let mut all = 0u64;
    let mut most = chunks[0];
    for count in chunks {
        all += *count;
        most = most.max(*count);
    }
    chunks.len() as u64 + chunk_slots(most, u64::from(items).saturating_sub(all))
}
