//! The search for the best sizes: for each number of slots of a minor cycle the sizes of least weight, and of these the best.

ghost use Rattle.std.specs.Prelude.{◌≡◌, ◌<◌, IfOk, length};
ghost use Rattle.disk_split.specs.Private.Bests.{IsFound, better, is_better};
ghost use Rattle.disk_split.specs.Rests.{AreChunks, AreSums};

use crate::sizes::{RestToPlace, sizes};
use crate::tables::tables;
use air_base::Sizes;
use std::alloc::{AllocError, Global};

/// Sizes, and what they cost.
#[derive(Drop)]
pub struct BestSizes {
    pub cost: u128,
    pub sizes: Sizes,
}

/// Whether the one is better than the other: it costs less or, at the same cost, its sizes come first.
fn is_better(new: &BestSizes, old: &BestSizes) -> bool
    ensures { result ≡ is_better new.now old.now }
{
    new.cost < old.cost || new.cost == old.cost && new.sizes.as_slice() < old.sizes.as_slice()
}

/// The better of what was found before, if anything was, and what is found now.
fn better(best: Option<BestSizes>, new: BestSizes) -> BestSizes
    ensures { result ≡ better best new }
{
    match best {
        Some(old) => if is_better(&new, &old) { new } else { old },
        None => new,
    }
}

/// The best sizes among those whose minor cycles have fewer slots than the width.
pub fn best_sizes(
    alloc: Global,
    chunks: &[u64],
    sums: &[u64],
    width: usize,
) -> Result<Option<BestSizes>, AllocError>
    requires sums { AreSums sums.now }
    requires chunks { AreChunks chunks.now }
    requires some { 0 < length chunks.now }
    requires wide { 0 < width }
    ensures { IfOk result (IsFound sums.now chunks.now width) }
{
    let tables = tables(alloc, chunks, sums, width)?;
    let all = &tables[chunks.len()];
    let first = &all.rows[0];
    let mut best = None;
    for slots in 1..width {
        let Some(weight) = first.cell(slots) else {
            continue;
        };
        let left = RestToPlace {
            from: 0,
            slots,
            weight,
        };
        let sizes = Sizes::from_vec(sizes(alloc, chunks, sums, &tables, left)?);
        let cost = slots as u128 * u128::from(weight);
        best = Some(better(best, BestSizes { cost, sizes }));
    }
    Ok(best)
}
