//! One held read, and questions about several: their newest cycle, their span, an entry of a cycle, and the least that passes a
//! test.
//!
//! Each call goes through the reads one by one. `held` uses them.

ghost use Rattle.std.specs.Prelude.{◌≡◌, ◌<◌, ◌==◌, ℕ, [], ◌∷◌, ◌++◌, length, map, All, IfOk};
ghost use Rattle.air_history.specs.Ages.{span};
ghost use Rattle.air_history.specs.Clashes.{read_at, entry_in, newest_heard, heard_clash};
ghost use Rattle.held_reads.specs.HeardReads.{heard_of_held};
ghost use Rattle.held_reads.specs.Searches.{clash_naming, lesser_of, has_since};

use air_base::{Clash, NoMemory};
use std::alloc::Global;

/// A place for a read: its item, its cycle and the entries that were heard with it.
#[derive(Debug, Drop)]
pub struct HeldRead {
    pub item: u16,
    pub cycle: u32,
    pub entries: Vec<u32>,
}

impl HeldRead {
    /// Makes a place with room for `n` entries.
    pub fn blank(alloc: Global, n: u16) -> Result<HeldRead, NoMemory>
        ensures { IfOk result (λ r. length r.entries.items ≡ n) }
    {
        Ok(HeldRead {
            item: 0,
            cycle: 0,
            entries: vec![in alloc; 0; n as usize]?,
        })
    }

    /// Returns the read without its entries.
    fn clash(&self) -> Clash
        ensures { result ≡ clash_naming (heard_of_held self.now) }
    {
        Clash {
            item: self.item,
            cycle: self.cycle,
        }
    }
}

/// Returns the second clash, or the first if there is one and its item number isn't greater.
pub fn lesser_clash(best: Option<Clash>, clash: Clash) -> Clash
    ensures { result ≡ lesser_of best clash }
{
    match best {
        Some(before) if before.item <= clash.item => before,
        _ => clash,
    }
}

/// Returns the newest cycle of the reads; 0 if there is none.
pub fn newest_of(reads: &[HeldRead]) -> u32
    ensures { result ≡ newest_heard (map heard_of_held reads.now) }
{
    let mut newest = 0;
    for read in reads {
        newest = newest.max(read.cycle);
    }
    newest
}

/// Returns the span of the reads and one of this cycle, of any item.
pub fn span_with(reads: &[HeldRead], cycle: u32) -> u32
    ensures { (item : ℕ) → result ≡ span (map read_at (map heard_of_held reads.now) ++ record { item = item; cycle = cycle } ∷ []) }
{
    let mut newest = cycle;
    let mut oldest = cycle;
    for read in reads {
        newest = newest.max(read.cycle);
        oldest = oldest.min(read.cycle);
    }
    newest - oldest
}

/// Returns the entry of an item that was heard with the first read of the cycle; 0 if no read is of the cycle.
pub fn first_entry(reads: &[HeldRead], cycle: u32, item: u16) -> u32
    requires { All (λ r. item < length r.entries.items) reads.now }
    ensures { result ≡ entry_in (map heard_of_held reads.now) cycle item }
{
    for read in reads {
        if read.cycle == cycle {
            return read.entries[item as usize];
        }
    }
    0
}

/// Returns the read with the least item number among those of the cycle.
#[tactic(auto, using(crate::proofs::SearchLemmas::search_hit, crate::proofs::SearchLemmas::search_miss), unfolding(air_history::specs::Clashes::least))]
pub fn least_of_cycle(reads: &[HeldRead], cycle: u32) -> Option<Clash>
    ensures { result ≡ heard_clash (λ r. r.cycle == cycle) (map heard_of_held reads.now) }
{
    let mut best = None;
    for read in reads {
        if read.cycle == cycle {
            best = Some(lesser_clash(best, read.clash()));
        }
    }
    best
}

/// Returns the read with the least item number among those whose entries have the item at the cycle or later.
#[tactic(auto, using(crate::proofs::SearchLemmas::search_hit, crate::proofs::SearchLemmas::search_miss), unfolding(air_history::specs::Clashes::least))]
pub fn least_having(reads: &[HeldRead], item: u16, cycle: u32) -> Option<Clash>
    requires { All (λ r. item < length r.entries.items) reads.now }
    ensures { result ≡ heard_clash (has_since item cycle) (map heard_of_held reads.now) }
{
    let mut best = None;
    for read in reads {
        if read.entries[item as usize] >= cycle {
            best = Some(lesser_clash(best, read.clash()));
        }
    }
    best
}
