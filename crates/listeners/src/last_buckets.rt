//! The last buckets that were pushed, as bytes: what an ether without bytes delays is heard from them.

ghost use Rattle.std.specs.Prelude.{◌≡◌, ◌%◌, [], IfOk, OnOk, get_or, length};
ghost use Rattle.std.proofs.Math.ListN.{set};

use air_base::NoMemory;
use std::alloc::Global;
use std::marker::Model;

/// How many buckets are kept: those that an ether may still give.
pub const KEPT_BUCKETS: u64 = 9;

/// The last `KEPT_BUCKETS` buckets that were pushed, each at its place modulo that number.
#[derive(Drop)]
pub(crate) struct LastBuckets {
    buckets: Vec<Vec<u8>>,
}

impl Model for LastBuckets {
    ghost use Rattle.std.specs.Prelude.{ℕ, List, map};

    ghost Value = { List (List ℕ) };

    ghost view = { λ l. map (λ b. b.items) l.buckets.items };

    ghost use Rattle.std.specs.Prelude.{◌≡◌, length};
    ghost use Rattle.listeners.specs.declared.last_buckets.TheConstants.{KEPT_BUCKETS};

    ghost invariant = { λ l. length l.buckets.items ≡ KEPT_BUCKETS };
}

impl LastBuckets {
    /// Nothing was pushed.
    pub fn new(alloc: Global) -> Result<LastBuckets, NoMemory>
        ensures { IfOk result (λ l. length l ≡ KEPT_BUCKETS) }
    {
        let mut buckets = Vec::new(alloc);
        for _ in 0..KEPT_BUCKETS {
            buckets.push(Vec::new(alloc))?;
        }
        Ok(LastBuckets { buckets })
    }

    /// The bytes of the bucket at a place.
    pub fn at(&self, place: u64) -> &[u8]
        ensures { result.now ≡ get_or self.now (place % KEPT_BUCKETS) [] }
    {
        &self.buckets[(place % KEPT_BUCKETS) as usize]
    }

    /// Keeps the bytes of the bucket at a place, in place of those that were kept there.
    pub fn keep(&mut self, alloc: Global, place: u64, bytes: &[u8]) -> Result<(), NoMemory>
        ensures { OnOk result (self.new ≡ set self.old (place % KEPT_BUCKETS) bytes.now) }
    {
        let copy = bytes.to_vec(alloc)?;
        self.buckets[(place % KEPT_BUCKETS) as usize] = copy;
        Ok(())
    }
}
