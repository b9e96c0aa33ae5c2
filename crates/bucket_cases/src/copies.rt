//! A cache of copies.
//!
//! `cache` takes a room and the PIX number of each item, `keep` an item and a cycle, from which the value and the column of the copy are made, `drop`
//! an item, and `reorder` other PIX numbers.

ghost use Rattle.std.specs.Prelude.{◌≡◌, length};

use air_base::NoMemory;
use case_lines::{BadCase, Parts, add_entries, add_line};
use pix_cache::{KeepAnswer, PixCache};
use std::alloc::Global;

/// A cache, and the number of its items.
#[derive(Drop)]
pub struct Copies {
    n: u16,
    cache: PixCache,
    ghost same: { length cache.pix ≡ n },
}

/// A cache with no copies.
pub fn new_copies(alloc: Global, parts: &mut Parts<'_>) -> Result<Option<Copies>, NoMemory> {
    let room = parts.narrow();
    let pix = parts.numbers(alloc)?;
    if room > 256 || pix.len() > 256 {
        parts.refuse(BadCase::NoCall);
        return Ok(None);
    }
    let n = pix.len() as u16;
    let cache = PixCache::new(alloc, room, &pix)?;
    Ok(Some(Copies { n, cache }))
}

impl Copies {
    /// Offers a copy, and adds the answer.
    fn keep(
        &mut self,
        alloc: Global,
        parts: &mut Parts<'_>,
        came: &mut Vec<u8>,
    ) -> Result<(), NoMemory> {
        let item = parts.small();
        let cycle = parts.narrow();
        if item >= self.n {
            parts.refuse(BadCase::NoCall);
            return Ok(());
        }
        let value = (1 << 40) + 1000 * u64::from(cycle) + u64::from(item);
        let mut column = vec![in alloc; u32::from(item); self.n as usize]?;
        for (place, entry) in column.iter_mut().enumerate() {
            *entry = cycle.wrapping_mul(100).wrapping_add(place as u32);
        }
        match self.cache.keep(item, cycle, value, &column) {
            KeepAnswer::Replaced => add_line(b"replaced", &[], came),
            KeepAnswer::Placed => add_line(b"placed", &[], came),
            KeepAnswer::Declined => add_line(b"declined", &[], came),
            KeepAnswer::Evicted(other) => add_line(b"evicted", &[u64::from(other)], came),
        }
    }

    /// Adds the copy of each item that has one.
    fn add_kept(&self, came: &mut Vec<u8>) -> Result<(), NoMemory> {
        for item in 0..self.n {
            if let Some(kept) = self.cache.get(item) {
                let numbers = [u64::from(item), u64::from(kept.cycle), kept.value];
                add_line(b"item, cycle, value", &numbers, came)?;
                add_entries(b"column", kept.column, came)?;
            }
        }
        Ok(())
    }

    /// Drops the copy of an item.
    fn drop_copy(&mut self, parts: &mut Parts<'_>) {
        let item = parts.small();
        if item < self.n {
            self.cache.drop_copy(item);
        } else {
            parts.refuse(BadCase::NoCall);
        }
    }

    /// Orders the copies anew.
    fn reorder(&mut self, alloc: Global, parts: &mut Parts<'_>) -> Result<(), NoMemory> {
        let pix = parts.numbers(alloc)?;
        if pix.len() == self.n as usize {
            self.cache.reorder(&pix);
        } else {
            parts.refuse(BadCase::NoCall);
        }
        Ok(())
    }

    /// A case about the cache.
    pub fn call(
        &mut self,
        alloc: Global,
        word: &[u8],
        parts: &mut Parts<'_>,
        came: &mut Vec<u8>,
    ) -> Result<(), NoMemory> {
        match word {
            b"keep" => self.keep(alloc, parts, came)?,
            b"drop" => self.drop_copy(parts),
            b"reorder" => self.reorder(alloc, parts)?,
            b"kept" => self.add_kept(came)?,
            _ => parts.refuse(BadCase::NoCall),
        }
        Ok(())
    }
}
