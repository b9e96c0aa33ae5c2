//! The numbers of a deck that no split changes: of its minor cycles, and of each disk's chunks.

ghost use Rattle.std.specs.Prelude.{◌≡◌, ◌<◌, ◌≤◌, ◌*◌, ◌^◌, IfOk};
ghost use Rattle.air_model.specs.Programs.{least_common_multiple};
ghost use Rattle.disk_split.specs.Numbers.{chunks_in, minors_in};

use item_catalog::Deck;
use std::alloc::{AllocError, Global};

/// The least common multiple of a number and a frequency: the first multiple of the one that the other divides.
fn common_multiple(number: u64, freq: u32) -> u64
    requires some { 0 < number }
    requires aired { 0 < freq }
    requires fits { freq * number < 2 ^ 64 }
    ensures { result ≡ least_common_multiple number freq }
{
    let freq = u64::from(freq);
    for times in 1..freq {
        let multiple = times * number;
        if multiple % freq == 0 {
            return multiple;
        }
    }
    freq * number
}

/// The number of minor cycles.
pub fn minors(deck: &Deck) -> u64
    ensures counted { result ≡ minors_in deck.now }
    ensures some { 1 ≤ result }
    ensures few { result ≤ 2 ^ 48 }
{
    let mut minors = 1u64;
    for disk in 0..deck.disks() {
        minors = common_multiple(minors, deck.freq(disk));
    }
    minors
}

/// The number of chunks of each disk.
pub fn chunks(alloc: Global, deck: &Deck, minors: u64) -> Result<Vec<u64>, AllocError>
    requires { minors ≡ minors_in deck.now }
    ensures { IfOk result (λ chunks. chunks.items ≡ chunks_in deck.now) }
{
    let mut chunks = Vec::new(alloc);
    for disk in 0..deck.disks() {
        chunks.push(minors / u64::from(deck.freq(disk)))?;
    }
    Ok(chunks)
}
