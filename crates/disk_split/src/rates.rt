//! The sums of the rates of a deck's first items, hottest first.

ghost use Rattle.std.specs.Prelude.{◌≡◌, ◌<◌, ◌^◌, IfOk, map, sum};
ghost use Rattle.air_model.specs.Decks.{rates_in};
ghost use Rattle.disk_split.specs.Numbers.{hot_rates, sums_of};

use item_catalog::Deck;
use std::alloc::{AllocError, Global};
use std::cmp::Reverse;

/// The rates of a deck's items, for which greater goes first.
fn rates(alloc: Global, deck: &Deck) -> Result<Vec<Reverse<u32>>, AllocError>
    ensures { IfOk result (λ rates. map (λ r. r.0) rates.items ≡ rates_in deck.now) }
{
    let mut rates = Vec::new(alloc);
    for item in 0..deck.items() {
        rates.push(Reverse(deck.rate(item)))?;
    }
    Ok(rates)
}

/// The sums of the first rates: of none, of one, and so on to all.
fn sums_of(alloc: Global, rates: &[Reverse<u32>]) -> Result<Vec<u64>, AllocError>
    requires { sum (map (λ r. r.0) rates.now) < 2 ^ 64 }
    ensures { IfOk result (λ sums. sums.items ≡ sums_of (map (λ r. r.0) rates.now)) }
{
    let mut sums = Vec::new(alloc);
    let mut sum = 0u64;
    sums.push(sum)?;
    for rate in rates {
        sum += u64::from(rate.0);
        sums.push(sum)?;
    }
    Ok(sums)
}

/// The sums of the rates of a deck's first items, hottest first.
pub fn sums(alloc: Global, deck: &Deck) -> Result<Vec<u64>, AllocError>
    ensures { IfOk result (λ sums. sums.items ≡ sums_of (hot_rates deck.now)) }
{
    deck.shows_well_made();
    let mut rates = rates(alloc, deck)?;
    rates.sort_unstable();
    sums_of(alloc, &rates)
}
