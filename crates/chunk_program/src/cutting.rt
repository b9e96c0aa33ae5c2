//! The cut of an edition of a deck, made from the deck's rates and the edition's disks.

ghost use Rattle.std.specs.Prelude.{◌≡◌, ◌<◌, IfOk};
ghost use Rattle.air_model.specs.Decks.{count_editions, disks_in, rates_in, specs_in};

use crate::cuts::Cut;
use crate::disks::DiskSpec;
use air_base::NoMemory;
use item_catalog::{Deck, Replan};
use std::alloc::{AllocError, Global};

/// The rates of a deck's items.
fn rates(alloc: Global, deck: &Deck) -> Result<Vec<u32>, AllocError>
    ensures { IfOk result (λ rates. rates.items ≡ rates_in deck.now) }
{
    let mut rates = Vec::new(alloc);
    for item in 0..deck.items() {
        rates.push(deck.rate(item))?;
    }
    Ok(rates)
}

/// The deck's own disks.
fn own_specs(alloc: Global, deck: &Deck) -> Result<Vec<DiskSpec>, AllocError>
    ensures { IfOk result (λ specs. specs.items ≡ deck.now.disks) }
{
    let mut specs = Vec::new(alloc);
    for disk in 0..deck.disks() {
        let size = deck.size(disk);
        let freq = deck.freq(disk);
        specs.push(DiskSpec { size, freq })?;
    }
    Ok(specs)
}

/// The disks of a replan.
fn replan_specs(alloc: Global, replan: &Replan<'_>) -> Result<Vec<DiskSpec>, AllocError>
    ensures { IfOk result (λ specs. specs.items ≡ replan.now.disks) }
{
    let mut specs = Vec::new(alloc);
    for disk in 0..replan.disks() {
        let size = replan.size(disk);
        let freq = replan.freq(disk);
        specs.push(DiskSpec { size, freq })?;
    }
    Ok(specs)
}

/// The disks of an edition of a deck.
fn specs(alloc: Global, deck: &Deck, edition: u32) -> Result<Vec<DiskSpec>, AllocError>
    requires { edition < count_editions deck.now }
    ensures { IfOk result (λ specs. specs.items ≡ specs_in deck.now edition) }
{
    if edition == 0 {
        return own_specs(alloc, deck);
    }
    let replan = deck.replan(edition - 1);
    replan_specs(alloc, &replan)
}

/// The cut of an edition of a deck: its items by greater rate, then by smaller number, and disks that take consecutive ranges.
pub fn cut(alloc: Global, deck: &Deck, edition: u32) -> Result<Cut, NoMemory>
    requires { edition < count_editions deck.now }
    ensures { IfOk result (λ c. c ≡ disks_in deck.now edition) }
{
    deck.shows_well_made();
    let rates = rates(alloc, deck)?;
    let specs = specs(alloc, deck, edition)?;
    let cut = Cut::new(alloc, &rates, &specs)?;
    Ok(cut)
}
