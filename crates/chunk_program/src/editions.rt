//! The disks of an edition of a deck, as the deck declares them: their number, and the frequency of each.

ghost use Rattle.std.specs.Prelude.{◌≡◌, ◌<◌, length, slice_get, IfSome};
ghost use Rattle.air_model.specs.Decks.{count_editions, specs_in};

use item_catalog::Deck;

/// The number of disks of an edition.
#[tactic(auto, using(crate::proofs::EditionSteps::own_count, crate::proofs::EditionSteps::replan_count))]
pub fn disk_count(deck: &Deck, edition: u32) -> u32
    requires { edition < count_editions deck.now }
    ensures { result ≡ length (specs_in deck.now edition) }
{
    if edition == 0 {
        return deck.disks();
    }
    deck.replan(edition - 1).disks()
}

/// The frequency of a disk of an edition.
#[tactic(auto, using(crate::proofs::EditionSteps::own_freq, crate::proofs::EditionSteps::replan_freq))]
pub fn disk_freq(deck: &Deck, edition: u32, d: u32) -> u32
    requires edition { edition < count_editions deck.now }
    requires disk { d < length (specs_in deck.now edition) }
    ensures { IfSome (slice_get (specs_in deck.now edition) d) (λ disk. result ≡ disk.freq) }
{
    if edition == 0 {
        return deck.freq(d);
    }
    deck.replan(edition - 1).freq(d)
}
