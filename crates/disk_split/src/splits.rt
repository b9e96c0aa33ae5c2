//! The best split of a deck, and its cost compared with that of the deck's own sizes.

ghost use Rattle.std.specs.Prelude.{◌≡◌, ◌<◌, ◌≤◌, ◌^◌, IfErr, IfOk, OnOk};
ghost use Rattle.disk_split.specs.Splits.{IsBest, cost, sizes_in};
ghost use Rattle.disk_split.specs.SplitAnswers.{SaysTooLong, SaysTooMuch, search_size};
ghost use Rattle.disk_split.specs.declared.splits.SplitFault.TheVariants as fault;

use crate::costs::given_cost;
use crate::lengths::least_minor;
use crate::numbers::{chunks, minors};
use crate::rates::sums;
use crate::search::best_sizes;
use air_base::Sizes;
use air_base::limits::MOST_SLOTS;
use item_catalog::Deck;
use std::alloc::{AllocError, Global};
use std::error::Error;
use std::fmt;

/// The greatest size of a search: the number of items times itself, times the number of disks.
pub const MOST_SPLIT: u64 = 600_000;

/// The sizes of the best split, what it costs, and what the deck's own sizes cost.
#[derive(Debug, Drop)]
pub struct Split {
    pub sizes: Sizes,
    pub cost: u128,
    pub given: u128,
}

/// Why no best split is given.
#[derive(Clone, Copy, Debug)]
pub enum SplitFault {
    /// The search would have this size, which is above `MOST_SPLIT`.
    TooMuch { product: u64 },
    /// The split of fewest slots has this number, which is more than a program may have.
    TooLong { slots: u64 },
    /// Out of memory.
    NoMemory,
}

impl From<AllocError> for SplitFault {
    ghost use Rattle.std.specs.Prelude.{◌≡◌};
    ghost use Rattle.disk_split.specs.declared.splits.SplitFault.TheVariants.{NoMemory};

    ghost from_gives = { λ _ fault. fault ≡ NoMemory };

    fn from(_error: AllocError) -> Self {
        SplitFault::NoMemory
    }
}

impl fmt::Display for SplitFault {
    fn fmt<W: fmt::Write>(&self, f: &mut fmt::Formatter<W>) -> fmt::Result {
        match self {
            SplitFault::TooMuch { product } => write!(f, "a search over {product} is too much"),
            SplitFault::TooLong { slots } => write!(f, "the shortest program has {slots} slots"),
            SplitFault::NoMemory => f.write_str("out of memory"),
        }
    }
}

impl Error for SplitFault {}

/// Refuses a search of a size above `MOST_SPLIT`.
pub fn check_size(product: u64) -> Result<(), SplitFault>
    ensures few { OnOk result (product ≤ MOST_SPLIT) }
    ensures much { IfErr result (λ e. (e ≡ fault.TooMuch product) × (MOST_SPLIT < product)) }
{
    if product > MOST_SPLIT {
        return Err(SplitFault::TooMuch { product });
    }
    Ok(())
}

/// The size of the search for the best split of a deck.
fn search_size(deck: &Deck) -> u64
    ensures { result ≡ search_size deck.now }
{
    let items = u64::from(deck.items());
    items * items * u64::from(deck.disks())
}

/// The best split of a deck: of the short ones that of least cost, and of several the one that comes first.
pub fn best_split(alloc: Global, deck: &Deck) -> Result<Split, SplitFault>
    ensures best { IfOk result (λ split. IsBest deck.now split.sizes × (split.cost ≡ cost deck.now split.sizes)) }
    ensures given { IfOk result (λ split. split.given ≡ cost deck.now (sizes_in deck.now)) }
    ensures few { IfOk result (λ split. search_size deck.now ≤ MOST_SPLIT) }
    ensures much { IfErr result (SaysTooMuch deck.now) }
    ensures long { IfErr result (SaysTooLong deck.now) }
    ensures narrow { IfOk result (λ split. (split.cost < 2 ^ 64) × (split.given < 2 ^ 64)) }
{
    deck.shows_well_made();
    check_size(search_size(deck))?;
    let minors = minors(deck);
    let chunks = chunks(alloc, deck, minors)?;
    let slots = minors * least_minor(&chunks, deck.items());
    if slots > MOST_SLOTS {
        return Err(SplitFault::TooLong { slots });
    }
    let sums = sums(alloc, deck)?;
    let width = (MOST_SLOTS / minors).min(u64::from(deck.items())) as usize + 1;
    let given = given_cost(deck, &chunks, &sums);
    match best_sizes(alloc, &chunks, &sums, width)? {
        Some(found) => Ok(Split {
            sizes: found.sizes,
            cost: found.cost,
            given,
        }),
        None => unreachable!(),
    }
}
