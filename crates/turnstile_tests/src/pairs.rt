//! A list that each turn lengthens by one pair: the number of the pass, and a number of the turn.
use turnstile::Chronicle;

/// The pairs, and a mark that no turn changes.
#[derive(Drop)]
pub struct Pairs {
    pub items: Vec<(u64, u64)>,
    pub mark: u64,
}

impl Chronicle for Pairs {
    type Entry = u64;

    type Base = u64;

    ghost entries = { λ p. p.items.items };

    ghost base = { λ p. p.mark };
}
