//! A beginning of the list of batches. The list only grows. Except for its length it exists only in proofs.
ghost use Rattle.std.specs.Prelude.{◌≡◌, ◌<◌, ◌≤◌, ◌^◌, ◌++◌, ◌∷◌, [], length, MatchBool};
ghost use mathlib.Core.List.{IsPrefix};
ghost use Rattle.cycle_snapshot.specs.BookRule.{batch_counter};
ghost use Rattle.cycle_snapshot.specs.Beginnings.{Beginning};

use crate::batches::Batch;
use logbook::{Gain, Offer, Plain, Play, Rule, Seen, Start, Word};
use std::marker::Model;

/// The rule of the book of batches: its first word counts them.
pub struct BookRule;

impl Rule<Batch, u64> for BookRule {
    ghost use Rattle.std.specs.Prelude.{[]};
    ghost use base.Fml.{ftrue};
    ghost use Rattle.cycle_snapshot.specs.BookRule.{IsCounted};

    ghost holds = { λ cells log. IsCounted cells log };

    ghost first = { [] };

    ghost hinted = { λ n log. Unit {0} };

    ghost shows = { λ log. [] };

    ghost keeps = { λ names log. ftrue };

    ghost moves = { λ ask before after answer. Unit {0} };
}

/// A step of the book gains nothing.
pub struct Nothing;

impl Gain<Batch, u64> for Nothing {
    ghost use base.Fml.{ftrue};

    ghost after = { λ names about answer. ftrue };
}

/// The step that adds a batch.
pub struct Add;

impl Play<Batch, u64> for Add {
    ghost use Rattle.cycle_snapshot.specs.BookRule.{AddsToBook};

    ghost then = { AddsToBook };
}

impl Plain<Batch, Batch, u64> for Add {
    ghost use Rattle.std.specs.Prelude.{None};

    ghost ask = { λ batch. batch };

    ghost state = { λ batch. None };
}

/// The word that counts the batches. Its owner adds to the list.
pub type ListHead = Word<Batch, u64, BookRule>;

/// A told note of a beginning of the list that one publisher publishes. Contracts see the publisher's identity and the batches.
#[derive(Drop)]
pub struct Told {
    count: u64,
    seen: Seen<Batch, u64, BookRule>,
}

impl Model for Told {
    ghost use Rattle.std.specs.Prelude.{◌≡◌, length};
    ghost use Rattle.cycle_snapshot.specs.Beginnings.{Beginning};

    ghost Value = { Beginning };

    ghost view = { λ t. record { publisher = t.seen.book; batches = t.seen.log } };

    ghost invariant = { λ t. t.count ≡ length t.seen.log };
}

impl Told {
    /// The beginning of a new list, which is empty, with the word that counts it.
    pub(crate) fn open() -> (Told, ListHead)
        ensures { (result.0.batches ≡ []) × (result.1 ≡ batch_counter result.0.publisher) }
    {
        let (seen, mut first, _second) = Seen::open(Start::alone(), 0, 0);
        (Told { count: 0, seen }, Word::tracked(0, &mut first))
    }

    /// The number of batches.
    pub(crate) fn len(&self) -> u64
        ensures { result ≡ length self.now.batches }
    {
        self.count
    }

    /// An equal told note.
    pub(crate) fn again(&self) -> Told
        ensures { result ≡ self.now }
    {
        Told {
            count: self.count,
            seen: self.seen.again(),
        }
    }

    /// For proofs only: tells the caller that of two beginnings of one list the shorter is a beginning of the longer. It does
    /// nothing at run time.
    pub(crate) fn shows_prefix(&self, longer: &Told)
        requires own { longer.now.publisher ≡ self.now.publisher }
        requires shorter { length self.now.batches ≤ length longer.now.batches }
        ensures { IsPrefix self.now.batches longer.now.batches }
    {
        let mut both = self.seen.again();
        both.learn(&longer.seen);
    }

    /// Adds a batch, and says whether it was added. It isn't added if the list is longer.
    pub(crate) fn add(&mut self, head: &ListHead, batch: &Batch) -> bool
        requires head { head.now ≡ batch_counter self.old.publisher }
        requires room { length self.old.batches < 2 ^ 62 }
        ensures added { MatchBool result
            (self.new ≡ record self.old { batches = self.old.batches ++ batch.now ∷ [] })
            (self.new ≡ self.old) }
    {
        let mut seen = self.seen.again();
        let mut offer: Offer<Batch, u64, BookRule, Nothing> = seen.plain::<Nothing, Batch, Add>(
            batch,
        );
        let mut pen = seen.no_pen();
        let count = self.count;
        let found = head.compare_exchange::<Add, Nothing>(
            count,
            count + 1,
            &mut seen,
            &mut offer,
            &mut pen,
        );
        if found != count {
            return false;
        }
        self.seen = seen;
        self.count = count + 1;
        true
    }
}
