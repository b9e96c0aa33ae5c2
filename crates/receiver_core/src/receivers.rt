//! A receiver: fed with the bytes that it hears, it judges its own queries.
//!
//! `rules` has what a heard bucket does, `settling` what the kept copies do.

ghost use Rattle.std.specs.Prelude.{◌≡◌, ◌↔◌, ◌<◌, ◌≤◌, ◌+◌, ◌^◌, List, [], All, length, max, Err, IfOk, IfSome, IsNone, IsTrue};
ghost use Rattle.std.specs.Result.{result_ok};
ghost use Rattle.air_model.specs.Aired.{fits};
ghost use Rattle.air_model.specs.Buckets.{Bucket, IsInRange, bucket_in, reading};
ghost use Rattle.air_model.specs.Judges.{by_entries};
ghost use Rattle.air_model.specs.SessionLaws.{IsUnwanted, dozed_through, hear_each, newest_of};
ghost use Rattle.air_model.specs.Sessions.{end_query, hear, wanted};
ghost use Rattle.chunk_program.specs.Editions.{plans_in};
ghost use Rattle.receiver_core.specs.LinesGiven.{StepTells, lines_given, lines_of};
ghost use Rattle.receiver_core.specs.FeedAnswers.{ChangesItsCountAlone, count_fed, fed_of};
ghost use Rattle.receiver_core.specs.HeldTruths.{HearsTruly, StaysTrue, first_unheld};
ghost use Rattle.receiver_core.specs.LastReads.{last_reads};
ghost use Rattle.receiver_core.specs.Receivers.{IsSettled, heard_count, receiver_of, state_after_step};

mod rules;
mod settling;

use crate::airs::Air;
use crate::attempts::Attempt;
use crate::readers::Reader;
use crate::reads::ReadList;
use crate::receivers::settling::drop_all;
use air_base::{Counts, NoMemory, ReadOf, Verdict, VerdictKind};
use air_model::bucket::BucketFault;
use bucket_codec::{BucketView, decode};
use chunk_program::{PlannedRef, Plans};
use item_catalog::Deck;
use pix_cache::PixCache;
use std::alloc::Global;
use std::marker::Model;

/// What became of a heard bucket: the first of these rules that applies.
#[derive(Clone, Copy, Debug, PartialEq, Eq)]
pub enum Fed {
    /// The bytes are no bucket, for this fault.
    Refused(BucketFault),
    /// The bucket doesn't fit the deck.
    Foreign,
    /// The bucket isn't wanted.
    Dozed,
    /// The bucket is wanted and comes too late.
    Late,
    /// The bucket was opened.
    Opened,
}

/// The result of a receiver's step.
#[derive(Clone, Copy, Debug, PartialEq, Eq)]
pub enum Step {
    /// A verdict; `last_reads` has its reads.
    Verdict(Verdict),
    /// The receiver waits for the next bucket.
    Waiting,
    /// No query is left.
    Done,
}

/// A receiver of a deck.
#[derive(Drop)]
pub struct Receiver {
    air: Air,
    reader: Reader,
    query: u32,
    attempt: u32,
    held: Attempt,
    copies: PixCache,
    column: Vec<u32>,
    latest: u32,
    counts: Counts,
    waiting: Option<Verdict>,
    last: ReadList,
}

impl Model for Receiver {
    ghost use Rattle.receiver_core.specs.Receivers.{Receiver};

    ghost Value = { Receiver };

    ghost use Rattle.receiver_core.specs.ReceiverFields.{IsReceiver, receiver_in};

    ghost view = { receiver_in };

    ghost invariant = { IsReceiver };
}

impl Receiver {
    /// Makes the deck's receiver of a number, at its start. Takes all memory, and shares the plans. `Plans::plan` makes the deck's plans.
    pub fn new(alloc: Global, deck: &Deck, number: u32, plans: &Plans) -> Result<Receiver, NoMemory>
        requires number { number < length deck.now.readers }
        requires plans { plans.now ≡ plans_in deck.now }
        ensures { IfOk result (λ r. r ≡ receiver_of deck.now number) }
    {
        let air = Air::new(&PlannedRef::of(deck, plans))?;
        let reader = Reader::new(alloc, deck, number)?;
        let held = Attempt::new(alloc, air.policy(), air.items())?;
        let copies = PixCache::new(alloc, reader.room(), air.pix(0))?;
        let column = vec![in alloc; 0; air.items() as usize]?;
        let counts = Counts {
            opened: 0,
            dozed: 0,
            late: 0,
            refused: 0,
            foreign: 0,
            copied: 0,
        };
        Ok(Receiver {
            air,
            reader,
            query: 0,
            attempt: 1,
            held,
            copies,
            column,
            latest: 0,
            counts,
            waiting: None,
            last: ReadList::new(),
        })
    }

    /// Tells whether no verdict waits, and no copy of the wanted item is kept.
    pub fn settled(&self) -> bool
        ensures { IsTrue result ↔ IsSettled self.now }
    {
        self.waiting.is_none() && !self.has_copy()
    }

    /// Hears one bucket's bytes.
    pub fn feed(&mut self, bytes: &[u8]) -> Fed
        requires settled { IsSettled self.old }
        requires counts { heard_count self.old.state.counts + 1 < 2 ^ 64 }
        ensures state { self.new.state ≡ hear (by_entries self.old.air.scheme) self.old.air self.old.reader (bucket_in bytes.now) self.old.state }
        ensures air { self.new.air ≡ self.old.air }
        ensures reader { self.new.reader ≡ self.old.reader }
        ensures last { self.new.last ≡ last_reads self.new.state.lines self.old.last }

        // The answer is the first rule that applies, and that count rises. What is refused or foreign changes no attempt.
        ensures fed { result ≡ fed_of self.old (reading bytes.now) }
        ensures refused { (fault : BucketFault) → (result ≡ Fed.Refused fault) ↔ (reading bytes.now ≡ Err fault) }
        ensures counted { self.new.state.counts ≡ count_fed result self.old.state.counts }
        ensures alone { ChangesItsCountAlone result self.old self.new }
        ensures held { HearsTruly (bucket_in bytes.now) self.old self.new }
    {
        self.hear(&decode(bytes))
    }

    /// Hears what `decode` answered. If many receivers hear the same bytes they are decoded once, and a bucket that isn't
    /// wanted costs each of them a look at its head.
    pub fn hear(&mut self, heard: &Result<BucketView<'_>, BucketFault>) -> Fed
        requires settled { IsSettled self.old }
        requires counts { heard_count self.old.state.counts + 1 < 2 ^ 64 }
        requires range { IfOk heard.now IsInRange }
        ensures state { self.new.state ≡ hear (by_entries self.old.air.scheme) self.old.air self.old.reader (result_ok heard.now) self.old.state }
        ensures air { self.new.air ≡ self.old.air }
        ensures reader { self.new.reader ≡ self.old.reader }
        ensures last { self.new.last ≡ last_reads self.new.state.lines self.old.last }

        // The answer is the first rule that applies, and that count rises. What is refused or foreign changes no attempt.
        ensures fed { result ≡ fed_of self.old heard.now }
        ensures refused { (fault : BucketFault) → (result ≡ Fed.Refused fault) ↔ (heard.now ≡ Err fault) }
        ensures counted { self.new.state.counts ≡ count_fed result self.old.state.counts }
        ensures alone { ChangesItsCountAlone result self.old self.new }
        ensures held { HearsTruly (result_ok heard.now) self.old self.new }
    {
        match heard {
            Err(fault) => {
                self.counts.refused += 1;
                Fed::Refused(*fault)
            }
            Ok(bucket) => self.hear_bucket(bucket),
        }
    }

    /// Hears this number of buckets, the newest of this cycle, of which it wants none: it counts them, and doesn't look at them.
    pub fn doze(&mut self, buckets: u64, cycle: u32)
        requires settled { IsSettled self.old }
        requires counts { heard_count self.old.state.counts + buckets < 2 ^ 64 }
        ensures state { (heard : List Bucket) → All (IsUnwanted self.old.air self.old.reader self.old.state) heard →
            length heard ≡ buckets → newest_of self.old.state.now heard ≡ max self.old.state.now cycle →
            self.new.state ≡ hear_each (by_entries self.old.air.scheme) self.old.air self.old.reader heard self.old.state }
        ensures counted { self.new.state ≡ dozed_through buckets (max self.old.state.now cycle) self.old.state }
        ensures settled { IsSettled self.new }
        ensures air { self.new.air ≡ self.old.air }
        ensures reader { self.new.reader ≡ self.old.reader }
        ensures last { self.new.last ≡ self.old.last }
        ensures held { StaysTrue self.old self.new }
    {
        self.come_to(cycle);
        self.counts.dozed += buckets;
    }

    /// Gives out the verdict that waits, or continues up to the next one.
    pub fn step(&mut self) -> Step
        ensures state { record self.new.state { lines = lines_given result self.new.last } ≡ state_after_step self.old }
        ensures given { self.new.state.lines ≡ [] }
        ensures tells { StepTells result self.old self.new }
        ensures air { self.new.air ≡ self.old.air }
        ensures reader { self.new.reader ≡ self.old.reader }
        ensures last { self.new.last ≡ last_reads (lines_given result self.new.last) self.old.last }
        ensures heard { heard_count self.new.state.counts ≡ heard_count self.old.state.counts }
        ensures held { StaysTrue self.old self.new }
    {
        if let Some(verdict) = self.waiting.take() {
            return Step::Verdict(verdict);
        }
        self.settle_to_line();
        match self.waiting.take() {
            Some(verdict) => Step::Verdict(verdict),
            None if self.reader.has(self.query) => Step::Waiting,
            None => Step::Done,
        }
    }

    /// Leaves the query at hand unfinished, begins the next one, and drops all copies. If no query is left, only the copies are dropped.
    pub fn end(&mut self) -> Option<Verdict>
        requires settled { IsSettled self.old }
        ensures state { record self.new.state { lines = lines_of result self.new.last } ≡ end_query (by_entries self.old.air.scheme) self.old.air self.old.reader self.old.state }
        ensures given { self.new.state.lines ≡ [] }
        ensures none { IsNone result ↔ (length self.old.reader.queries ≤ self.old.state.query) }
        ensures settled { IsSettled self.new }
        ensures air { self.new.air ≡ self.old.air }
        ensures reader { self.new.reader ≡ self.old.reader }
        ensures last { self.new.last ≡ last_reads (lines_of result self.new.last) self.old.last }
        ensures held { StaysTrue self.old self.new }
    {
        drop_all(&mut self.copies, self.air.items());
        if !self.reader.has(self.query) {
            return None;
        }
        self.give(VerdictKind::Unfinished);
        self.next_query();
        self.waiting.take()
    }

    /// Returns the reads of the last verdict, in the order of reading; none before the first verdict. From the call that makes a verdict they are its
    /// reads, even before `step` returns it.
    pub fn last_reads(&self) -> &[ReadOf]
        ensures { result.now ≡ self.now.last }
    {
        self.last.as_slice()
    }

    /// Returns the wanted item: the first of the query that isn't held; nothing if no query is left.
    pub fn wanted(&self) -> Option<u16>
        ensures told { result ≡ wanted self.now.reader self.now.state }
        ensures first { result ≡ first_unheld self.now.reader self.now.state }
        ensures within { IfSome result (λ i. i < self.now.air.items) }
    {
        self.reader.item(self.query, self.held.len())
    }

    /// Tells whether a bucket fits the deck.
    pub fn fits(&self, bucket: &BucketView<'_>) -> bool
        ensures { result ≡ fits self.now.air bucket.now }
    {
        self.air.fits(bucket)
    }

    /// Returns the counts of what was heard.
    pub fn counts(&self) -> Counts
        ensures { result ≡ self.now.state.counts }
    {
        self.counts
    }
}
