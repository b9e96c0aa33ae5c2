//! The ether: its contracts say which pushed list it follows, and how many members of what is heard of it were given.
//!
//! `due_of` is what is due of a pushed list; after the end, that is all that is heard of it. `next` gives its members one by
//! one.

ghost use Rattle.std.specs.Prelude.{◌≡◌, ℕ, ◌+◌, ◌-◌, ◌<◌, ◌≤◌, List, [], ◌∷◌, ◌++◌, true, false, length, IfOk, Some, Contains, IfSome, MatchOption, slice_get, max};
ghost use Rattle.air_base.specs.declared.limits.TheConstants.{MOST_SHARE};
ghost use Rattle.air_ether.specs.HeardPlaces.{places_of};
ghost use Rattle.air_ether.specs.HeardSoFar.{IsEtherAfter, IsQuiet, due_of, left_of, limit_of};
ghost use Rattle.air_ether.specs.declared.waiting.TheConstants.{KEPT};
ghost use Rattle.air_ether.specs.declared.ether.TheConstants.{MOST_BYTES, MOST_DUE, MOST_PUSHES};

use crate::cursor::{Cursor, seek};
use crate::odds::Odds;
use crate::waiting::{KEPT, QueuedPush, queue};
use air_base::NoMemory;
use air_base::limits::MOST_DATAGRAM_BYTES;
use rand_pcg::Lcg64Xsh32;
use std::alloc::Global;
use std::marker::Model;

/// The most bytes of a bucket: those of the longest datagram.
pub const MOST_BYTES: usize = MOST_DATAGRAM_BYTES;

/// The most pushes: no due number goes over 64 bits.
pub const MOST_PUSHES: u64 = 18_446_744_073_709_551_600;

/// After a push, and after the end, at most this many buckets are due.
pub const MOST_DUE: u64 = 269;

/// Pushes with due numbers below this are due; after the end all are.
fn limit_of(ended: bool, pushes: u64) -> u64
    requires { pushes ≤ MOST_PUSHES }
    ensures { result ≡ limit_of ended pushes }
{
    if ended { pushes + 8 } else { pushes }
}

/// The first place that may be due at the number of a push, at this place: its own once every delayed push was due before.
fn first_place(from: u64, place: u64, late_until: u64) -> u64
    ensures stays { place ≤ late_until → result ≡ from }
    ensures moves { late_until < place → result ≡ place }
{
    if late_until < place { place } else { from }
}

/// The greatest due number of a delayed push, after one more: the push at a place with this due number.
fn late_after(late_until: u64, place: u64, due: u64) -> u64
    ensures before { late_until ≤ result }
    ensures own { due ≤ max place result }
{
    if due == place || due < late_until {
        late_until
    } else {
        due
    }
}

/// The ether of one reader: its odds, the most bytes of a bucket, its words, how many buckets were pushed, whether the end was
/// told, its position in the heard list, the last `KEPT` pushes, and the greatest due number of a delayed one.
#[derive(Drop)]
pub struct Ether {
    odds: Odds,
    most: usize,
    generator: Lcg64Xsh32,
    pushes: u64,
    ended: bool,
    cursor: Cursor,
    queue: Vec<QueuedPush>,
    late_until: u64,
}

impl Model for Ether {
    ghost use Rattle.air_ether.specs.HeardSoFar.{Ether};

    ghost Value = { Ether };

    ghost use Rattle.air_ether.specs.EtherFields.{IsEther, ether_in};

    ghost view = { ether_in };

    ghost invariant = { IsEther };
}

impl Ether {
    ghost use Rattle.std.specs.Borrow.{sem};
    ghost use Rattle.air_ether.specs.LentBuckets.{Gave, Gives};

    /// The ether of a seed and a reader's number, before any push, with room for buckets of at most `most` bytes.
    pub fn new(
        alloc: Global,
        seed: u64,
        number: u32,
        loss: u32,
        again: u32,
        late: u32,
        most: usize,
    ) -> Result<Ether, NoMemory>
        requires loss { loss ≤ MOST_SHARE }
        requires again { again ≤ MOST_SHARE }
        requires late { late ≤ MOST_SHARE }
        requires most { most ≤ MOST_BYTES }
        ensures room { IfOk result (λ e. e.most ≡ most) }
        ensures odds { IfOk result (λ e. e.odds ≡ record { loss = loss; again = again; late = late }) }
        ensures open { IfOk result (λ e. (e.ended ≡ false) × (e.pushes ≡ 0) × IsQuiet e) }
        ensures few { IfOk result (λ e. left_of e ≤ MOST_DUE) }
        ensures follows { IfOk result (λ e. IsEtherAfter seed number [] 0 e) }
    {
        Ok(Ether {
            odds: Odds { loss, again, late },
            most,
            generator: Lcg64Xsh32::new(seed, u64::from(number)),
            pushes: 0,
            ended: false,
            cursor: Cursor {
                number: 0,
                place: 0,
                given: 0,
            },
            queue: queue(alloc, most)?,
            late_until: 0,
        })
    }

    /// How many buckets were pushed.
    pub fn pushes(&self) -> u64
        ensures { result ≡ self.now.pushes }
    {
        self.pushes
    }

    /// Pushes a bucket. Nothing that is due may wait: so it is after `new`, and when `next` gives None.
    pub fn push(&mut self, bytes: &[u8])
        requires room { length bytes.now ≤ self.old.most }
        requires quiet { IsQuiet self.old }
        requires open { self.old.ended ≡ false }
        requires few { self.old.pushes < MOST_PUSHES }
        ensures room { self.new.most ≡ self.old.most }
        ensures odds { self.new.odds ≡ self.old.odds }
        ensures open { self.new.ended ≡ false }
        ensures pushes { self.new.pushes ≡ self.old.pushes + 1 }
        ensures few { left_of self.new ≤ MOST_DUE }
        ensures follows { (seed number given : ℕ) (pushed : List (List ℕ)) → IsEtherAfter seed number pushed given self.old →
            IsEtherAfter seed number (pushed ++ bytes.now ∷ []) given self.new }
    {
        let hearing = self.odds.draw(&mut self.generator, self.pushes);
        let from = first_place(self.cursor.place, self.pushes, self.late_until);
        let until = late_after(self.late_until, self.pushes, hearing.due);
        let room = &mut self.queue[(self.pushes % KEPT) as usize];
        room.fill(hearing, bytes);
        self.cursor.place = from;
        self.late_until = until;
        self.pushes += 1;
    }

    /// The place of the next heard bucket; None if no further one is due.
    pub(crate) fn next_place(&mut self) -> Option<u64>
        ensures within { IfSome result (λ p. (p < self.old.pushes) × (self.old.pushes ≤ p + KEPT)) }
        ensures less { left_of self.new ≤ left_of self.old }
        ensures given { (seed number given : ℕ) (pushed : List (List ℕ)) → IsEtherAfter seed number pushed given self.old →
            MatchOption result (given ≡ length (places_of seed number self.old.odds (length pushed) self.old.ended))
            (λ p. slice_get (places_of seed number self.old.odds (length pushed) self.old.ended) given ≡ Some p) }
        ensures after { Gave self.old result self.new }
    {
        let limit = limit_of(self.ended, self.pushes);
        if !seek(&mut self.cursor, &self.queue, self.pushes, limit) {
            return None;
        }
        self.cursor.given += 1;
        Some(self.cursor.place)
    }

    /// The next heard bucket; None if no further one is due.
    pub fn next(&mut self) -> Option<&[u8]>
        ensures pushed { (seed number given : ℕ) (pushed : List (List ℕ)) → IsEtherAfter seed number pushed given self.old →
            IfSome result (λ b. Contains pushed b.now) }
        ensures given { (seed number given : ℕ) (pushed : List (List ℕ)) → IsEtherAfter seed number pushed given self.old →
            MatchOption result (given ≡ length (due_of seed number self.old.odds pushed self.old.ended))
            (λ b. slice_get (due_of seed number self.old.odds pushed self.old.ended) given ≡ Some b.now) }
        ensures* after { sem 𝓛 (Gives self.entry result) }
    {
        let Some(place) = self.next_place() else {
            return None;
        };
        let room = (place % KEPT) as usize;
        Some(self.queue[room].bytes())
    }

    /// Makes all the rest due. Nothing that is due may wait.
    pub fn end(&mut self)
        requires { IsQuiet self.old }
        ensures room { self.new.most ≡ self.old.most }
        ensures odds { self.new.odds ≡ self.old.odds }
        ensures ended { self.new.ended ≡ true }
        ensures pushes { self.new.pushes ≡ self.old.pushes }
        ensures few { left_of self.new ≤ MOST_DUE }
        ensures follows { (seed number given : ℕ) (pushed : List (List ℕ)) → IsEtherAfter seed number pushed given self.old →
            IsEtherAfter seed number pushed given self.new }
    {
        self.ended = true;
    }
}
