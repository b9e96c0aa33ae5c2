//! The ether of one reader without bytes: it gives the places of the buckets that are heard, as they are due.
//!
//! It is an ether whose buckets are empty. So it draws the same words, and its places are those of the buckets that `Ether` gives.

ghost use Rattle.std.specs.Prelude.{◌≡◌, ℕ, ◌+◌, ◌<◌, ◌≤◌, false, true, length, IfOk, IfNone, IfSome, MatchOption, Option, OnSome, Some, max, slice_get};
ghost use Rattle.air_base.specs.declared.limits.TheConstants.{MOST_SHARE};
ghost use Rattle.air_ether.specs.HeardPlaces.{IsPlacesAfter, left_before, places_of};
ghost use Rattle.air_ether.specs.HeardSoFar.{IsQuiet, left_of};
ghost use Rattle.air_ether.specs.declared.ether.TheConstants.{MOST_DUE, MOST_PUSHES};
ghost use Rattle.air_ether.specs.declared.waiting.TheConstants.{KEPT};

use crate::ether::Ether;
use air_base::NoMemory;
use std::alloc::Global;
use std::marker::Model;

/// The ether of one reader, without bytes.
#[derive(Drop)]
pub struct PlaceEther {
    ether: Ether,
}

impl Model for PlaceEther {
    ghost use Rattle.air_ether.specs.HeardSoFar.{Ether};

    ghost Value = { Ether };

    ghost view = { λ e. e.ether };
}

impl PlaceEther {
    /// The ether of a seed and a reader's number, before any push.
    pub fn new(
        alloc: Global,
        seed: u64,
        number: u32,
        loss: u32,
        again: u32,
        late: u32,
    ) -> Result<PlaceEther, NoMemory>
        requires loss { loss ≤ MOST_SHARE }
        requires again { again ≤ MOST_SHARE }
        requires late { late ≤ MOST_SHARE }
        ensures odds { IfOk result (λ e. e.odds ≡ record { loss = loss; again = again; late = late }) }
        ensures open { IfOk result (λ e. (e.ended ≡ false) × (e.pushes ≡ 0) × IsQuiet e) }
        ensures few { IfOk result (λ e. left_of e ≤ MOST_DUE) }
        ensures follows { IfOk result (λ e. IsPlacesAfter seed number 0 e) }
    {
        Ok(PlaceEther {
            ether: Ether::new(alloc, seed, number, loss, again, late, 0)?,
        })
    }

    /// How many buckets were pushed.
    pub fn pushes(&self) -> u64
        ensures { result ≡ self.now.pushes }
    {
        self.ether.pushes()
    }

    /// Pushes the bucket of the next place. Nothing that is due may wait: so it is after `new`, and when `next` gives None.
    pub fn push(&mut self)
        requires quiet { IsQuiet self.old }
        requires open { self.old.ended ≡ false }
        requires few { self.old.pushes < MOST_PUSHES }
        ensures odds { self.new.odds ≡ self.old.odds }
        ensures open { self.new.ended ≡ false }
        ensures pushes { self.new.pushes ≡ self.old.pushes + 1 }
        ensures few { left_of self.new ≤ MOST_DUE }
        ensures follows { (seed number given : ℕ) → IsPlacesAfter seed number given self.old → IsPlacesAfter seed number given self.new }
    {
        self.ether.push(&[]);
    }

    /// The place of the next heard bucket; None if no further one is due.
    pub fn next(&mut self) -> Option<u64>
        ensures odds { self.new.odds ≡ self.old.odds }
        ensures pushes { self.new.pushes ≡ self.old.pushes }
        ensures ended { self.new.ended ≡ self.old.ended }
        ensures quiet { IfNone result (IsQuiet self.new) }
        ensures less { left_of self.new ≤ left_of self.old }
        ensures fewer { OnSome result (left_of self.new < left_of self.old) }
        ensures within { IfSome result (λ p. (p < self.old.pushes) × (self.old.pushes ≤ p + KEPT)) }
        ensures given { (seed number given : ℕ) → IsPlacesAfter seed number given self.old →
            MatchOption result (given ≡ length (places_of seed number self.old.odds self.old.pushes self.old.ended))
            (λ p. slice_get (places_of seed number self.old.odds self.old.pushes self.old.ended) given ≡ Some p) }
        ensures follows { (seed number given : ℕ) → IsPlacesAfter seed number given self.old →
            MatchOption result (IsPlacesAfter seed number given self.new) (λ p. IsPlacesAfter seed number (given + 1) self.new) }
    {
        self.ether.next_place()
    }

    /// Pushes buckets up to the one before place `last` until one is heard, and gives its place; None if none is heard until then.
    pub fn next_before(&mut self, last: u64) -> Option<u64>
        requires open { self.old.ended ≡ false }
        requires few { last ≤ MOST_PUSHES }
        requires upto { self.old.pushes ≤ last }
        ensures odds { self.new.odds ≡ self.old.odds }
        ensures open { self.new.ended ≡ false }
        ensures pushes { (self.old.pushes ≤ self.new.pushes) × (self.new.pushes ≤ last) }
        ensures all { IfNone result (self.new.pushes ≡ last) }
        ensures quiet { IfNone result (IsQuiet self.new) }
        ensures fewer { MatchOption result (left_before last self.new ≤ left_before last self.old) (λ p. left_before last self.new < left_before last self.old) }
        ensures within { IfSome result (λ p. (p < last) × (self.old.pushes ≤ p + KEPT)) }
        ensures given { (seed number given : ℕ) → IsPlacesAfter seed number given self.old →
            MatchOption result (given ≡ length (places_of seed number self.old.odds last false))
            (λ p. slice_get (places_of seed number self.old.odds last false) given ≡ Some p) }
        ensures follows { (seed number given : ℕ) → IsPlacesAfter seed number given self.old →
            MatchOption result (IsPlacesAfter seed number given self.new) (λ p. IsPlacesAfter seed number (given + 1) self.new) }
    {
        loop {
            if let Some(place) = self.next() {
                return Some(place);
            }
            if last <= self.pushes() {
                return None;
            }
            self.push();
        }
    }

    /// Makes all the rest due. Nothing that is due may wait.
    pub fn end(&mut self)
        requires { IsQuiet self.old }
        ensures odds { self.new.odds ≡ self.old.odds }
        ensures ended { self.new.ended ≡ true }
        ensures pushes { self.new.pushes ≡ self.old.pushes }
        ensures few { left_of self.new ≤ MOST_DUE }
        ensures follows { (seed number given : ℕ) → IsPlacesAfter seed number given self.old → IsPlacesAfter seed number given self.new }
    {
        self.ether.end();
    }
}
