//! A turnstile and its five calls. Their contracts are all that a layer above knows of its threads.
//!
//! In a clause a turnstile is its identity, and a pass is a `TurnstilePass` (`specs/Passes`). `own` says that the pass is of
//! this turnstile, `outside` that it is in no turn. `enter`, `leave`, `join` and `close` take no memory, and only `enter`
//! waits.
ghost use Rattle.std.specs.Prelude.{◌≡◌, ℕ, ◌<◌, length, slice_get, Contains, IfOk, IsSome, IfSome, Some, None};
ghost use Rattle.turnstile.specs.PassEntries.{Below, Continues, Lengthens};
ghost use Rattle.turnstile.specs.Passes.{newcomer, after_enter, after_leave, after_join};

use crate::chronicles::Chronicle;
use crate::dealing::{deal, vec_of_one};
use crate::passes::{Pass, Turn};
use crate::rule::{About, Rule, SERVING, SLOT, TICKETS};
use crate::steps::{Compare, Leave, Serve, TakeTicket, Unite};
use crate::views::View;
use air_base::NoMemory;
use atomic_table::Table;
use std::alloc::Global;
use std::marker::Model;
use std::snapshot::Snapshot;
use std::sync::Wait;
use std::{hint, thread};

/// How many times a wait looks again at once before it yields.
const SPINS: u32 = 100;

/// A lock around one value, which goes from pass to pass.
#[derive(Drop)]
pub struct Turnstile<K: Chronicle> {
    table: Table<Option<K>, View<K::Entry, K::Base>, About<K>, Rule, Global>,
}

impl<K: Chronicle> Model for Turnstile<K> {
    ghost use Rattle.std.specs.Prelude.{◌≡◌};
    ghost use Rattle.atomic_table.specs.Seated.{table_id_coded};
    ghost use Rattle.turnstile.specs.Passes.{TurnstileId};

    ghost Value = { TurnstileId };

    ghost coded = { table_id_coded };

    ghost view = { λ t. t.table.shared.table_id };

    ghost invariant = { λ t. (t.table.shared.table_id.words ≡ 2) × (t.table.shared.table_id.slots ≡ 1) };
}

/// Lets others run: at first it only pauses the processor, and after some rounds it yields the thread. Gives the number of
/// rounds. No clause mentions it.
fn pause(rounds: u32) -> u32 {
    if rounds < SPINS {
        hint::spin_loop();
        rounds + 1
    } else {
        thread::yield_now();
        rounds
    }
}

impl<K: Chronicle + Drop> Turnstile<K> {
    /// A turnstile around this value, and its passes, numbered from 0 in the order of the vector. Each pass has seen the
    /// value's list. After `NoMemory` the value is dropped.
    pub fn new(
        alloc: Global,
        value: K,
        passes: u32,
    ) -> Result<(Turnstile<K>, Vec<Pass<K>>), NoMemory>
        requires some { 0 < passes }
        requires entries { Below passes (K.entries value) }
        ensures passes { IfOk result (λ made. length made.1.items ≡ passes) }
        ensures each { IfOk result (λ made. (k : ℕ) (p : _) → slice_get made.1.items k ≡ Some p → p ≡ newcomer made.0 passes (K.base value) (K.entries value) k) }
    {
        let mut all = Vec::with_capacity(alloc, passes as usize)?;
        let about = About {
            value: Snapshot::of(&value),
            passes: u64::from(passes),
        };
        let slots = vec_of_one(alloc, Some(value))?;
        let Ok((table, seat)) = Table::new(alloc, &[0, 0], slots, &about) else {
            return Err(NoMemory);
        };
        deal(&table.shared, &about, seat, &mut all);
        Ok((Turnstile { table }, all))
    }
}

impl<K: Chronicle> Turnstile<K> {
    /// Waits for the pass's turn and gives the value. Its list begins with all that the pass has seen, and what follows has
    /// none of the pass's own entries.
    pub fn enter<R: Wait>(&self, wait: &R, pass: &mut Pass<K>) -> Turn<K>
        requires own { pass.old.turnstile ≡ self.now }
        requires outside { pass.old.turn ≡ None }
        ensures pass { pass.new ≡ after_enter pass.old (K.entries result.value) }
        ensures base { pass.old.base ≡ Some (K.base result.value) }
        ensures list { Continues pass.old.numbers pass.old.seen (K.entries result.value) }
    {
        let shared = &self.table.shared;
        let ticket = shared.fetch_add::<TakeTicket>(&mut pass.seat, TICKETS, 1);
        let mut rounds = 0;
        for _ in wait.forever() {
            let served = shared.load::<Serve>(&mut pass.seat, SERVING);
            if served == ticket {
                let Some(value) = shared.exchange(&mut pass.seat, SLOT, None) else {
                    unreachable!()
                };
                return Turn { value };
            }
            rounds = pause(rounds);
        }
        unreachable!()
    }

    /// Puts the value back and lets the next pass in. The pass has then seen the value's list, which begins with the one that
    /// `enter` gave; each entry after that is the pass's own.
    pub fn leave(&self, pass: &mut Pass<K>, turn: Turn<K>)
        requires own { pass.old.turnstile ≡ self.now }
        requires inside { IsSome pass.old.turn }
        requires base { pass.old.base ≡ Some (K.base turn.value) }
        requires list { IfSome pass.old.turn (λ given. Lengthens pass.old.numbers given (K.entries turn.value)) }
        ensures pass { pass.new ≡ after_leave pass.old (K.entries turn.value) }
    {
        let shared = &self.table.shared;
        let Turn { value } = turn;
        let away = shared.exchange(&mut pass.seat, SLOT, Some(value));
        let None = away else { unreachable!() };
        shared.fetch_add::<Leave>(&mut pass.seat, SERVING, 1);
    }

    /// From now on the pass stands for the numbers of both, and has seen the longer of the two lists. That list continues each
    /// of the two by entries of passes other than the one that had seen it.
    pub fn join(&self, pass: &mut Pass<K>, other: Pass<K>)
        requires own { (pass.old.turnstile ≡ self.now) × (other.turnstile ≡ self.now) }
        requires outside { (pass.old.turn ≡ None) × (other.turn ≡ None) }
        ensures pass { pass.new ≡ after_join pass.old other }
        ensures mine { Continues pass.old.numbers pass.old.seen pass.new.seen }
        ensures other { Continues other.numbers other.seen pass.new.seen }
    {
        let shared = &self.table.shared;
        let Pass { seat } = other;
        shared.join_seat::<Unite>(&mut pass.seat, seat);
        shared.load::<Compare>(&mut pass.seat, TICKETS);
    }

    /// Gives the value, for a pass that stands for all numbers. The value's list is the one that the pass has seen.
    pub fn close(self, pass: Pass<K>) -> K
        requires own { pass.turnstile ≡ self }
        requires outside { pass.turn ≡ None }
        requires all { (n : ℕ) → n < pass.passes → Contains pass.numbers n }
        ensures list { K.entries result ≡ pass.seen }
        ensures base { pass.base ≡ Some (K.base result) }
    {
        let Turnstile { table } = self;
        let Pass { seat } = pass;
        let mut closed = table.close_with(seat);
        let Some(value) = closed.take(SLOT) else {
            unreachable!()
        };
        closed.free();
        value
    }
}
