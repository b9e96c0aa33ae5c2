//! Updates: what a transaction of the server reads and writes.
//!
//! The type keeps these rules: reads are distinct and at most 16; writes are distinct and 1 to 16; each base is read; a minus
//! has a base. Contracts see an update as its two lists.

ghost use Rattle.std.specs.Prelude.{◌≡◌, ◌↔◌, ◌≤◌, length, map, MatchResult, IfOk, IsTrue, ◌⊎◌, ◌==◌, Some, None};
ghost use Rattle.std.specs.List.{list_any, list_all};
ghost use Rattle.air_history.specs.UpdateRules.{has_repeat, written_item, base_is_read, update_fault, KeepsRules, UpdateFits};

use air_base::NoMemory;
use air_base::limits::{MOST_READS, MOST_WRITES};
use arrayvec::ArrayVec;
use std::alloc::{AllocError, Global};
use std::error::Error;
use std::fmt;
use std::marker::Model;

/// A write of an item: a constant, or a read item's value plus or minus a constant, modulo 2^64.
#[derive(Clone, Copy, Debug, PartialEq, Eq)]
pub struct Write {
    pub item: u16,
    pub base: Option<u16>,
    pub minus: bool,
    pub amount: u64,
}

/// Why two lists make no update.
#[derive(Clone, Copy, Debug, PartialEq, Eq)]
pub enum UpdateFault {
    /// There are more than 16 reads, no write, or more than 16 writes.
    Limit,
    /// An item is twice among the reads or among the writes.
    Repeated,
    /// A base isn't read, or a minus has no base.
    BaseNotRead,
    /// There was no memory for the update.
    NoMemory,
}

impl fmt::Display for UpdateFault {
    fn fmt<W: fmt::Write>(&self, f: &mut fmt::Formatter<W>) -> fmt::Result {
        f.write_str(match self {
            UpdateFault::Limit => "an update has at most 16 reads and 1 to 16 writes",
            UpdateFault::Repeated => "an item stands twice among the reads or the writes",
            UpdateFault::BaseNotRead => "a base isn't among the reads, or a minus has no base",
            UpdateFault::NoMemory => "out of memory",
        })
    }
}

impl Error for UpdateFault {}

impl From<AllocError> for UpdateFault {
    ghost use Rattle.std.specs.Prelude.{◌≡◌};
    ghost use Rattle.air_history.specs.declared.updates.UpdateFault.TheVariants.{NoMemory};

    ghost from_gives = { λ _ e. e ≡ NoMemory };

    fn from(_error: AllocError) -> Self {
        UpdateFault::NoMemory
    }
}

/// An update: the items that it reads, and its writes.
#[derive(Debug, Drop)]
pub struct Update {
    reads: ArrayVec<u16, MOST_READS>,
    writes: Vec<Write>,
}

impl Model for Update {
    ghost use Rattle.air_history.specs.UpdateLists.{UpdateLists};

    ghost Value = { UpdateLists };

    ghost use Rattle.air_history.specs.UpdateRules.{KeepsRules};

    ghost view = { λ u. record { reads = u.reads.items; writes = u.writes.items } };

    ghost invariant = { λ u. KeepsRules (record { reads = u.reads.items; writes = u.writes.items }) };
}

impl Update {
    /// An update of these lists, or the first rule that they break: `Limit`, `Repeated`, then `BaseNotRead`.
    #[tactic(auto, unfolding(crate::specs::UpdateRules::update_fault))]
    pub fn new(alloc: Global, reads: &[u16], writes: &[Write]) -> Result<Update, UpdateFault>
        ensures made { IfOk result (λ u. u ≡ record { reads = reads.now; writes = writes.now }) }
        ensures cause { MatchResult result (λ _. update_fault reads.now writes.now ≡ None)
            (λ e. (e ≡ UpdateFault.NoMemory) ⊎ (update_fault reads.now writes.now ≡ Some e)) }
    {
        if reads.len() > MOST_READS || writes.is_empty() || writes.len() > MOST_WRITES {
            return Err(UpdateFault::Limit);
        }
        if has_number_twice(reads) || has_item_twice(writes) {
            return Err(UpdateFault::Repeated);
        }
        if !all_based(reads, writes) {
            return Err(UpdateFault::BaseNotRead);
        }
        Ok(Update {
            reads: inline(reads),
            writes: writes.to_vec(alloc)?,
        })
    }

    /// An update of lists that keep the rules. The caller proves that they do; the lists aren't tested again.
    /// `shows_rules_kept` gives the proof for the lists of any update. For other lists a caller needs its own test, or calls
    /// `new`.
    #[inline(always)]
    pub fn of_lists(alloc: Global, reads: &[u16], writes: &[Write]) -> Result<Update, NoMemory>
        requires { update_fault reads.now writes.now ≡ None }
        ensures { IfOk result (λ u. u ≡ record { reads = reads.now; writes = writes.now }) }
    {
        Ok(Update {
            reads: inline(reads),
            writes: writes.to_vec(alloc)?,
        })
    }

    /// An equal update.
    pub fn copy(&self, alloc: Global) -> Result<Update, NoMemory>
        ensures { IfOk result (λ u. u ≡ self.now) }
    {
        Ok(Update {
            reads: inline(&self.reads),
            writes: self.writes.to_vec(alloc)?,
        })
    }

    /// The items that the update reads, in order.
    pub fn reads(&self) -> &[u16]
        ensures { result.now ≡ self.now.reads }
    {
        self.reads.as_slice()
    }

    /// The update's writes, in order.
    pub fn writes(&self) -> &[Write]
        ensures { result.now ≡ self.now.writes }
    {
        &self.writes
    }

    /// Whether all items of the update are below `n`.
    pub fn fits(&self, n: u16) -> bool
        ensures { IsTrue result ↔ UpdateFits n self.now }
    {
        self.reads.iter().all(|item| *item < n) && self.writes.iter().all(|write| write.item < n)
    }

    /// For proofs only: tells the caller that the rules of the type hold. It does nothing at run time.
    pub fn shows_rules_kept(&self)
        ensures { KeepsRules self.now }
    {
        let _reads = &self.reads;
    }
}

/// The items, stored in the value itself as an update keeps them.
#[inline(always)]
fn inline(items: &[u16]) -> ArrayVec<u16, MOST_READS>
    requires { length items.now ≤ MOST_READS }
    ensures { result.items ≡ items.now }
{
    let mut kept = ArrayVec::new();
    let _fits = kept.try_extend_from_slice(items);
    kept
}

/// Whether the number is one of the list.
fn contains_number(numbers: &[u16], number: u16) -> bool
    ensures { result ≡ list_any (λ y. y == number) numbers.now }
{
    numbers.iter().any(|other| *other == number)
}

/// Whether a write is of the item.
pub fn writes_item(writes: &[Write], item: u16) -> bool
    ensures { result ≡ list_any (λ w. w.item == item) writes.now }
{
    writes.iter().any(|write| write.item == item)
}

/// Whether the list has a number twice.
#[tactic(auto, using(crate::proofs::RepeatedItemLemmas::repeats_none, crate::proofs::RepeatedItemLemmas::repeats_here, crate::proofs::RepeatedItemLemmas::repeats_more, crate::proofs::RepeatedItemLemmas::repeats_all))]
fn has_number_twice(numbers: &[u16]) -> bool
    ensures { result ≡ has_repeat numbers.now }
{
    for (i, number) in numbers.iter().enumerate() {
        if contains_number(&numbers[i + 1..], *number) {
            return true;
        }
    }
    false
}

/// Whether two writes are of one item.
#[tactic(auto, using(crate::proofs::RepeatedItemLemmas::items_none, crate::proofs::RepeatedItemLemmas::items_here, crate::proofs::RepeatedItemLemmas::items_more, crate::proofs::RepeatedItemLemmas::items_all))]
fn has_item_twice(writes: &[Write]) -> bool
    ensures { result ≡ has_repeat (map written_item writes.now) }
{
    for (i, write) in writes.iter().enumerate() {
        if writes_item(&writes[i + 1..], write.item) {
            return true;
        }
    }
    false
}

/// Whether the write's base is read, and a minus has a base.
fn is_based(reads: &[u16], write: &Write) -> bool
    ensures { result ≡ base_is_read reads.now write.now }
{
    match write.base {
        None => !write.minus,
        Some(base) => contains_number(reads, base),
    }
}

/// Whether each write's base is read, and each minus has a base.
fn all_based(reads: &[u16], writes: &[Write]) -> bool
    ensures { result ≡ list_all (base_is_read reads.now) writes.now }
{
    for write in writes {
        if !is_based(reads, write) {
            return false;
        }
    }
    true
}
