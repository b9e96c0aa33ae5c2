//! What a commit answers, and how it is filled.
//!
//! A receipt is made with room for an update's lists before the commit, which then takes no memory.

ghost use Rattle.std.specs.Prelude.{◌≡◌, ◌<◌, ℕ, length, map, get_or, All, IfOk};
ghost use Rattle.air_history.specs.UpdateRules.{written_item};
ghost use Rattle.air_history.specs.Histories.{reads, writes_of, ItemsFit};
ghost use Rattle.air_history.specs.Tables.{values_of, value_after};
ghost use Rattle.update_commit.specs.Receipts.{HasRoom};

use air_base::{NoMemory, Values};
use air_history::{Event, Update, Write, run_event};
use std::alloc::Global;

/// What a commit did: its place in the history, the number of starts before it, the values that it read, and those that it
/// wrote, each in the order of the update's lists.
#[derive(Debug, Drop)]
pub struct Receipt {
    pub number: u64,
    pub cycle: u32,
    pub read: Values,
    pub written: Values,
}

/// This many zeros.
fn zeros(alloc: Global, count: usize) -> Result<Values, NoMemory>
    ensures { IfOk result (λ values. length values ≡ count) }
{
    Ok(Values::from_vec(vec![in alloc; 0; count]?))
}

impl Receipt {
    /// A receipt with room for both lists of the update.
    pub fn room(alloc: Global, update: &Update) -> Result<Receipt, NoMemory>
        ensures { IfOk result (HasRoom update.now) }
    {
        Ok(Receipt {
            number: 0,
            cycle: 0,
            read: zeros(alloc, update.reads().len())?,
            written: zeros(alloc, update.writes().len())?,
        })
    }
}

/// Puts the values of these items into the list, in order.
fn copy_read(values: &[u64], items: &[u16], into: &mut Values)
    requires room { length into.old ≡ length items.now }
    requires fits { All (λ i. i < length values.now) items.now }
    ensures { into.new ≡ map (values_of values.now) items.now }
{
    for (place, item) in items.iter().enumerate() {
        into.put(place, values[*item as usize]);
    }
}

/// Puts the values of the items of these writes into the list, in order.
fn copy_written(values: &[u64], writes: &[Write], into: &mut Values)
    requires room { length into.old ≡ length writes.now }
    requires fits { All (λ w. w.item < length values.now) writes.now }
    ensures { into.new ≡ map (values_of values.now) (map written_item writes.now) }
{
    for (place, write) in writes.iter().enumerate() {
        into.put(place, values[write.item as usize]);
    }
}

/// Runs the event on the values, and puts the values that it read and those that it wrote into the receipt.
#[tactic(auto, using(crate::proofs::StepLemmas::reads_within, crate::proofs::StepLemmas::writes_within))]
pub(crate) fn run_and_answer(values: &mut [u64], event: &Event, into: &mut Receipt)
    requires fits { ItemsFit (length values.old) event.now }
    requires room { (length into.old.read ≡ length (reads event.now)) × (length into.old.written ≡ length (writes_of event.now)) }
    ensures values { (i : ℕ) → get_or values.new i 0 ≡ value_after (values_of values.old) event.now i }
    ensures read { into.new.read ≡ map (values_of values.old) (reads event.now) }
    ensures written { into.new.written ≡ map (values_of values.new) (map written_item (writes_of event.now)) }
    ensures kept { (into.new.number ≡ into.old.number) × (into.new.cycle ≡ into.old.cycle) }
{
    copy_read(values, event.reads(), &mut into.read);
    run_event(event, values);
    copy_written(values, event.writes(), &mut into.written);
}
