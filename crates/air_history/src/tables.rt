//! The values after running commits, changed in place and without taking memory.

ghost use Rattle.std.specs.Prelude.{◌≡◌, ◌==◌, ℕ, ◌<◌, ◌≤◌, length, take, find, All, IfSome, get_or, slice_index, slice_index_or, EachIndex};
ghost use Rattle.air_history.specs.declared.updates.Write.{Write};
ghost use Rattle.air_history.specs.Histories.{ItemsFit};
ghost use Rattle.air_history.specs.UpdateRules.{UpdateFits};
ghost use Rattle.air_history.specs.Tables.{value_after_write, value_of_write, values_of, WriteFits, value_after, table_list};

use crate::histories::{Event, History};
use crate::updates::{Update, Write};
use air_base::limits::MOST_WRITES;

/// Runs the commits before place `upto` on the values.
pub fn table_of(h: &History, upto: u64, values: &mut [u64])
    requires within { upto ≤ length h.now }
    requires fits { All (ItemsFit (length values.old)) h.now }
    ensures { values.new ≡ table_list values.old (take upto h.now) }
{
    for event in &h.events()[..upto as usize] {
        run_event(event, values);
    }
}

/// Runs one event on the values, without taking memory.
pub fn run_event(event: &Event, values: &mut [u64])
    requires { ItemsFit (length values.old) event.now }
    ensures { (i : ℕ) → slice_index_or values.new i 0 ≡ value_after (values_of values.old) event.now i }
{
    match event {
        Event::Commit { update, .. } => run_update(update, values),
        Event::Start => {}
    }
}

/// Runs one update on the values: first computes all new values from those before it, then writes them.
fn run_update(update: &Update, values: &mut [u64])
    requires { UpdateFits (length values.old) update.now }
    ensures { (i : ℕ) → slice_index_or values.new i 0 ≡ value_after_write (values_of values.old) i (find (λ w. w.item == i) update.now.writes) }
{
    update.shows_rules_kept();
    let fresh = written_values(values, update.writes());
    write_values(values, update.writes(), &fresh);
}

/// The value that a write gives its item, from the values before it.
#[tactic(auto, unfolding(crate::specs::Tables::value_on_base))]
fn written_value(values: &[u64], write: &Write) -> u64
    requires { IfSome write.now.base (λ b. b < length values.now) }
    ensures { result ≡ value_of_write (values_of values.now) write.now }
{
    let Some(base) = write.base else {
        return write.amount;
    };
    let before = values[base as usize];
    if write.minus {
        before.wrapping_sub(write.amount)
    } else {
        before.wrapping_add(write.amount)
    }
}

/// The new values of the writes, all from the values before them.
fn written_values(values: &[u64], writes: &[Write]) -> [u64; MOST_WRITES]
    requires few { length writes.now ≤ MOST_WRITES }
    requires fits { All (WriteFits (length values.now)) writes.now }
    ensures sized { length result ≡ MOST_WRITES }
    ensures are { (k : ℕ) (d : Write) → k < length writes.now →
        slice_index result k ≡ value_of_write (values_of values.now) (get_or writes.now k d) }
{
    let mut fresh = [0; MOST_WRITES];
    for (k, write) in writes.iter().enumerate() {
        fresh[k] = written_value(values, write);
    }
    fresh
}

/// Puts the new values in place.
fn write_values(values: &mut [u64], writes: &[Write], fresh: &[u64])
    requires few { length writes.now ≤ length fresh.now }
    requires fits { All (WriteFits (length values.old)) writes.now }
    requires are { (k : ℕ) (d : Write) → k < length writes.now →
        slice_index fresh.now k ≡ value_of_write (values_of values.old) (get_or writes.now k d) }
    ensures { EachIndex values.new
        (λ i. slice_index values.new i ≡ value_after_write (values_of values.old) i (find (λ w. w.item == i) writes.now)) }
{
    for k in (0..writes.len()).rev() {
        values[writes[k].item as usize] = fresh[k];
    }
}
