//! These pins of `cycle_snapshot` say which frames one and two small batches have, and what a publisher and a monitor know after them.
//!
//! A monitor may see more than it was told, so some pins hold for one list that it may have seen.

ghost use Rattle.std.specs.Prelude.{◌≡◌, ◌≤◌, ◌<◌, [], ◌∷◌, length, IfOk, OnOk};
ghost use Rattle.thread_pins.specs.SmallBatches.{first_values, first_batch, second_batch};

use air_base::NoMemory;
use air_history::Event;
use cycle_snapshot::{Monitor, Publisher, Told, publisher};
use std::alloc::Global;
use std::sync::Wait;

/// A monitor that has seen two batches keeps their cycle, values, columns and total: the frame of all their events. It also refuses
/// one column for all items, a list that was seen but isn't kept, and a look that shows both batches but keeps the opening frame (frozen look).
/// Promise: a look is a published prefix
pub fn frame_of_half_a_batch(monitor: &mut Monitor) -> Result<(), NoMemory>
    requires { monitor.old.values ≡ first_values }
    ensures { OnOk result (monitor.new.seen ≡ first_batch ∷ second_batch ∷ [] →
        monitor.new.kept ≡ record { cycle = 2; values = 3 ∷ 2 ∷ []; columns = (1 ∷ 1 ∷ []) ∷ (0 ∷ 1 ∷ []) ∷ []; total = 5 }) }
{
    monitor.look()
}

/// The total of a frame is the sum of its values modulo 2^64.
/// Promise: a look is a published prefix
pub fn total_without_modulus(monitor: &mut Monitor) -> Result<(), NoMemory>
    requires { monitor.old.values ≡ first_values }
    ensures { OnOk result (monitor.new.seen ≡ first_batch ∷ [] → monitor.new.kept.total ≡ 24) }
{
    monitor.look()
}

/// A monitor that was told two batches sees at least two.
/// Promise: a look is a published prefix
pub fn look_goes_back_behind_what_was_told(monitor: &mut Monitor) -> Result<(), NoMemory>
    requires { monitor.old.told ≡ first_batch ∷ second_batch ∷ [] }
    ensures { OnOk result (2 ≤ length monitor.new.seen) }
{
    monitor.look()
}

/// A monitor that is told a batch has been told at least one.
/// Promise: a look is a published prefix
pub fn note_forgotten(monitor: &mut Monitor, told: Told)
    requires own { told.publisher ≡ monitor.old.publisher }
    requires told { told.batches ≡ first_batch ∷ [] }
    ensures { 1 ≤ length monitor.new.told }
{
    monitor.learn(told);
}

/// A first batch that is published is the whole list.
/// Promise: a look is a published prefix
pub fn published_event_dropped<R: Wait>(
    publisher: &mut Publisher,
    wait: &R,
    batch: Vec<Event>,
) -> Result<(), NoMemory>
    requires values { publisher.old.values ≡ first_values }
    requires room { publisher.old.most ≡ 5 }
    requires none { publisher.old.batches ≡ [] }
    requires batch { batch.items ≡ first_batch }
    ensures { OnOk result (publisher.new.batches ≡ first_batch ∷ []) }
{
    publisher.publish(wait, batch)
}

/// A publisher for three monitors has three.
/// Promise: a look is a published prefix
pub fn one_monitor_too_few<R: Wait>(
    wait: &R,
    alloc: Global,
    values: &[u64],
) -> Result<(Publisher, Vec<Monitor>), NoMemory>
    requires { values.now ≡ first_values }
    ensures { IfOk result (λ made. length made.1.items ≡ 3) }
{
    publisher(wait, alloc, values, 3, 5)
}

/// A monitor that looked three times answers three looks.
/// Promise: a look is a published prefix
pub fn looks_counted_from_one(monitor: &Monitor) -> u64
    requires { monitor.now.looks ≡ 3 }
    ensures { result ≡ 3 }
{
    monitor.looks()
}
