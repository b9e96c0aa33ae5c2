//! A publisher and a monitor on one thread, step by step: what each look shows, by hand.
ghost use Rattle.std.specs.Prelude.{◌≡◌, ◌+◌, ◌<◌, ◌≤◌, length};
ghost use Rattle.cycle_snapshot_tests.specs.Workers.{IsSamePublisher, StaysPublisher};

use crate::batches::{Row, batch_of};
use air_base::NoMemory;
use cycle_snapshot::{Monitor, Publisher, publisher};
use std::alloc::Global;
use std::sync::Wait;
use std::test::Fail;

/// What a monitor of two items keeps: the cycle, the values, the column of each item, and the total.
type FrameRow = (u32, [u64; 2], [[u32; 2]; 2], u64);

/// A call of a publisher or of its monitor, or what the monitor then keeps.
#[derive(Clone, Copy)]
enum Step<'a> {
    /// A batch of these commits is published.
    Publishes(&'a [Row<'a>]),
    /// The monitor is told the published list.
    Learns,
    /// The monitor looks.
    Looks,
    /// What the monitor keeps, and how often it looked.
    Keeps(FrameRow, u64),
}

/// The values from which each table starts: their sum is 19 modulo 2^64.
const FIRST: [u64; 2] = [u64::MAX, 20];

/// The first batch: item 1 becomes 25.
const ONE: &[Row<'static>] = &[(0, 0, &[1], &[(1, Some(1), 5)])];

/// The second batch: item 1 becomes item 0 plus 3, which wraps to 2; then item 0 becomes item 1 plus 1.
const TWO: &[Row<'static>] = &[
    (1, 0, &[0], &[(1, Some(0), 3)]),
    (0, 1, &[1], &[(0, Some(1), 1)]),
];

/// The frame of no batch.
const NONE_KEPT: FrameRow = (0, FIRST, [[0, 0], [0, 0]], 19);

/// The frame of the first batch: its commit is of cycle 0.
const ONE_KEPT: FrameRow = (1, [u64::MAX, 25], [[0, 0], [0, 0]], 24);

/// The frame of both: item 1 was written in cycle 1, and item 0 after a read of it.
const TWO_KEPT: FrameRow = (2, [3, 2], [[1, 1], [0, 1]], 5);

/// Whether the monitor keeps this, and looked this number of times.
fn keeps(monitor: &Monitor, told: &FrameRow, looks: u64) -> bool
    requires { length monitor.now.values ≡ 2 }
{
    let (cycle, values, columns, total) = *told;
    monitor.cycle() == cycle
        && [monitor.value(0), monitor.value(1)] == values
        && monitor.column(0) == columns[0].as_slice()
        && monitor.column(1) == columns[1].as_slice()
        && monitor.total() == total
        && monitor.looks() == looks
}

/// Makes the call, and says whether the monitor keeps what is told.
fn make_step<R: Wait>(
    wait: &R,
    alloc: Global,
    source: &mut Publisher,
    monitor: &mut Monitor,
    step: &Step<'_>,
) -> Result<bool, NoMemory>
    requires own { monitor.old.publisher ≡ source.old.id }
    requires items { (length source.old.values ≡ 2) × (length monitor.old.values ≡ 2) }
    requires room { length source.old.batches < source.old.most }
    ensures source { StaysPublisher source.old source.new }
    ensures monitor { IsSamePublisher monitor.old monitor.new }
    ensures more { length source.new.batches ≤ length source.old.batches + 1 }
{
    match step {
        Step::Publishes(rows) => source.publish(wait, batch_of(alloc, 2, rows)?)?,
        Step::Learns => monitor.learn(source.tell()),
        Step::Looks => monitor.look()?,
        Step::Keeps(kept, looks) => return Ok(keeps(monitor, kept, *looks)),
    }
    Ok(true)
}

/// The place of the first of the steps at which the monitor keeps something other than told.
fn walk<R: Wait>(
    wait: &R,
    alloc: Global,
    source: &mut Publisher,
    monitor: &mut Monitor,
    steps: &[Step<'_>],
) -> Result<Option<usize>, NoMemory>
    requires own { monitor.old.publisher ≡ source.old.id }
    requires items { (length source.old.values ≡ 2) × (length monitor.old.values ≡ 2) }
    requires room { (length source.old.batches ≡ 0) × (source.old.most ≡ 100) }
{
    for (place, told) in steps.iter().enumerate() {
        if place >= 100 || !make_step(wait, alloc, source, monitor, told)? {
            return Ok(Some(place));
        }
    }
    Ok(None)
}

/// The place of the first of the steps at which the monitor of a new publisher keeps something other than told.
fn first_other<R: Wait>(
    wait: &R,
    alloc: Global,
    steps: &[Step<'_>],
) -> Result<Option<usize>, NoMemory> {
    let (mut source, mut monitors) = publisher(wait, alloc, &FIRST, 1, 100)?;
    let other = match monitors.pop() {
        Some(mut monitor) => walk(wait, alloc, &mut source, &mut monitor, steps),
        None => Err(NoMemory),
    };
    source.close(wait);
    other
}

#[test]
fn looks_show_whole_batches_and_at_least_what_was_told(rt: HostRuntime) -> Result<(), Fail> {
    let before_between_and_after_two_batches = [
        Step::Keeps(NONE_KEPT, 0),
        Step::Looks,
        Step::Keeps(NONE_KEPT, 1),
        Step::Publishes(ONE),
        Step::Keeps(NONE_KEPT, 1),
        Step::Looks,
        Step::Keeps(ONE_KEPT, 2),
        Step::Publishes(TWO),
        Step::Keeps(ONE_KEPT, 2),
        Step::Looks,
        Step::Looks,
        Step::Keeps(TWO_KEPT, 4),
    ];
    let at_least_what_was_told = [
        Step::Learns,
        Step::Publishes(ONE),
        Step::Learns,
        Step::Keeps(NONE_KEPT, 0),
        Step::Publishes(TWO),
        Step::Learns,
        Step::Keeps(NONE_KEPT, 0),
        Step::Looks,
        Step::Keeps(TWO_KEPT, 1),
        Step::Publishes(&[]),
        Step::Learns,
        Step::Looks,
        Step::Keeps((3, [3, 2], [[1, 1], [0, 1]], 5), 2),
    ];
    let others = [
        first_other(&rt, rt.alloc(), &before_between_and_after_two_batches)?,
        first_other(&rt, rt.alloc(), &at_least_what_was_told)?,
        first_other(&rt, rt.alloc(), &[Step::Looks, Step::Keeps(ONE_KEPT, 1)])?,
    ];
    assert_eq!(rt; others, [None, None, Some(1)]);
    Ok(())
}
