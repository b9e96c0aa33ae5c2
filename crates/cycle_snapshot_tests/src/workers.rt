//! A publisher and monitors in threads: each look shows one of the published beginnings, and none goes back.
ghost use Rattle.std.specs.Prelude.{◌≡◌, ◌+◌, ◌<◌, ◌≤◌, ◌^◌, ◌-◌, length, All};
ghost use Rattle.std.specs.Thread.{IsSync};
ghost use Rattle.cycle_snapshot_tests.specs.Workers.{HasThree};

use crate::batches::publish_all;
use air_base::NoMemory;
use cycle_snapshot::{Monitor, Publisher, publisher};
use std::alloc::Global;
use std::sync::Wait;
use std::test::Fail;
use std::thread;
use std::thread::{Threads, join_mut};

/// How often a monitor looks at most until it sees the last batch.
const MOST_LOOKS: u32 = 5_000_000;

/// Whether the monitor keeps the frame of as many batches as its cycle says, of those that `publish_all` publishes.
fn is_published(monitor: &Monitor) -> bool
    requires { HasThree monitor.now }
{
    let cycle = monitor.cycle();
    let before = cycle.saturating_sub(1);
    let value = 10 + u64::from(cycle);
    [monitor.value(0), monitor.value(1), monitor.value(2)] == [value, value, u64::MAX]
        && monitor.total() == 2 * value - 1
        && monitor.column(0) == [before, 0, 0].as_slice()
        && monitor.column(1) == [before, before, 0].as_slice()
        && monitor.column(2) == [0, 0, 0].as_slice()
}

/// Looks at most `most` times, until the monitor sees the cycle. It stops early after a look that failed, that went back, or
/// that showed a frame of none of the beginnings: then the monitor keeps an earlier cycle, or that frame.
fn watch(monitor: &mut Monitor, cycle: u32, most: u32)
    requires items { HasThree monitor.old }
    ensures items { HasThree monitor.new }
{
    for _ in 0..most {
        let before = monitor.cycle();
        if monitor.look().is_err() || monitor.cycle() < before || !is_published(monitor) {
            return;
        }
        if monitor.cycle() >= cycle {
            return;
        }
        thread::yield_now();
    }
}

/// Lets all monitors look until they see the cycle, on four threads.
fn watch_all<R: Threads + Sync>(rt: &R, monitors: &mut [Monitor], cycle: u32)
    requires items { All HasThree monitors.old }
    ensures items { All HasThree monitors.new }
{
    thread::for_each_mut(rt, monitors, 4, &|_, m| watch(m, cycle, MOST_LOOKS));
}

/// Publishes this number of batches, while the monitors look.
fn run_all<R: Threads + Wait + Sync>(
    rt: &R,
    alloc: Global,
    publisher: &mut Publisher,
    monitors: &mut [Monitor],
    batches: u32,
) -> Result<(), NoMemory>
    requires publisher { (length publisher.old.values ≡ 3) × (length publisher.old.batches + batches ≤ publisher.old.most) }
    requires items { All HasThree monitors.old }
    ensures items { All HasThree monitors.new }
{
    let (published, _) = join_mut(
        rt,
        &mut || publish_all(rt, alloc, publisher, 3, batches),
        &mut ||
            requires { IsSync R.row × All HasThree monitors.now }
            ensures { All HasThree monitors.exit.now }
        { watch_all(rt, monitors, batches) },
    );
    published
}

/// The first of the monitors that doesn't keep the frame of all batches, and the cycle that it keeps.
fn first_other(monitors: &[Monitor], batches: u32) -> Option<(usize, u32)>
    requires { All HasThree monitors.now }
{
    for (place, monitor) in monitors.iter().enumerate() {
        if monitor.cycle() != batches || !is_published(monitor) {
            return Some((place, monitor.cycle()));
        }
    }
    None
}

/// Runs a publisher of this many batches with this many monitors. Gives the number of monitors, and the first of them that ends
/// with another frame than that of all batches, if any.
fn monitors_beside<R: Threads + Wait + Sync>(
    rt: &R,
    alloc: Global,
    monitors: u32,
    batches: u32,
) -> Result<(usize, Option<(usize, u32)>), NoMemory>
    requires monitors { monitors ≤ 16 }
    requires batches { batches < 2 ^ 32 - 1 }
{
    let (mut source, mut all) = publisher(rt, alloc, &[10, 10, u64::MAX], monitors, batches)?;
    let done = run_all(rt, alloc, &mut source, all.as_mut_slice(), batches);
    source.close(rt);
    done?;
    Ok((all.len(), first_other(&all, batches)))
}

#[test]
fn monitors_beside_a_publisher_see_whole_batches(rt: HostRuntime) -> Result<(), Fail> {
    let found = [
        monitors_beside(&rt, rt.alloc(), 4, 1000)?,
        monitors_beside(&rt, rt.alloc(), 16, 10)?,
        monitors_beside(&rt, rt.alloc(), 0, 0)?,
    ];
    assert_eq!(rt; found, [(4, None), (16, None), (0, None)]);
    Ok(())
}
