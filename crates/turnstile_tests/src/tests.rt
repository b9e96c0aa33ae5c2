//! The lists at the end: as many pairs as turns were made, and the pairs of each pass in its order.
ghost use Rattle.std.specs.Prelude.{◌≡◌, ◌<◌, ℕ, length, slice_index_or, All};
ghost use Rattle.turnstile_tests.specs.Workers.{IsReady};

use crate::pairs::Pairs;
use crate::rounds::{finish, hire, play, work_all};
use crate::workers::{Turns, Worker};
use air_base::NoMemory;
use std::alloc::Global;
use std::sync::Wait;
use std::test::Fail;
use std::thread::Threads;
use turnstile::Turnstile;

/// A turnstile's passes, the threads that work, and the turns of each pass.
#[derive(Drop)]
struct Case {
    passes: u32,
    threads: usize,
    turns: u64,
}

/// Whether the pairs of this number count from 0 to the number of turns, one after another.
fn counts(pairs: &[(u64, u64)], by: u64, turns: u64) -> bool {
    let mut next = 0_u64;
    for &(number, value) in pairs {
        if number == by && value != next {
            return false;
        }
        if number == by {
            next = next.saturating_add(1);
        }
    }
    next == turns
}

/// How many pairs there are, and the first pass whose pairs don't count.
fn read(pairs: &[(u64, u64)], case: &Case) -> (usize, Option<u64>) {
    for by in 0..u64::from(case.passes) {
        if !counts(pairs, by, case.turns) {
            return (pairs.len(), Some(by));
        }
    }
    (pairs.len(), None)
}

/// Plays the case: the mark at the end, and what `read` finds.
fn play_case<R: Threads + Wait + Sync>(
    rt: &R,
    alloc: Global,
    case: &Case,
) -> Result<(u64, usize, Option<u64>), NoMemory>
    requires { (0 < case.now.passes) × (0 < case.now.threads) }
{
    let pairs = play(rt, alloc, 77, case.passes, case.threads, case.turns)?;
    let (count, other) = read(pairs.items.as_slice(), case);
    Ok((pairs.mark, count, other))
}

#[test]
fn two_threads_with_a_thousand_turns_each(rt: HostRuntime) -> Result<(), Fail> {
    let case = Case {
        passes: 2,
        threads: 2,
        turns: 1000,
    };
    assert_eq!(rt; play_case(&rt, rt.alloc(), &case)?, (77, 2000, None));
    Ok(())
}

#[test]
fn one_pass_alone(rt: HostRuntime) -> Result<(), Fail> {
    let pairs = play(&rt, rt.alloc(), 5, 1, 1, 3)?;
    assert_eq!(rt; pairs.items.as_slice(), [(0, 0), (0, 1), (0, 2)].as_slice());
    Ok(())
}

#[test]
fn sixteen_passes_are_joined_from_the_last_to_the_first(rt: HostRuntime) -> Result<(), Fail> {
    let case = Case {
        passes: 16,
        threads: 4,
        turns: 25,
    };
    assert_eq!(rt; play_case(&rt, rt.alloc(), &case)?, (77, 400, None));
    Ok(())
}

/// Lets each worker go through fifty times before its turns and fifty times after them.
fn go_and_work<R: Threads + Wait + Sync>(
    rt: &R,
    turnstile: &Turnstile<Pairs>,
    passes: u32,
    workers: &mut [Worker],
    threads: usize,
    turns: u64,
)
    requires some { 0 < threads }
    requires ready { All (λ w. IsReady turnstile.now passes 6 w) workers.old }
    ensures ready { All (λ w. IsReady turnstile.now passes 6 w) workers.new }
    ensures same { (k : ℕ) (d : _) → k < length workers.old → (slice_index_or workers.new k d).by ≡ (slice_index_or workers.old k d).by }
{
    work_all(rt, turnstile, passes, 6, workers, threads, Turns::Idle(50));
    work_all(
        rt,
        turnstile,
        passes,
        6,
        workers,
        threads,
        Turns::Adding(turns),
    );
    work_all(rt, turnstile, passes, 6, workers, threads, Turns::Idle(50));
}

/// A turnstile around an empty list, through which each pass also goes before and after its turns: the mark at the end, and
/// what `read` finds.
fn gone_through<R: Threads + Wait + Sync>(
    rt: &R,
    alloc: Global,
    case: &Case,
) -> Result<(u64, usize, Option<u64>), NoMemory>
    requires { (0 < case.now.passes) × (0 < case.now.threads) }
{
    let (passes, threads) = (case.passes, case.threads);
    let items = Vec::new(alloc);
    let (turnstile, all) = Turnstile::new(alloc, Pairs { items, mark: 6 }, passes)?;
    let mut workers = hire(alloc, &turnstile, all, 6)?;
    go_and_work(
        rt,
        &turnstile,
        passes,
        workers.as_mut_slice(),
        threads,
        case.turns,
    );
    let pairs = finish(turnstile, workers, passes, 6);
    let (count, other) = read(pairs.items.as_slice(), case);
    Ok((pairs.mark, count, other))
}

#[test]
fn going_through_adds_nothing(rt: HostRuntime) -> Result<(), Fail> {
    let case = Case {
        passes: 4,
        threads: 3,
        turns: 7,
    };
    assert_eq!(rt; gone_through(&rt, rt.alloc(), &case)?, (6, 28, None));
    Ok(())
}
