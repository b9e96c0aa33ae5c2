//! All workers at work, and the end: their passes are joined, and the list is given.
//!
//! `passes` and `mark` are what the turnstile was made with; the calls take them only for their contracts.
ghost use Rattle.std.specs.Prelude.{◌≡◌, ℕ, ◌<◌, [], ◌∷◌, length, slice_get, slice_index_or, All, IfOk, None, Some};
ghost use Rattle.turnstile_tests.specs.Workers.{IsReady, InOrder};

use crate::pairs::Pairs;
use crate::workers::{Turns, Worker};
use air_base::NoMemory;
use std::alloc::Global;
use std::sync::Wait;
use std::thread;
use std::thread::Threads;
use turnstile::{Pass, Turnstile};

/// Gives each pass to a worker, in the order of their numbers.
pub fn hire(
    alloc: Global,
    turnstile: &Turnstile<Pairs>,
    mut passes: Vec<Pass<Pairs>>,
    mark: u64,
) -> Result<Vec<Worker>, NoMemory>
    requires each { (k : ℕ) (p : _) → slice_get passes.items k ≡ Some p → (p.turnstile ≡ turnstile.now) × (p.passes ≡ length passes.items) × (p.base ≡ Some mark) × (p.numbers ≡ k ∷ []) × (p.turn ≡ None) }
    ensures ready { IfOk result (λ workers. All (λ w. IsReady turnstile.now (length passes.items) mark w) workers.items) }
    ensures order { IfOk result (λ workers. (length workers.items ≡ length passes.items) × InOrder workers.items) }
{
    let mut workers = Vec::new(alloc);
    while let Some(pass) = passes.pop() {
        let by = passes.len() as u64;
        workers.push(Worker {
            pass,
            by,
            done: false,
        })?;
    }
    workers.reverse();
    Ok(workers)
}

/// Lets each worker make its turns, on `threads` threads.
pub fn work_all<R: Threads + Wait + Sync>(
    rt: &R,
    turnstile: &Turnstile<Pairs>,
    passes: u32,
    mark: u64,
    workers: &mut [Worker],
    threads: usize,
    turns: Turns,
)
    requires some { 0 < threads }
    requires ready { All (λ w. IsReady turnstile.now passes mark w) workers.old }
    ensures ready { All (λ w. IsReady turnstile.now passes mark w) workers.new }
    ensures same { (k : ℕ) (d : _) → k < length workers.old → (slice_index_or workers.new k d).by ≡ (slice_index_or workers.old k d).by }
{
    thread::for_each_mut(
        rt,
        workers,
        threads,
        &|_, w| { w.work(rt, turnstile, passes, mark, turns) },
    );
}

/// Joins all passes, the last one first, and gives the list.
pub fn finish(
    turnstile: Turnstile<Pairs>,
    mut workers: Vec<Worker>,
    passes: u32,
    mark: u64,
) -> Pairs
    requires some { 0 < passes }
    requires ready { All (λ w. IsReady turnstile passes mark w) workers.items }
    requires order { (length workers.items ≡ passes) × InOrder workers.items }
    ensures mark { result.mark ≡ mark }
{
    let Some(Worker { pass: mut all, .. }) = workers.pop() else {
        unreachable!()
    };
    while let Some(Worker { pass, .. }) = workers.pop() {
        turnstile.join(&mut all, pass);
    }
    turnstile.close(all)
}

/// Whether each worker's last turns all had memory.
fn all_done(workers: &[Worker]) -> bool {
    for worker in workers {
        if !worker.done {
            return false;
        }
    }
    true
}

/// Makes a turnstile of `passes` passes around an empty list, and lets each pass make `turns` turns, on `threads` threads.
/// Gives the list at the end, or `NoMemory` if a turn had none.
pub fn play<R: Threads + Wait + Sync>(
    rt: &R,
    alloc: Global,
    mark: u64,
    passes: u32,
    threads: usize,
    turns: u64,
) -> Result<Pairs, NoMemory>
    requires some { (0 < passes) × (0 < threads) }
    ensures mark { IfOk result (λ pairs. pairs.mark ≡ mark) }
{
    let items = Vec::new(alloc);
    let (turnstile, all) = Turnstile::new(alloc, Pairs { items, mark }, passes)?;
    let mut workers = hire(alloc, &turnstile, all, mark)?;
    work_all(
        rt,
        &turnstile,
        passes,
        mark,
        workers.as_mut_slice(),
        threads,
        Turns::Adding(turns),
    );
    if !all_done(&workers) {
        return Err(NoMemory);
    }
    Ok(finish(turnstile, workers, passes, mark))
}
