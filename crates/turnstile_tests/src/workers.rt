//! One worker: a pass, its number, and the turns that it makes.
ghost use Rattle.std.specs.Prelude.{◌≡◌, [], ◌∷◌, ◌++◌, IfOk, None};
ghost use Rattle.turnstile.specs.PassEntries.{Foreign};
ghost use Rattle.turnstile_tests.specs.Workers.{IsReady, IsSamePass};

use crate::pairs::Pairs;
use air_base::NoMemory;
use std::sync::Wait;
use turnstile::{Pass, Turn, Turnstile};

/// A pass with the number that it was made with, and whether all its turns had memory.
#[derive(Drop)]
pub struct Worker {
    pub pass: Pass<Pairs>,
    pub by: u64,
    pub done: bool,
}

/// How many turns a worker makes, and whether each adds a pair or nothing.
#[derive(Clone, Copy)]
pub enum Turns {
    Adding(u64),
    Idle(u64),
}

/// One turn: the list gets the pair of this number and the value, and the pass has seen it.
pub fn add<R: Wait>(
    wait: &R,
    turnstile: &Turnstile<Pairs>,
    pass: &mut Pass<Pairs>,
    by: u64,
    value: u64,
) -> Result<(), NoMemory>
    requires own { pass.old.turnstile ≡ turnstile.now }
    requires outside { pass.old.turn ≡ None }
    requires number { pass.old.numbers ≡ by ∷ [] }
    ensures pass { IsSamePass pass.old pass.new }
    ensures added { IfOk result (λ _. (others : _) × (pass.new.seen ≡ (pass.old.seen ++ others) ++ (by, value) ∷ []) × Foreign (by ∷ []) others) }
{
    let Turn { value: mut pairs } = turnstile.enter(wait, pass);
    let pushed = pairs.items.push((by, value));
    turnstile.leave(pass, Turn { value: pairs });
    pushed?;
    Ok(())
}

/// Makes this many turns, numbered from 0.
pub fn fill<R: Wait>(
    wait: &R,
    turnstile: &Turnstile<Pairs>,
    pass: &mut Pass<Pairs>,
    by: u64,
    turns: u64,
) -> Result<(), NoMemory>
    requires own { pass.old.turnstile ≡ turnstile.now }
    requires outside { pass.old.turn ≡ None }
    requires number { pass.old.numbers ≡ by ∷ [] }
    ensures pass { IsSamePass pass.old pass.new }
{
    for value in 0..turns {
        add(wait, turnstile, pass, by, value)?;
    }
    Ok(())
}

/// Makes this many turns that add nothing.
pub fn go_through<R: Wait>(
    wait: &R,
    turnstile: &Turnstile<Pairs>,
    pass: &mut Pass<Pairs>,
    turns: u64,
)
    requires own { pass.old.turnstile ≡ turnstile.now }
    requires outside { pass.old.turn ≡ None }
    ensures pass { IsSamePass pass.old pass.new }
{
    for _ in 0..turns {
        let turn = turnstile.enter(wait, pass);
        turnstile.leave(pass, turn);
    }
}

impl Worker {
    /// Makes all turns of the worker.
    pub fn work<R: Wait>(
        &mut self,
        wait: &R,
        turnstile: &Turnstile<Pairs>,
        passes: u32,
        mark: u64,
        turns: Turns,
    )
        requires ready { IsReady turnstile.now passes mark self.old }
        ensures ready { IsReady turnstile.now passes mark self.new }
        ensures by { self.new.by ≡ self.old.by }
    {
        match turns {
            Turns::Adding(turns) => {
                self.done = fill(wait, turnstile, &mut self.pass, self.by, turns).is_ok();
            }
            Turns::Idle(turns) => go_through(wait, turnstile, &mut self.pass, turns),
        }
    }
}
