//! Tests of the turnstile, by one list of pairs that many threads lengthen.
//!
//! `pairs` has the list, `workers` a pass with its number and its turns, and `rounds` all workers at work and the end, when
//! their passes are joined and the list is given. It is proved here that each call's conditions are met; what the list then has
//! is shown by tests.
#![tactic(auto)]

mod pairs;
mod workers;

pub use pairs::Pairs;
pub use workers::{Turns, Worker, add, fill, go_through};

#[cfg(test)]
mod rounds;
#[cfg(test)]
mod tests;
