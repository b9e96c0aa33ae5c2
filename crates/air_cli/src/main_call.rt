//! The top call for all commands.
//!
//! `run`, `cast` and `listen` are run here; all other words are left to `air_quiet`. These three make all that they print and write, or find why they
//! are refused, before anything is printed or written.

ghost use Rattle.std.specs.Prelude.{◌≡◌, ℕ, map, string_bytes, None, Some};
ghost use Rattle.air_devices.specs.Masts.{nothing_sent};
ghost use Rattle.air_devices.specs.WhatIsTold.{WhereTold};
ghost use Rattle.air_cli.specs.Answers.{Completes, IsSuccess, Leaves, QuietAnswers};
ghost use Rattle.deck_runs.specs.Casts.{FailsFirst};
ghost use Rattle.air_cli.specs.Cast.{cast_meaning};
ghost use Rattle.air_cli.specs.Headline.{Headline};
ghost use Rattle.air_cli.specs.Hearings.{EarFailsFirst};
ghost use Rattle.air_cli.specs.Listen.{listen_meaning};
ghost use Rattle.air_cli.specs.OnAir.{LeavesEar, LeavesMast, StopsAtFailure, words_meaning};
ghost use Rattle.air_cli.specs.Run.{run_meaning};
ghost use Rattle.air_cli.specs.Words.{AsksCast, AsksListen, asked_of};

use crate::commands::cast::cast;
use crate::commands::listen::listen;
use crate::commands::run::run;
use crate::endings::give_or_refuse;
use crate::quiet::air_quiet;
use crate::words::{Command, command_of};
use air_devices::{Ear, Gate, Mast, Shelf};
use air_report::Status;
use std::alloc::Global;
use std::sync::Wait;
use std::thread::Threads;

/// Runs what the words ask for: `run DECK TAPE`, `cast DECK PORT`, `listen DECK PORT`, or what `air_quiet` runs. The mast and the ear must be new;
/// only `cast` uses the mast, and only `listen` the ear. If the call succeeded, the clause `headline` says on one page what holds.
pub fn air_main<R: Threads + Wait + Sync, S: Shelf, M: Mast + Send, E: Ear, G: Gate + Sync>(
    rt: &R,
    alloc: Global,
    words: &[String],
    shelf: &mut S,
    mast: &mut M,
    ear: &mut E,
    gate: &G,
) -> Status
    requires unaimed { (M.state mast.old).port ≡ None }
    requires unsent { WhereTold (M.state mast.old).told (λ s. s ≡ nothing_sent) }
    requires untuned { (E.state ear.old).port ≡ None }
    ensures answers { QuietAnswers (words_meaning (asked_of (map (λ w. string_bytes w) words.now)) (M.state mast.old) (M.state mast.new) (E.state ear.old) (E.state ear.new)) (S.state shelf.old) (S.state shelf.new) result }
    ensures headline { IsSuccess result → Headline (asked_of (map (λ w. string_bytes w) words.now)) (M.state mast.old) (M.state mast.new) (E.state ear.old) (E.state ear.new) (S.state shelf.old) (S.state shelf.new) result }
    ensures complete { Completes (words_meaning (asked_of (map (λ w. string_bytes w) words.now)) (M.state mast.old) (M.state mast.new) (E.state ear.old) (E.state ear.new)) (S.state shelf.old) (S.state shelf.new) result }
    ensures leaves { Leaves (words_meaning (asked_of (map (λ w. string_bytes w) words.now)) (M.state mast.old) (M.state mast.new) (E.state ear.old) (E.state ear.new)) (S.state shelf.old) (S.state shelf.new) }
    ensures mast { LeavesMast (asked_of (map (λ w. string_bytes w) words.now)) (S.state shelf.old) (M.state mast.old) (M.state mast.new) }
    ensures ear { LeavesEar (asked_of (map (λ w. string_bytes w) words.now)) (S.state shelf.old) (E.state ear.old) (E.state ear.new) }
    ensures first { (at : ℕ) → result ≡ Status.AirFault at → StopsAtFailure M.state E.state (asked_of (map (λ w. string_bytes w) words.now)) mast.old mast.new ear.old ear.new }
{
    match command_of(words) {
        Some(Command::Run { deck, tape }) => run_deck(rt, alloc, shelf, deck, tape, gate),
        Some(Command::Cast { deck, port }) => cast_deck(rt, alloc, shelf, mast, deck, port, gate),
        Some(Command::Listen { deck, port }) => listen_deck(alloc, shelf, ear, deck, port),
        _ => air_quiet(rt, alloc, words, shelf),
    }
}

/// Runs a deck on threads and delivers its report and its tape; or refuses.
fn run_deck<R: Threads + Wait + Sync, S: Shelf, G: Gate + Sync>(
    rt: &R,
    alloc: Global,
    shelf: &mut S,
    deck: &str,
    tape: &str,
    gate: &G,
) -> Status
    ensures answers { QuietAnswers (run_meaning deck.now tape.now) (S.state shelf.old) (S.state shelf.new) result }
    ensures leaves { Leaves (run_meaning deck.now tape.now) (S.state shelf.old) (S.state shelf.new) }
{
    let made = run(rt, alloc, shelf, deck, gate);
    give_or_refuse(alloc, shelf, Some(tape), made)
}

/// Casts a run of a deck to a port and delivers its report; or refuses.
fn cast_deck<R: Threads + Wait + Sync, S: Shelf, M: Mast + Send, G: Gate + Sync>(
    rt: &R,
    alloc: Global,
    shelf: &mut S,
    mast: &mut M,
    deck: &str,
    port: u16,
    gate: &G,
) -> Status
    requires unaimed { (M.state mast.old).port ≡ None }
    requires unsent { WhereTold (M.state mast.old).told (λ s. s ≡ nothing_sent) }
    ensures answers { QuietAnswers (cast_meaning deck.now port (M.state mast.old) (M.state mast.new)) (S.state shelf.old) (S.state shelf.new) result }
    ensures leaves { Leaves (cast_meaning deck.now port (M.state mast.old) (M.state mast.new)) (S.state shelf.old) (S.state shelf.new) }
    ensures mast { LeavesMast (Some (AsksCast deck.now port)) (S.state shelf.old) (M.state mast.old) (M.state mast.new) }
    ensures first { (at : ℕ) → result ≡ Status.AirFault at → FailsFirst M.state mast.old mast.new }
{
    let made = cast(rt, alloc, shelf, mast, deck, port, gate);
    give_or_refuse(alloc, shelf, None, made)
}

/// Lets a deck's readers listen on a port and delivers their report; or refuses.
fn listen_deck<S: Shelf, E: Ear>(
    alloc: Global,
    shelf: &mut S,
    ear: &mut E,
    deck: &str,
    port: u16,
) -> Status
    requires untuned { (E.state ear.old).port ≡ None }
    ensures answers { QuietAnswers (listen_meaning deck.now port (E.state ear.old) (E.state ear.new)) (S.state shelf.old) (S.state shelf.new) result }
    ensures leaves { Leaves (listen_meaning deck.now port (E.state ear.old) (E.state ear.new)) (S.state shelf.old) (S.state shelf.new) }
    ensures ear { LeavesEar (Some (AsksListen deck.now port)) (S.state shelf.old) (E.state ear.old) (E.state ear.new) }
    ensures first { (at : ℕ) → result ≡ Status.AirFault at → EarFailsFirst E.state ear.old ear.new }
{
    let made = listen(alloc, shelf, ear, deck, port);
    give_or_refuse(alloc, shelf, None, made)
}
