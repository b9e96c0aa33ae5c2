//! These pins say what a command and `ear_sessions` leave after a failed call of the air: what mast or ear told just before the first one.
//!
//! A mast or an ear may be of any type, so that none can be made up: the calls alone give some.
#![tactic(auto, unfolding(air_base::specs::Numbers::number_of))]

ghost use Rattle.std.specs.Prelude.{◌≡◌, ℕ, [], ◌∷◌, Err, None, Some, codes, map, string_bytes};
ghost use Rattle.air_devices.specs.Masts.{nothing_sent};
ghost use Rattle.command_pins.specs.CalmDevices.{HadLeft, ToldByCalmEar, ToldByCalmMast};

use air_cli::{HearFault, air_main, ear_sessions};
use air_devices::{Ear, Gate, Mast, Shelf};
use air_report::Status;
use chunk_program::Planned;
use listeners::Sessions;
use std::alloc::Global;
use std::sync::Wait;
use std::thread::Threads;

/// Readers who answer that the ear failed heard nothing after the first failure: some ear had counted none, and had given as many datagrams as the fault
/// says. It refuses readers who hear on after a failed call and tell the failure at their end.
/// Promise: what goes over the air
pub fn hears_on_after_a_failed_call<E: Ear>(
    alloc: Global,
    planned: &Planned,
    ear: &mut E,
) -> Result<Sessions, HearFault>
    requires untuned { (E.state ear.old).port ≡ None }
    requires waiting { (E.state ear.old).told ≡ Some ((1 ∷ []) ∷ (2 ∷ []) ∷ (3 ∷ []) ∷ []) }
    requires faults { (E.state ear.old).faults ≡ 0 }
    ensures { (heard : ℕ) → result ≡ Err (HearFault.Ear heard) → HadLeft E.state heard 3 }
{
    ear_sessions(alloc, planned, ear, 4001)
}

/// After `cast d 7` with status 10 the mast tells what some mast without a failure told.
/// Promise: what goes over the air
pub fn sent_on_under_status_10<
    R: Threads + Wait + Sync,
    S: Shelf,
    M: Mast + Send,
    E: Ear,
    G: Gate + Sync,
>(
    rt: &R,
    alloc: Global,
    words: &[String],
    shelf: &mut S,
    mast: &mut M,
    ear: &mut E,
    gate: &G,
) -> Status
    requires words { map (λ w. string_bytes w) words.now ≡ codes "cast" ∷ codes "d" ∷ codes "7" ∷ [] }
    requires unaimed { (M.state mast.old).port ≡ None }
    requires unsent { (M.state mast.old).told ≡ Some nothing_sent }
    requires faults { (M.state mast.old).faults ≡ 0 }
    requires untuned { (E.state ear.old).port ≡ None }
    ensures { (at : ℕ) → result ≡ Status.AirFault at → ToldByCalmMast M.state mast.new }
{
    air_main(rt, alloc, words, shelf, mast, ear, gate)
}

/// After `listen d 7` with status 10 the ear tells what some ear without a failure told.
/// Promise: what goes over the air
pub fn heard_on_under_status_10<
    R: Threads + Wait + Sync,
    S: Shelf,
    M: Mast + Send,
    E: Ear,
    G: Gate + Sync,
>(
    rt: &R,
    alloc: Global,
    words: &[String],
    shelf: &mut S,
    mast: &mut M,
    ear: &mut E,
    gate: &G,
) -> Status
    requires words { map (λ w. string_bytes w) words.now ≡ codes "listen" ∷ codes "d" ∷ codes "7" ∷ [] }
    requires unaimed { (M.state mast.old).port ≡ None }
    requires unsent { (M.state mast.old).told ≡ Some nothing_sent }
    requires untuned { (E.state ear.old).port ≡ None }
    requires faults { (E.state ear.old).faults ≡ 0 }
    ensures { (at : ℕ) → result ≡ Status.AirFault at → ToldByCalmEar E.state ear.new }
{
    air_main(rt, alloc, words, shelf, mast, ear, gate)
}
