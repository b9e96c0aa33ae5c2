//! These pins say which device of the air each waiting command leaves as it was: `listen` the mast, `cast` the ear, and `run` both.
#![tactic(auto, unfolding(air_base::specs::Numbers::number_of))]

ghost use Rattle.std.specs.Prelude.{◌≡◌, [], ◌∷◌, None, codes, map, string_bytes};
ghost use Rattle.air_devices.specs.Masts.{nothing_sent};
ghost use Rattle.air_devices.specs.MemoryEars.{memory_ear_state};
ghost use Rattle.air_devices.specs.MemoryMasts.{memory_mast_state, told_by_mast as sent_by};

use air_cli::air_main;
use air_devices::{Gate, MemEar, MemMast, MemShelf};
use air_report::Status;
use std::alloc::Global;
use std::sync::Wait;
use std::thread::Threads;

/// `listen d 7` leaves the mast as it was, with each status.
/// Promise: what each status leaves outside
pub fn mast_touched_by_listen<R: Threads + Wait + Sync, G: Gate + Sync>(
    rt: &R,
    alloc: Global,
    words: &[String],
    shelf: &mut MemShelf,
    mast: &mut MemMast,
    ear: &mut MemEar,
    gate: &G,
) -> Status
    requires words { map (λ w. string_bytes w) words.now ≡ codes "listen" ∷ codes "d" ∷ codes "7" ∷ [] }
    requires unaimed { mast.old.port ≡ None }
    requires unsent { sent_by mast.old ≡ nothing_sent }
    requires untuned { ear.old.port ≡ None }
    ensures { memory_mast_state mast.new ≡ memory_mast_state mast.old }
{
    air_main(rt, alloc, words, shelf, mast, ear, gate)
}

/// `cast d 7` leaves the ear as it was, with each status.
/// Promise: what each status leaves outside
pub fn ear_touched_by_cast<R: Threads + Wait + Sync, G: Gate + Sync>(
    rt: &R,
    alloc: Global,
    words: &[String],
    shelf: &mut MemShelf,
    mast: &mut MemMast,
    ear: &mut MemEar,
    gate: &G,
) -> Status
    requires words { map (λ w. string_bytes w) words.now ≡ codes "cast" ∷ codes "d" ∷ codes "7" ∷ [] }
    requires unaimed { mast.old.port ≡ None }
    requires unsent { sent_by mast.old ≡ nothing_sent }
    requires untuned { ear.old.port ≡ None }
    ensures { memory_ear_state ear.new ≡ memory_ear_state ear.old }
{
    air_main(rt, alloc, words, shelf, mast, ear, gate)
}

/// `run d o` leaves the mast and the ear as they were, with each status.
/// Promise: what each status leaves outside
pub fn mast_touched_by_run<R: Threads + Wait + Sync, G: Gate + Sync>(
    rt: &R,
    alloc: Global,
    words: &[String],
    shelf: &mut MemShelf,
    mast: &mut MemMast,
    ear: &mut MemEar,
    gate: &G,
) -> Status
    requires words { map (λ w. string_bytes w) words.now ≡ codes "run" ∷ codes "d" ∷ codes "o" ∷ [] }
    requires unaimed { mast.old.port ≡ None }
    requires unsent { sent_by mast.old ≡ nothing_sent }
    requires untuned { ear.old.port ≡ None }
    ensures mast { memory_mast_state mast.new ≡ memory_mast_state mast.old }
    ensures ear { memory_ear_state ear.new ≡ memory_ear_state ear.old }
{
    air_main(rt, alloc, words, shelf, mast, ear, gate)
}
