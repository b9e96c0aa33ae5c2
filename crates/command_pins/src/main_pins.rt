//! These pins say what `air_main` of `air_cli` does for a command's words, over devices in memory: what it prints, writes and reads, and that
//! `air_quiet` runs no command that waits. If a command is done, the answer is the definition of its output; the other clauses say what each status
//! leaves as it was.
#![tactic(auto, unfolding(air_base::specs::Numbers::number_of, air_cli::specs::NamedDecks::DeckCause, air_cli::specs::Answers::QuietAnswers, air_cli::specs::RunnableDecks::UnrunnableCause, air_cli::specs::Plan::PlanGives, air_cli::specs::Split::SplitGives, air_cli::specs::Drill::DrillGives, air_cli::specs::Script::ScriptCause, air_cli::specs::Script::ScriptGives, air_cli::specs::Audit::AuditGives, air_cli::specs::Cast::CastCause))]

ghost use Rattle.std.specs.Prelude.{◌≡◌, ◌≢◌, ◌⊎◌, ◌≤◌, ◌<◌, ℕ, List, false, [], ◌∷◌, None, Some, codes, map, string_bytes};
ghost use Rattle.air_model.specs.Decks.{Deck};
ghost use Rattle.air_model.specs.Outputs.{plan_output, script_tape};
ghost use Rattle.air_devices.specs.Masts.{nothing_sent};
ghost use Rattle.air_devices.specs.Memory.{file_bytes, file_named, told_by};
ghost use Rattle.air_devices.specs.MemoryEars.{memory_ear_state};
ghost use Rattle.air_devices.specs.MemoryMasts.{memory_mast_state, told_by_mast as sent_by};
ghost use Rattle.scripts.specs.DrillLines.{drill_output};
ghost use Rattle.disk_split.specs.Splits.{IsBest, split_text};
ghost use Rattle.live_replay.specs.FindingTexts.{findings_text, some_differ};
ghost use Rattle.item_catalog.specs.Grammar.{Spells};
ghost use Rattle.live_replay.specs.declared.findings.Finding.{Finding};
ghost use Rattle.command_pins.specs.SmallDecks.{long_deck};

use air_cli::{air_main, air_quiet};
use air_devices::{Gate, MemEar, MemMast, MemShelf};
use air_report::Status;
use std::alloc::Global;
use std::sync::Wait;
use std::thread::Threads;

/// `plan d` that is done, or that is refused for its deck, has read the deck to its end; if it is done, no call failed. Regardless of its status, it
/// leaves mast and ear as they were. It also refuses a mast that another command than `cast` touches.
/// Promise: what each status leaves outside
pub fn deck_left_to_read<R: Threads + Wait + Sync, G: Gate + Sync>(
    rt: &R,
    alloc: Global,
    words: &[String],
    shelf: &mut MemShelf,
    mast: &mut MemMast,
    ear: &mut MemEar,
    gate: &G,
) -> Status
    requires words { map (λ w. string_bytes w) words.now ≡ codes "plan" ∷ codes "d" ∷ [] }
    requires unaimed { mast.old.port ≡ None }
    requires unsent { sent_by mast.old ≡ nothing_sent }
    requires untuned { ear.old.port ≡ None }
    ensures read { result ≡ Status.Ok → (told_by shelf.new).left (codes "d") ≡ Some [] }
    ensures refused { (row kind : ℕ) → result ≡ Status.Deck row kind → (told_by shelf.new).left (codes "d") ≡ Some [] }
    ensures calm { result ≡ Status.Ok → shelf.new.calls.faults ≡ shelf.old.calls.faults }
    ensures mast { memory_mast_state mast.new ≡ memory_mast_state mast.old }
    ensures ear { memory_ear_state ear.new ≡ memory_ear_state ear.old }
{
    air_main(rt, alloc, words, shelf, mast, ear, gate)
}

/// `plan d` that is done has printed the plan of the deck that the file spells, disk by disk.
/// Promise: script, drill and plan print their texts
pub fn disks_reversed<R: Threads + Wait + Sync, G: Gate + Sync>(
    rt: &R,
    alloc: Global,
    words: &[String],
    shelf: &mut MemShelf,
    mast: &mut MemMast,
    ear: &mut MemEar,
    gate: &G,
) -> Status
    requires words { map (λ w. string_bytes w) words.now ≡ codes "plan" ∷ codes "d" ∷ [] }
    requires unaimed { mast.old.port ≡ None }
    requires unsent { sent_by mast.old ≡ nothing_sent }
    requires untuned { ear.old.port ≡ None }
    requires printed { (told_by shelf.old).printed ≡ Some [] }
    ensures { result ≡ Status.Ok → (d : Deck) × Spells (file_bytes (file_named (codes "d") shelf.old.files.items)) d × ((told_by shelf.new).printed ≡ Some (plan_output d)) }
{
    air_main(rt, alloc, words, shelf, mast, ear, gate)
}

/// `split d` that is done has printed the best split of the deck that the file spells, and after it the deck's own sizes.
/// Promise: the split is the least
pub fn given_sizes_printed_first<R: Threads + Wait + Sync, G: Gate + Sync>(
    rt: &R,
    alloc: Global,
    words: &[String],
    shelf: &mut MemShelf,
    mast: &mut MemMast,
    ear: &mut MemEar,
    gate: &G,
) -> Status
    requires words { map (λ w. string_bytes w) words.now ≡ codes "split" ∷ codes "d" ∷ [] }
    requires unaimed { mast.old.port ≡ None }
    requires unsent { sent_by mast.old ≡ nothing_sent }
    requires untuned { ear.old.port ≡ None }
    requires printed { (told_by shelf.old).printed ≡ Some [] }
    ensures { result ≡ Status.Ok → (d : Deck) × Spells (file_bytes (file_named (codes "d") shelf.old.files.items)) d ×
        ((sizes : List ℕ) × IsBest d sizes × ((told_by shelf.new).printed ≡ Some (split_text d sizes))) }
{
    air_main(rt, alloc, words, shelf, mast, ear, gate)
}

/// The deck's own program has 22,176 slots, and each split has 16,632 or more: `split d` is never done, and if it is refused for its splits, that
/// number is answered and printed.
/// Promise: the split is the least
pub fn own_slots_printed<R: Threads + Wait + Sync, G: Gate + Sync>(
    rt: &R,
    alloc: Global,
    words: &[String],
    shelf: &mut MemShelf,
    mast: &mut MemMast,
    ear: &mut MemEar,
    gate: &G,
) -> Status
    requires words { map (λ w. string_bytes w) words.now ≡ codes "split" ∷ codes "d" ∷ [] }
    requires unaimed { mast.old.port ≡ None }
    requires unsent { sent_by mast.old ≡ nothing_sent }
    requires untuned { ear.old.port ≡ None }
    requires printed { (told_by shelf.old).printed ≡ Some [] }
    requires faults { shelf.old.calls.faults ≡ 0 }
    requires spelled { Spells (file_bytes (file_named (codes "d") shelf.old.files.items)) long_deck }
    ensures done { result ≢ Status.Ok }
    ensures slots { (slots : ℕ) → result ≡ Status.PlanTooLong slots → slots ≡ 16_632 }
    ensures line { (slots : ℕ) → result ≡ Status.PlanTooLong slots → shelf.new.calls.faults ≡ 0 →
        (told_by shelf.new).printed ≡ Some (codes "fault,13,16632\n") }
{
    air_main(rt, alloc, words, shelf, mast, ear, gate)
}

/// `script d t` that is done has written the tape of the deck's script, including its last piece, and one that is refused for its tape would have had
/// more bytes than a tape may have. It also refuses that the tape's word is ignored, and that the longest tape is refused.
/// Promise: every answer is a named one
/// Promise: what each status leaves outside
/// Promise: script, drill and plan print their texts
pub fn last_piece_left_out<R: Threads + Wait + Sync, G: Gate + Sync>(
    rt: &R,
    alloc: Global,
    words: &[String],
    shelf: &mut MemShelf,
    mast: &mut MemMast,
    ear: &mut MemEar,
    gate: &G,
) -> Status
    requires words { map (λ w. string_bytes w) words.now ≡ codes "script" ∷ codes "d" ∷ codes "t" ∷ [] }
    requires unaimed { mast.old.port ≡ None }
    requires unsent { sent_by mast.old ≡ nothing_sent }
    requires untuned { ear.old.port ≡ None }
    ensures done { result ≡ Status.Ok → (d : Deck) × Spells (file_bytes (file_named (codes "d") shelf.old.files.items)) d × ((told_by shelf.new).output (codes "t") ≡ Some (script_tape d)) }
    ensures long { (bytes : ℕ) → result ≡ Status.TooLong bytes → 1_073_741_824 < bytes }
{
    air_main(rt, alloc, words, shelf, mast, ear, gate)
}

/// `drill 3 2` that is done has printed the line of seed 3 and size 2.
/// Promise: script, drill and plan print their texts
pub fn drill_always_of_size_1<R: Threads + Wait + Sync, G: Gate + Sync>(
    rt: &R,
    alloc: Global,
    words: &[String],
    shelf: &mut MemShelf,
    mast: &mut MemMast,
    ear: &mut MemEar,
    gate: &G,
) -> Status
    requires words { map (λ w. string_bytes w) words.now ≡ codes "drill" ∷ codes "3" ∷ codes "2" ∷ [] }
    requires unaimed { mast.old.port ≡ None }
    requires unsent { sent_by mast.old ≡ nothing_sent }
    requires untuned { ear.old.port ≡ None }
    requires printed { (told_by shelf.old).printed ≡ Some [] }
    ensures { result ≡ Status.Ok → (told_by shelf.new).printed ≡ Some (drill_output 3 2) }
{
    air_main(rt, alloc, words, shelf, mast, ear, gate)
}

/// `audit d r` that ends with status 0 has printed findings of which none differs.
/// Promise: the command prints the audit
pub fn difference_told_as_none<R: Threads + Wait + Sync, G: Gate + Sync>(
    rt: &R,
    alloc: Global,
    words: &[String],
    shelf: &mut MemShelf,
    mast: &mut MemMast,
    ear: &mut MemEar,
    gate: &G,
) -> Status
    requires words { map (λ w. string_bytes w) words.now ≡ codes "audit" ∷ codes "d" ∷ codes "r" ∷ [] }
    requires unaimed { mast.old.port ≡ None }
    requires unsent { sent_by mast.old ≡ nothing_sent }
    requires untuned { ear.old.port ≡ None }
    requires printed { (told_by shelf.old).printed ≡ Some [] }
    ensures { result ≡ Status.Ok → (found : List Finding) × (some_differ found ≡ false) × ((told_by shelf.new).printed ≡ Some (findings_text found)) }
{
    air_main(rt, alloc, words, shelf, mast, ear, gate)
}

/// `run d t` that is refused for its deck leaves its output as it was. Regardless of its status it reads nothing of the file t, writes nothing to
/// the output d, and leaves mast and ear as they were. It also refuses that deck and tape change places, and a run that is sent to the mast.
/// Promise: what each status leaves outside
/// Promise: run prints what it aired
/// Promise: what goes over the air
pub fn output_begun_before_the_deck_is_read<R: Threads + Wait + Sync, G: Gate + Sync>(
    rt: &R,
    alloc: Global,
    words: &[String],
    shelf: &mut MemShelf,
    mast: &mut MemMast,
    ear: &mut MemEar,
    gate: &G,
) -> Status
    requires words { map (λ w. string_bytes w) words.now ≡ codes "run" ∷ codes "d" ∷ codes "t" ∷ [] }
    requires unaimed { mast.old.port ≡ None }
    requires unsent { sent_by mast.old ≡ nothing_sent }
    requires untuned { ear.old.port ≡ None }
    ensures refused { (row kind : ℕ) → result ≡ Status.Deck row kind → (told_by shelf.new).output (codes "t") ≡ (told_by shelf.old).output (codes "t") }
    ensures left { (told_by shelf.new).left (codes "t") ≡ (told_by shelf.old).left (codes "t") }
    ensures output { (told_by shelf.new).output (codes "d") ≡ (told_by shelf.old).output (codes "d") }
    ensures mast { memory_mast_state mast.new ≡ memory_mast_state mast.old }
    ensures ear { memory_ear_state ear.new ≡ memory_ear_state ear.old }
{
    air_main(rt, alloc, words, shelf, mast, ear, gate)
}

/// `cast d 4000` answers that the mast failed only if it counted a failure. If it is refused for its deck, the mast wasn't aimed.
/// Promise: every answer is a named one
pub fn always_an_air_fault<R: Threads + Wait + Sync, G: Gate + Sync>(
    rt: &R,
    alloc: Global,
    words: &[String],
    shelf: &mut MemShelf,
    mast: &mut MemMast,
    ear: &mut MemEar,
    gate: &G,
) -> Status
    requires words { map (λ w. string_bytes w) words.now ≡ codes "cast" ∷ codes "d" ∷ codes "4000" ∷ [] }
    requires unaimed { mast.old.port ≡ None }
    requires unsent { sent_by mast.old ≡ nothing_sent }
    requires untuned { ear.old.port ≡ None }
    requires faults { mast.old.calls.faults ≡ 0 }
    ensures cause { (at : ℕ) → result ≡ Status.AirFault at → 1 ≤ mast.new.calls.faults }
    ensures refused { (row kind : ℕ) → result ≡ Status.Deck row kind → memory_mast_state mast.new ≡ memory_mast_state mast.old }
{
    air_main(rt, alloc, words, shelf, mast, ear, gate)
}

/// `cast d 4000` that has sent the end has counted no failure, regardless of its status: a second end that fails isn't answered as out of memory.
/// Promise: what each status leaves outside
/// Promise: what goes over the air
pub fn failed_after_the_end<R: Threads + Wait + Sync, G: Gate + Sync>(
    rt: &R,
    alloc: Global,
    words: &[String],
    shelf: &mut MemShelf,
    mast: &mut MemMast,
    ear: &mut MemEar,
    gate: &G,
) -> Status
    requires words { map (λ w. string_bytes w) words.now ≡ codes "cast" ∷ codes "d" ∷ codes "4000" ∷ [] }
    requires unaimed { mast.old.port ≡ None }
    requires unsent { sent_by mast.old ≡ nothing_sent }
    requires untuned { ear.old.port ≡ None }
    requires faults { mast.old.calls.faults ≡ 0 }
    ensures { (count : ℕ) → (sent_by mast.new).ended ≡ Some count → mast.new.calls.faults ≡ 0 }
{
    air_main(rt, alloc, words, shelf, mast, ear, gate)
}

/// `run d t` is refused by `air_quiet` as no valid command, or `air_quiet` is out of memory.
/// Promise: every answer is a named one
pub fn waiting_command_done_quietly<T: Threads + Sync>(
    threads: &T,
    alloc: Global,
    words: &[String],
    shelf: &mut MemShelf,
) -> Status
    requires words { map (λ w. string_bytes w) words.now ≡ codes "run" ∷ codes "d" ∷ codes "t" ∷ [] }
    ensures { (result ≡ Status.Words) ⊎ (result ≡ Status.NoMemory) }
{
    air_quiet(threads, alloc, words, shelf)
}
