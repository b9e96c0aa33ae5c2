//! These pins say what holds if a call of `air_main` succeeded, over devices in memory, by its clause `headline` alone. For `run` and `cast` they fix
//! the history and what was left of it; for `tune` and `listen`, byte by byte, what is printed for a small deck; for `audit`, what a finding says.
#![tactic(auto)]

ghost use Rattle.std.specs.Prelude.{◌≡◌, ◌<◌, ℕ, List, [], ◌∷◌, All, None, Some, codes, get_or, length, map, string_bytes};
ghost use Rattle.air_history.specs.Consistency.{IsConsistent};
ghost use Rattle.air_model.specs.Decks.{Deck, IsWhole};
ghost use Rattle.air_model.specs.Outputs.{run_tape};
ghost use Rattle.air_model.specs.Reports.{Report, report_text};
ghost use Rattle.air_model.specs.declared.reports.VerdictLine.{VerdictLine};
ghost use Rattle.air_devices.specs.Masts.{nothing_sent};
ghost use Rattle.air_devices.specs.Memory.{file_bytes, file_named, told_by};
ghost use Rattle.air_devices.specs.MemoryMasts.{told_by_mast as sent_by};
ghost use Rattle.air_report.specs.ReadReports.{IsReportOf};
ghost use Rattle.air_report.specs.declared.reading.ReadReport.{ReadReport};
ghost use Rattle.deck_runs.specs.Casts.{all_sent};
ghost use Rattle.air_sender.specs.AiredBytes.{aired_bytes};
ghost use Rattle.item_catalog.specs.Grammar.{Spells};
ghost use Rattle.live_replay.specs.FindingLaws.{GivesVerdict};
ghost use Rattle.live_replay.specs.FindingTexts.{findings_text};
ghost use Rattle.live_replay.specs.Findings.{places_read};
ghost use Rattle.live_replay.specs.declared.findings.Finding.{Finding};
ghost use Rattle.command_pins.specs.SmallDecks.{short_deck};

use air_cli::air_main;
use air_devices::{Gate, MemEar, MemMast, MemShelf};
use air_report::Status;
use std::alloc::Global;
use std::sync::Wait;
use std::thread::Threads;

/// `run d t` that is done has written the tape of one whole history of the deck that the file spells, and printed a report of that history, in which
/// the reads of each verdict are consistent. It also refuses a tape of another history than the printed one.
/// Promise: the headline
/// Promise: accepted reads are consistent
pub fn inconsistent_reads_printed<R: Threads + Wait + Sync, G: Gate + Sync>(
    rt: &R,
    alloc: Global,
    words: &[String],
    shelf: &mut MemShelf,
    mast: &mut MemMast,
    ear: &mut MemEar,
    gate: &G,
) -> Status
    requires words { map (λ w. string_bytes w) words.now ≡ codes "run" ∷ codes "d" ∷ codes "t" ∷ [] }
    requires unaimed { mast.old.port ≡ None }
    requires unsent { sent_by mast.old ≡ nothing_sent }
    requires untuned { ear.old.port ≡ None }
    requires printed { (told_by shelf.old).printed ≡ Some [] }
    ensures { result ≡ Status.Ok → (d : Deck) × (report : Report) × Spells (file_bytes (file_named (codes "d") shelf.old.files.items)) d × IsWhole d report.history
        × ((told_by shelf.new).output (codes "t") ≡ Some (run_tape d report.history)) × ((told_by shelf.new).printed ≡ Some (report_text report))
        × All (λ line. IsConsistent report.history (places_read line.reads)) report.verdicts }
{
    air_main(rt, alloc, words, shelf, mast, ear, gate)
}

/// `cast d 4000` that is done has sent exactly the buckets of the history that it printed, and then the end.
/// Promise: the headline
/// Promise: what goes over the air
pub fn buckets_of_another_history<R: Threads + Wait + Sync, G: Gate + Sync>(
    rt: &R,
    alloc: Global,
    words: &[String],
    shelf: &mut MemShelf,
    mast: &mut MemMast,
    ear: &mut MemEar,
    gate: &G,
) -> Status
    requires words { map (λ w. string_bytes w) words.now ≡ codes "cast" ∷ codes "d" ∷ codes "4000" ∷ [] }
    requires unaimed { mast.old.port ≡ None }
    requires unsent { sent_by mast.old ≡ nothing_sent }
    requires untuned { ear.old.port ≡ None }
    requires printed { (told_by shelf.old).printed ≡ Some [] }
    ensures { result ≡ Status.Ok → (d : Deck) × (report : Report) × Spells (file_bytes (file_named (codes "d") shelf.old.files.items)) d × IsWhole d report.history
        × (sent_by mast.new ≡ all_sent (aired_bytes d report.history)) × ((told_by shelf.new).printed ≡ Some (report_text report)) }
{
    air_main(rt, alloc, words, shelf, mast, ear, gate)
}

/// `tune d t` over an empty tape, where d spells a deck of two items and one reader who asks for both, has printed that the query is unfinished, and
/// counts of 0.
/// Promise: the headline
/// Promise: tune prints its session
pub fn accepted_without_a_read<R: Threads + Wait + Sync, G: Gate + Sync>(
    rt: &R,
    alloc: Global,
    words: &[String],
    shelf: &mut MemShelf,
    mast: &mut MemMast,
    ear: &mut MemEar,
    gate: &G,
) -> Status
    requires words { map (λ w. string_bytes w) words.now ≡ codes "tune" ∷ codes "d" ∷ codes "t" ∷ [] }
    requires unaimed { mast.old.port ≡ None }
    requires unsent { sent_by mast.old ≡ nothing_sent }
    requires untuned { ear.old.port ≡ None }
    requires printed { (told_by shelf.old).printed ≡ Some [] }
    requires deck { Spells (file_bytes (file_named (codes "d") shelf.old.files.items)) short_deck }
    requires tape { file_bytes (file_named (codes "t") shelf.old.files.items) ≡ [] }
    ensures { result ≡ Status.Ok → (told_by shelf.new).printed ≡ Some (codes "unfinished,0,0,1,\ncounts,0,0,0,0,0,0,0\n") }
{
    air_main(rt, alloc, words, shelf, mast, ear, gate)
}

/// `listen d 4000` with two datagrams that are no buckets has refused both, and has printed that the query is unfinished.
/// Promise: the headline
/// Promise: what goes over the air
pub fn noise_taken_for_buckets<R: Threads + Wait + Sync, G: Gate + Sync>(
    rt: &R,
    alloc: Global,
    words: &[String],
    shelf: &mut MemShelf,
    mast: &mut MemMast,
    ear: &mut MemEar,
    gate: &G,
) -> Status
    requires words { map (λ w. string_bytes w) words.now ≡ codes "listen" ∷ codes "d" ∷ codes "4000" ∷ [] }
    requires unaimed { mast.old.port ≡ None }
    requires unsent { sent_by mast.old ≡ nothing_sent }
    requires untuned { ear.old.port ≡ None }
    requires waiting { ear.old.waiting ≡ (1 ∷ []) ∷ (2 ∷ []) ∷ [] }
    requires printed { (told_by shelf.old).printed ≡ Some [] }
    requires deck { Spells (file_bytes (file_named (codes "d") shelf.old.files.items)) short_deck }
    ensures { result ≡ Status.Ok → (told_by shelf.new).printed ≡ Some (codes "unfinished,0,0,1,\ncounts,0,0,0,0,2,0,0\n") }
{
    air_main(rt, alloc, words, shelf, mast, ear, gate)
}

/// `audit d r` that ends with status 9 has printed findings of the report that the file spells, those of its verdicts first, in order. One of them says
/// that its verdict agrees only if the replay over the report's own history gives that verdict.
/// Promise: the headline
/// Promise: the command prints the audit
pub fn false_verdict_told_as_agreeing<R: Threads + Wait + Sync, G: Gate + Sync>(
    rt: &R,
    alloc: Global,
    words: &[String],
    shelf: &mut MemShelf,
    mast: &mut MemMast,
    ear: &mut MemEar,
    gate: &G,
) -> Status
    requires words { map (λ w. string_bytes w) words.now ≡ codes "audit" ∷ codes "d" ∷ codes "r" ∷ [] }
    requires unaimed { mast.old.port ≡ None }
    requires unsent { sent_by mast.old ≡ nothing_sent }
    requires untuned { ear.old.port ≡ None }
    requires printed { (told_by shelf.old).printed ≡ Some [] }
    ensures { result ≡ Status.Differs → (d : Deck) × (read : ReadReport) × (found : List Finding) × IsReportOf d (file_bytes (file_named (codes "r") shelf.old.files.items)) read
        × ((told_by shelf.new).printed ≡ Some (findings_text found))
        × ((k : ℕ) (f : Finding) (line : VerdictLine) → k < length read.report.verdicts → (get_or found k f).differs ≡ None → GivesVerdict d read.report.history (get_or read.report.verdicts k line)) }
{
    air_main(rt, alloc, words, shelf, mast, ear, gate)
}
