//! These pins fix what `live_replay` finds of the lines of small reports, each by its row. They also fix how much it replays, and that it refuses one
//! replay more, with the number.

ghost use Rattle.std.specs.Prelude.{◌≡◌, ◌⊎◌, [], ◌∷◌, Err, Some, None, IfErr, IfOk};
ghost use Rattle.air_report.specs.KeptReports.{KeepsGrammar};
ghost use Rattle.live_replay.specs.Audits.{replayed_in};
ghost use Rattle.report_pins.specs.SmallDeck.{small_deck, young_deck};
ghost use Rattle.report_pins.specs.SmallReports.{r_matrix_deck, far_report, found, group_deck, group_report, late_report, read_report};

use air_report::ReadReport;
use item_catalog::Deck;
use live_replay::{AuditError, Cause, Finding, audit};
use std::alloc::Global;

/// Reads of two commits agree. It also refuses:
/// In row 7, that an item that isn't written is 0, and that a write counts in its own cycle.
/// In row 8, that values alone are replayed, and that the printed verdict is repeated (parrot audit), since its abort is of a read that passes.
/// In row 9, that the verdict is answered before the value.
/// In row 10, that a look is judged a cycle early.
/// Promise: the audit is its definition
/// Promise: the audit agrees with true sessions
#[tactic(auto, using(crate::proofs::ReplayLemmas::read_findings))]
pub fn descents_of_one_read_alone(
    alloc: Global,
    deck: &Deck,
    report: &ReadReport,
) -> Result<Vec<Finding>, AuditError>
    requires deck { deck.now ≡ small_deck }
    requires report { report.now ≡ read_report }
    ensures { IfOk result (λ list. list.items ≡ found 6 None ∷ found 7 None ∷ found 8 (Some Cause.Verdict) ∷ found 9 (Some Cause.Value) ∷ found 10 None ∷ []) }
{
    audit(alloc, deck, report)
}

/// Under R-Matrix a read that comes late differs, though nothing writes its item. It also refuses, in row 7, that an abort names the greatest of the
/// items with which its read clashes.
/// Promise: the audit is its definition
/// Promise: the audit agrees with true sessions
#[tactic(auto, using(crate::proofs::ReplayLemmas::late_findings))]
pub fn late_read_passes(
    alloc: Global,
    deck: &Deck,
    report: &ReadReport,
) -> Result<Vec<Finding>, AuditError>
    requires deck { deck.now ≡ r_matrix_deck }
    requires report { report.now ≡ late_report }
    ensures { IfOk result (λ list. list.items ≡ found 6 (Some Cause.Verdict) ∷ found 7 None ∷ []) }
{
    audit(alloc, deck, report)
}

/// By groups a read clashes with a newer one where its item was written since, though they are consistent: the item is of the newer one's
/// group. It also refuses, in row 7, that the group of the new read is asked.
/// Promise: the audit is its definition
#[tactic(auto, using(crate::proofs::ReplayLemmas::group_findings))]
pub fn group_judged_by_two_reads_alone(
    alloc: Global,
    deck: &Deck,
    report: &ReadReport,
) -> Result<Vec<Finding>, AuditError>
    requires deck { deck.now ≡ group_deck }
    requires report { report.now ≡ group_report }
    ensures { IfOk result (λ list. list.items ≡ found 6 None ∷ found 7 (Some Cause.Verdict) ∷ []) }
{
    audit(alloc, deck, report)
}

/// The reads of an aged attempt are 255 cycles apart, including the named one. It also refuses, in row 258, that 254 cycles are too far.
/// Promise: the audit is its definition
#[tactic(auto, using(crate::proofs::FarLemmas::far_findings))]
pub fn span_without_the_named_read(
    alloc: Global,
    deck: &Deck,
    report: &ReadReport,
) -> Result<Vec<Finding>, AuditError>
    requires deck { deck.now ≡ young_deck }
    requires report { report.now ≡ far_report }
    ensures { IfOk result (λ list. list.items ≡ found 257 None ∷ found 258 (Some Cause.Verdict) ∷ []) }
{
    audit(alloc, deck, report)
}

/// Fifty million replays aren't too many.
/// Promise: the audit is its definition
pub fn too_much_at_the_limit(
    alloc: Global,
    deck: &Deck,
    report: &ReadReport,
) -> Result<Vec<Finding>, AuditError>
    requires kept { KeepsGrammar deck.now report.now }
    requires product { replayed_in report.now.report ≡ 50000000 }
    ensures { IfErr result (λ error. error ≡ AuditError.NoMemory) }
{
    audit(alloc, deck, report)
}

/// One replay more than fifty million is too much, and the refusal has exactly that number.
/// Promise: the audit is its definition
pub fn too_much_by_another_product(
    alloc: Global,
    deck: &Deck,
    report: &ReadReport,
) -> Result<Vec<Finding>, AuditError>
    requires kept { KeepsGrammar deck.now report.now }
    requires product { replayed_in report.now.report ≡ 50000001 }
    ensures { (result ≡ Err AuditError.NoMemory) ⊎ (result ≡ Err (AuditError.TooMuch 50000001)) }
{
    audit(alloc, deck, report)
}
