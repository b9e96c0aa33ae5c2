//! These pins fix what `live_replay` makes of findings and of reports' texts: the text of two findings, and the audit of two looks. They also fix how
//! it refuses a text with a fault, and a report that is too much to replay.

ghost use Rattle.std.specs.Prelude.{◌≡◌, ◌⊎◌, ◌≤◌, ◌++◌, [], ◌∷◌, Err, Some, None, codes, length, true, IfOk};
ghost use Rattle.air_report.specs.ReadReports.{IsReportOf};
ghost use Rattle.air_report.specs.declared.reading.ReadReport.{ReadReport};
ghost use Rattle.live_replay.specs.Audits.{replayed_in};
ghost use Rattle.air_report.specs.declared.reading.limits.TheConstants.{MOST_REPORT_BYTES};
ghost use Rattle.report_pins.specs.SmallDeck.{small_deck, text_line, two_looks};
ghost use Rattle.report_pins.specs.SmallReports.{found};

use air_base::NoMemory;
use air_report::Status;
use item_catalog::Deck;
use live_replay::{AuditText, Cause, Finding, audit_report, findings_text};
use std::alloc::Global;

/// A finding has its own row and its own cause, and the last row has the number of the findings before it that differ. It also refuses that these two
/// are exchanged, and that rows are counted from 0.
/// Promise: the command prints the audit
#[tactic(auto, using(crate::proofs::AuditLemmas::text_of_findings))]
pub fn clash_told_as_verdict(alloc: Global, findings: &[Finding]) -> Result<Vec<u8>, NoMemory>
    requires { findings.now ≡ found 5 None ∷ found 6 (Some Cause.Clash) ∷ [] }
    ensures { IfOk result (λ text. text.items ≡ text_line (codes "agrees,5") ++ text_line (codes "differs,6,clash") ++ text_line (codes "audited,2,1")) }
{
    findings_text(alloc, findings)
}

/// If one line of two differs, the audit says so, with the text of both. It also refuses that the findings are left out.
/// Promise: the command prints the audit
pub fn differs_only_where_all_do(
    alloc: Global,
    deck: &Deck,
    bytes: &[u8],
) -> Result<AuditText, Status>
    requires deck { deck.now ≡ small_deck }
    requires bytes { bytes.now ≡ two_looks }
    ensures differs { IfOk result (λ audited. audited.differs ≡ true) }
    ensures text { IfOk result (λ audited. audited.text.items ≡ text_line (codes "agrees,2") ++ text_line (codes "differs,3,total") ++ text_line (codes "audited,2,1")) }
{
    audit_report(alloc, deck, bytes)
}

/// An unknown tag is of kind 3.
/// Promise: every answer is a named one
pub fn kind_of_a_fault_forgotten(
    alloc: Global,
    deck: &Deck,
    bytes: &[u8],
) -> Result<AuditText, Status>
    requires deck { deck.now ≡ small_deck }
    requires bytes { bytes.now ≡ codes "a" }
    ensures { (result ≡ Err Status.NoMemory) ⊎ (result ≡ Err (Status.Report 1 3)) }
{
    audit_report(alloc, deck, bytes)
}

/// A report that needs one replay more than the limit is refused, with that number.
/// Promise: every answer is a named one
pub fn too_much_without_its_product(
    alloc: Global,
    deck: &Deck,
    bytes: &[u8],
) -> Result<AuditText, Status>
    requires few { length bytes.now ≤ MOST_REPORT_BYTES }
    requires spelled { (read : ReadReport) × IsReportOf deck.now bytes.now read × (replayed_in read.report ≡ 50000001) }
    ensures { (result ≡ Err Status.NoMemory) ⊎ (result ≡ Err (Status.TooMuch 50000001)) }
{
    audit_report(alloc, deck, bytes)
}
