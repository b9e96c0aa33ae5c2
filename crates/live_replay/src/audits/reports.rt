//! The audit of a report's bytes, or the status that refuses them.

ghost use Rattle.std.specs.Prelude.{◌≤◌, IfErr, IfOk, length};
ghost use Rattle.air_report.specs.declared.reading.limits.TheConstants.{MOST_REPORT_BYTES};
ghost use Rattle.air_report.specs.declared.reading.ReadReport.{ReadReport};
ghost use Rattle.air_report.specs.ReadReports.{IsReportOf};
ghost use Rattle.air_report.specs.KeptReports.{KeepsGrammar};
ghost use Rattle.live_replay.specs.AuditAnswers.{HasAudit, UnauditedCause};
ghost use Rattle.live_replay.specs.TrueAudits.{IsTrueAudit};

use crate::audits::audit;
use crate::audits::texts::{differing_count, findings_text};
use crate::findings::AuditError;
use crate::laws::{agrees_law, session_law, true_report_law};
use air_report::{ReadReport, ReportError, Status, read_report};
use item_catalog::Deck;
use std::alloc::Global;

/// An audit: the text of its findings, and whether some line differs.
#[derive(Debug, Drop)]
pub struct AuditText {
    pub text: Vec<u8>,
    pub differs: bool,
}

/// The audit of a report of a deck.
#[tactic(auto, unfolding(crate::specs::AuditAnswers::UnauditedCause))]
pub fn audit_report(alloc: Global, deck: &Deck, bytes: &[u8]) -> Result<AuditText, Status>
    requires { length bytes.now ≤ MOST_REPORT_BYTES }
    ensures audit { IfOk result (HasAudit deck.now bytes.now) }
    ensures refused { IfErr result (UnauditedCause deck.now bytes.now) }
{
    match read_report(alloc, deck, bytes) {
        Ok(report) => audit_read(alloc, deck, bytes, &report),
        Err(ReportError::Fault { row, kind }) => Err(Status::Report { row, kind }),
        Err(ReportError::NoMemory) => Err(Status::NoMemory),
    }
}

/// The audit of the report that was read of these bytes.
#[tactic(auto, using(crate::proofs::AuditLemmas::too_much), unfolding(crate::specs::AuditAnswers::UnauditedCause))]
fn audit_read(
    alloc: Global,
    deck: &Deck,
    bytes: &[u8],
    report: &ReadReport,
) -> Result<AuditText, Status>
    requires read { IsReportOf deck.now bytes.now report.now }
    requires kept { KeepsGrammar deck.now report.now }
    ensures audit { IfOk result (HasAudit deck.now bytes.now) }
    ensures refused { IfErr result (UnauditedCause deck.now bytes.now) }
{
    shows_audit_truth(deck);
    match audit(alloc, deck, report) {
        Ok(found) => {
            let text = findings_text(alloc, &found)?;
            let differs = differing_count(&found) > 0;
            Ok(AuditText { text, differs })
        }
        Err(AuditError::TooMuch { product }) => Err(Status::TooMuch { product }),
        Err(AuditError::NoMemory) => Err(Status::NoMemory),
    }
}

/// Gives a caller's proof that audits are true, by the laws of replays. The calls do nothing.
fn shows_audit_truth(deck: &Deck)
    ensures { (read : ReadReport) → IsTrueAudit deck.now read }
{
    deck.shows_well_made();
    agrees_law();
    session_law();
    true_report_law();
}
