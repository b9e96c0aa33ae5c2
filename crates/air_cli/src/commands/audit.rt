//! The command `audit`: the findings of the replay of a named report, by a named deck.

ghost use Rattle.std.specs.Prelude.{◌≤◌, length, IfErr, IfOk};
ghost use Rattle.air_report.specs.declared.reading.limits.TheConstants.{MOST_REPORT_BYTES};
ghost use Rattle.live_replay.specs.AuditAnswers.{HasAudit, UnauditedCause};
ghost use Rattle.air_cli.specs.Private.BeforeDelivery.{IsMade, IsUnmade, ReadsInputs};
ghost use Rattle.air_cli.specs.Audit.{audit_meaning};

use crate::files::decks::read_deck_file;
use crate::files::read_bytes;
use crate::outputs::report_and_tape::ReportAndTape;
use air_devices::Shelf;
use air_report::Status;
use air_report::reading::limits::MOST_REPORT_BYTES;
use item_catalog::Deck;
use live_replay::{AuditText, audit_report};
use std::alloc::Global;

/// The findings of a report that was read, by its deck.
fn audit_read(alloc: Global, deck: Deck, bytes: Vec<u8>) -> Result<AuditText, Status>
    requires { length bytes.items ≤ MOST_REPORT_BYTES }
    ensures audit { IfOk result (HasAudit deck bytes.items) }
    ensures refused { IfErr result (UnauditedCause deck bytes.items) }
{
    audit_report(alloc, &deck, &bytes)
}

/// The findings of the named report, by the named deck.
#[tactic(auto, using(crate::proofs::AuditLemmas::reads_both))]
pub(crate) fn audit<S: Shelf>(
    alloc: Global,
    shelf: &mut S,
    name: &str,
    report: &str,
) -> Result<ReportAndTape, Status>
    ensures made { IfOk result (IsMade (audit_meaning name.now report.now) (S.state shelf.old) (S.state shelf.new)) }
    ensures unmade { IfErr result (IsUnmade (audit_meaning name.now report.now) (S.state shelf.old) (S.state shelf.new)) }
    ensures reads { ReadsInputs (audit_meaning name.now report.now) (S.state shelf.old) (S.state shelf.new) }
{
    let deck = read_deck_file(alloc, shelf, name)?;
    let bytes = read_bytes(alloc, shelf, report, MOST_REPORT_BYTES)?;
    let audited = audit_read(alloc, deck, bytes)?;
    Ok(ReportAndTape {
        text: audited.text,
        tape: None,
        differs: audited.differs,
    })
}
