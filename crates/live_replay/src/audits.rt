//! The audit of a report: the finding of each verdict, glance and look line, in order.

ghost use Rattle.std.specs.Prelude.{◌≡◌, ◌<◌, ◌≤◌, ◌^◌, ◌++◌, length, not, count_by, All, IfOk, IfErr, OnOk};
ghost use Rattle.air_history.specs.Histories.{is_start, starts};
ghost use Rattle.air_report.specs.KeptReports.{IsFew, KeepsGrammar};
ghost use Rattle.live_replay.specs.Audits.{IsAuditRefusal, findings, found_in, replayed_in};
ghost use Rattle.live_replay.specs.Findings.{look_cause, verdict_cause};
ghost use Rattle.live_replay.specs.Private.Lines.{LineFits};
ghost use Rattle.live_replay.specs.declared.limits.TheConstants.{MOST_REPLAYED};

pub(crate) mod reports;
pub(crate) mod texts;

use crate::alone::WalkLists;
use crate::findings::{AuditError, Finding};
use crate::limits::MOST_REPLAYED;
use crate::lines::{look_cause, verdict_cause};
use crate::replay::Replay;
use air_base::NoMemory;
use air_history::Event;
use air_model::reports::{LookLine, VerdictLine};
use air_report::{ReadReport, Report};
use item_catalog::Deck;
use std::alloc::Global;

/// The number of commits.
fn commits_in(events: &[Event]) -> u64
    requires { length events.now < 2 ^ 32 }
    ensures told { result ≡ count_by (λ event. not (is_start event)) events.now }
    ensures few { result ≤ length events.now }
{
    let mut commits = 0;
    for event in events {
        if !event.is_start() {
            commits += 1;
        }
    }
    commits
}

/// How much of a report is replayed: the number of commits times that of lines.
#[tactic(auto, unfolding(crate::specs::Audits::replayed_in))]
fn replayed_in(report: &Report) -> u64
    requires events { IsFew report.now.history }
    requires verdicts { IsFew report.now.verdicts }
    requires glances { IsFew report.now.glances }
    requires looks { IsFew report.now.looks }
    ensures { result ≡ replayed_in report.now }
{
    let lines = report.verdicts.len() + report.glances.len() + report.looks.len();
    commits_in(report.history.events()) * lines as u64
}

/// Adds the findings of the lines of verdicts that are in these rows.
fn add_verdicts(
    alloc: Global,
    replay: &Replay<'_>,
    rows: &[u32],
    lines: &[VerdictLine],
    found: &mut Vec<Finding>,
) -> Result<(), NoMemory>
    requires fits { All (LineFits (length replay.now.deck.items) (starts replay.now.history)) lines.now }
    requires sized { length rows.now ≡ length lines.now }
    ensures { OnOk result (found.new.items ≡ found.old.items ++ found_in (verdict_cause replay.now.deck replay.now.history) rows.now lines.now) }
{
    let mut lists = WalkLists::new(alloc);
    for (place, line) in lines.iter().enumerate() {
        found.push(Finding {
            row: rows[place],
            differs: verdict_cause(alloc, replay, line, &mut lists)?,
        })?;
    }
    Ok(())
}

/// Adds the findings of the lines of glances or looks that are in these rows.
fn add_looks(
    replay: &Replay<'_>,
    rows: &[u32],
    lines: &[LookLine],
    found: &mut Vec<Finding>,
) -> Result<(), NoMemory>
    requires { length rows.now ≡ length lines.now }
    ensures { OnOk result (found.new.items ≡ found.old.items ++ found_in (look_cause replay.now.deck replay.now.history) rows.now lines.now) }
{
    for (place, line) in lines.iter().enumerate() {
        found.push(Finding {
            row: rows[place],
            differs: look_cause(replay, line),
        })?;
    }
    Ok(())
}

/// The finding of each verdict, glance and look line of a report, in order, with its row. The answer is `TooMuch` if and only if the
/// number of commits times that of these lines is above `MOST_REPLAYED`.
#[tactic(auto, unfolding(crate::specs::Audits::findings))]
pub fn audit(alloc: Global, deck: &Deck, report: &ReadReport) -> Result<Vec<Finding>, AuditError>
    requires kept { KeepsGrammar deck.now report.now }
    ensures found { IfOk result (λ found. found.items ≡ findings deck.now report.now) }
    ensures within { IfOk result (λ _. replayed_in report.now.report ≤ MOST_REPLAYED) }
    ensures refused { IfErr result (IsAuditRefusal report.now.report) }
{
    deck.shows_well_made();
    let lines = &report.report;
    let product = replayed_in(lines);
    if product > MOST_REPLAYED {
        return Err(AuditError::TooMuch { product });
    }
    let replay = Replay::new(alloc, deck, &lines.history)?;
    let verdict_rows = report.verdict_rows.as_slice();
    let glance_rows = report.glance_rows.as_slice();
    let look_rows = report.look_rows.as_slice();
    let mut found = Vec::new(alloc);
    add_verdicts(alloc, &replay, verdict_rows, &lines.verdicts, &mut found)?;
    add_looks(&replay, glance_rows, &lines.glances, &mut found)?;
    add_looks(&replay, look_rows, &lines.looks, &mut found)?;
    Ok(found)
}
