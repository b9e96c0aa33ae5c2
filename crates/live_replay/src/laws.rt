//! Laws of audits: when a line agrees, which rows have findings, and that true reports agree. Each is the contract of a function that
//! does nothing.

ghost use Rattle.std.specs.Prelude.{◌≡◌, ◌↔◌, ℕ, List, length, All, Option, None};
ghost use Rattle.std.specs.List.{enumerate_from, filter_map};
ghost use Rattle.air_history.specs.declared.histories.Event.{Event};
ghost use Rattle.air_model.specs.Aired.{scheme_in};
ghost use Rattle.air_model.specs.Buckets.{Bucket};
ghost use Rattle.air_model.specs.Decks.{Deck, IsDeck, values_in};
ghost use Rattle.air_model.specs.Judges.{by_history};
ghost use Rattle.air_model.specs.ReceiverLaws.{session_of};
ghost use Rattle.air_model.specs.Reports.{line_by, verdict_lines};
ghost use Rattle.air_model.specs.declared.reports.LookLine.{LookLine};
ghost use Rattle.air_model.specs.declared.reports.VerdictLine.{VerdictLine};
ghost use Rattle.air_report.specs.LineTexts.{spelled_line};
ghost use Rattle.item_catalog.specs.Records.{records_of};
ghost use Rattle.air_report.specs.declared.reading.ReadReport.{ReadReport};
ghost use Rattle.air_report.specs.ReadReports.{IsReportOf};
ghost use Rattle.live_replay.specs.Audits.{findings};
ghost use Rattle.live_replay.specs.FindingLaws.{GivesLook, GivesVerdict};
ghost use Rattle.live_replay.specs.Findings.{look_cause, verdict_cause};
ghost use Rattle.live_replay.specs.ReportFindings.{sessions_judged, spelled_finding};

/// The line of a verdict agrees if and only if the replay gives it. The same holds for the line of a glance or a look.
pub fn agrees_law()
    ensures verdicts { (deck : Deck) (H : List Event) (line : VerdictLine) → (verdict_cause deck H line ≡ None) ↔ GivesVerdict deck H line }
    ensures looks { (deck : Deck) (H : List Event) (line : LookLine) → (look_cause deck H line ≡ None) ↔ GivesLook deck H line }
{}

/// The findings are those of the lines that a text's records spell in the deck's version. They are in the order of the records. Each has
/// its record's row, counted from 1.
pub fn rows_law()
    ensures { (deck : Deck) (text : List ℕ) (read : ReadReport) → IsReportOf deck text read →
        findings deck read ≡ filter_map (λ p. spelled_finding deck read.report.history p.0 (spelled_line deck.settings.version p.1)) (enumerate_from 1 (records_of text)) }
{}

/// A replay gives each line of a session that its history judges, regardless of what the reader heard.
pub fn session_law()
    ensures { (deck : Deck) (H : List Event) (r : ℕ) (heard : List (Option Bucket)) → IsDeck deck →
        All (λ line. GivesVerdict deck H (line_by r line)) (session_of (by_history (scheme_in deck) (length deck.items) (values_in deck) H) deck r heard).lines }
{}

/// No line of a report differs if its verdicts are those of sessions that its history judges, and its glances and looks have the totals
/// of its history. What the readers heard doesn't matter.
pub fn true_report_law()
    ensures { (deck : Deck) (read : ReadReport) (heard : ℕ → List (Option Bucket)) → IsDeck deck →
        read.report.verdicts ≡ verdict_lines (sessions_judged deck read.report.history heard) →
        All (GivesLook deck read.report.history) read.report.glances → All (GivesLook deck read.report.history) read.report.looks →
        All (λ found. found.differs ≡ None) (findings deck read) }
{}
