//! The law of reports both ways: what is written is read back. Its body is empty.

ghost use Rattle.std.specs.Prelude.{◌≡◌, ℕ};
ghost use Rattle.air_model.specs.Decks.{Deck};
ghost use Rattle.air_model.specs.Reports.{Report, report_text};
ghost use Rattle.air_report.specs.LineRules.{InGrammar};
ghost use Rattle.air_report.specs.ReportGrammar.{HasReportFault};
ghost use Rattle.air_report.specs.ReportLines.{lines_in};
ghost use Rattle.air_report.specs.ReportRules.{HasWidths, IsReport};
ghost use Rattle.air_report.specs.declared.reading.ReadReport.{ReadReport};
ghost use Rattle.air_report.specs.ReadReports.{IsReportOf};

pub(crate) mod reading;
pub mod texts;

/// The text of a report whose numbers fit their types and whose lines are in the grammar has no fault, regardless of its commits' updates. The text
/// of a report of a deck reads back as this very report, its updates included.
pub fn read_back_law()
    ensures faultless { (deck : Deck) (report : Report) → HasWidths report → InGrammar deck (lines_in report) →
        (row_number kind_number : ℕ) → HasReportFault deck (report_text report) row_number kind_number → ⊥ }
    ensures same { (deck : Deck) (report : Report) → IsReport deck report → (read : ReadReport) → IsReportOf deck (report_text report) read → read.report ≡ report }
{}
