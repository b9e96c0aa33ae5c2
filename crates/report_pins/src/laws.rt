//! Worked answers of the laws of reports: what they say of the text of two commits, and of what is written for the small deck.

ghost use Rattle.std.specs.Prelude.{◌≡◌, ℕ};
ghost use Rattle.air_model.specs.Reports.{Report, report_text};
ghost use Rattle.air_report.specs.LineRules.{InGrammar};
ghost use Rattle.air_report.specs.ReportGrammar.{HasReportFault, SpellsReport};
ghost use Rattle.air_report.specs.ReportLines.{lines_in};
ghost use Rattle.air_report.specs.ReportRules.{HasWidths};
ghost use Rattle.report_pins.specs.SmallDeck.{small_deck, two_commits};

use air_report::{not_both_reports_law, one_report_law, read_back_law};

/// A text that spells a report has no fault.
/// Promise: texts are exact
pub fn fault_beside_the_lines()
    ensures { (report : Report) (row kind : ℕ) →
        SpellsReport small_deck two_commits report → HasReportFault small_deck two_commits row kind → ⊥ }
{
    not_both_reports_law();
}

/// No text spells two reports.
/// Promise: texts are exact
pub fn two_reports_of_a_text()
    ensures { (a b : Report) → SpellsReport small_deck two_commits a → SpellsReport small_deck two_commits b → a ≡ b }
{
    one_report_law();
}

/// What is written of a report in the grammar has no fault.
/// Promise: texts are exact
pub fn written_report_with_a_fault()
    ensures { (report : Report) (row kind : ℕ) → HasWidths report → InGrammar small_deck (lines_in report) →
        HasReportFault small_deck (report_text report) row kind → ⊥ }
{
    read_back_law();
}
