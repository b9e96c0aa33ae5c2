//! Laws of the lines of reports. A text spells a report if and only if its records spell the report's lines, and it has the fault that the records
//! give. The text written for a report spells that report. A text determines the history that it begins with. The bodies are empty.

ghost use Rattle.std.specs.Prelude.{◌≡◌, ◌↔◌, ℕ, List, [], map};
ghost use Rattle.air_history.specs.declared.histories.Event.{Event};
ghost use Rattle.air_model.specs.Decks.{Deck, IsLegal};
ghost use Rattle.air_model.specs.Reports.{Report, report_text};
ghost use Rattle.item_catalog.specs.DeckLimits.{WithinLimits};
ghost use Rattle.air_report.specs.LineGrammar.{HasLineFault, SpellsLines};
ghost use Rattle.air_report.specs.LineRules.{EachNext, InGrammar};
ghost use Rattle.air_report.specs.ReportGrammar.{HasReportFault, SpellsReport};
ghost use Rattle.air_report.specs.ReportLines.{ReportLines, event_in, its_line, lines_in, report_in};
ghost use Rattle.air_report.specs.ReportRules.{HasWidths, IsReport};

/// The text of a report of a deck spells it. The text of a report whose numbers fit their types and whose lines are in the grammar spells these
/// lines, regardless of its commits' updates.
pub fn round_trip_law()
    ensures report { (deck : Deck) (report : Report) → IsReport deck report → SpellsReport deck (report_text report) report }
    ensures lines { (deck : Deck) (report : Report) → HasWidths report → InGrammar deck (lines_in report) → SpellsLines deck (report_text report) (lines_in report) }
{}

/// The lines that the records of a text spell stand for the report that the text spells, and conversely.
pub fn spelled_lines_law()
    ensures report { (deck : Deck) (text : List ℕ) (lines : ReportLines) → SpellsLines deck text lines → SpellsReport deck text (report_in deck lines) }
    ensures lines { (deck : Deck) (text : List ℕ) (report : Report) → SpellsReport deck text report → SpellsLines deck text (lines_in report) }
{}

/// The fault of a text is the one found by reading its records one by one.
pub fn told_fault_law()
    ensures { (deck : Deck) (text : List ℕ) (row_number kind_number : ℕ) → HasReportFault deck text row_number kind_number ↔ HasLineFault deck text row_number kind_number }
{}

/// The lines that a text spells are in the grammar.
pub fn kept_law()
    ensures { (deck : Deck) (text : List ℕ) (lines : ReportLines) → SpellsLines deck text lines → InGrammar deck lines }
{}

/// The history of the lines that a text spells is legal for the deck.
pub fn legal_report_law()
    ensures { (deck : Deck) (text : List ℕ) (lines : ReportLines) → SpellsLines deck text lines → IsLegal deck (report_in deck lines).history }
{}

/// A report's text determines its history: for a deck of the grammar, two reports with legal histories and the same text have the same history,
/// regardless of what else they say.
pub fn one_history_law()
    ensures { (deck : Deck) (r s : Report) → WithinLimits deck → IsLegal deck r.history → IsLegal deck s.history → report_text r ≡ report_text s → r.history ≡ s.history }
{}

/// A history is legal for a deck if and only if each of its lines comes next and the lines stand for the history itself: each names the deck's
/// update.
pub fn legal_lines_law()
    ensures { (deck : Deck) (H : List Event) → IsLegal deck H ↔ (EachNext deck [] (map its_line H) × (map (event_in deck) (map its_line H) ≡ H)) }
{}
