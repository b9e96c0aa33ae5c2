//! Laws of reports as texts: every text spells a report of a deck or has a fault, and only one of each. The bodies are empty.

ghost use Rattle.std.specs.Prelude.{◌≡◌, ◌⊎◌, ℕ, List};
ghost use Rattle.air_model.specs.Decks.{Deck};
ghost use Rattle.air_model.specs.Reports.{Report};
ghost use Rattle.air_report.specs.ReportGrammar.{HasReportFault, SpellsReport};

/// For every deck a text spells a report or has a fault.
pub fn report_or_fault_law()
    ensures { (deck : Deck) (text : List ℕ) →
        ((report : Report) × SpellsReport deck text report) ⊎ ((row_number : ℕ) × (kind_number : ℕ) × HasReportFault deck text row_number kind_number) }
{}

/// No text both spells a report and has a fault.
pub fn not_both_reports_law()
    ensures { (deck : Deck) (text : List ℕ) (report : Report) (row_number kind_number : ℕ) →
        SpellsReport deck text report → HasReportFault deck text row_number kind_number → ⊥ }
{}

/// No text spells two different reports.
pub fn one_report_law()
    ensures { (deck : Deck) (text : List ℕ) (a b : Report) → SpellsReport deck text a → SpellsReport deck text b → a ≡ b }
{}

/// No text has two different faults.
pub fn one_report_fault_law()
    ensures { (deck : Deck) (text : List ℕ) (row1 kind1 row2 kind2 : ℕ) →
        HasReportFault deck text row1 kind1 → HasReportFault deck text row2 kind2 → (row1 ≡ row2) × (kind1 ≡ kind2) }
{}
