//! These pins fix what `air_report` reads of short texts of the small deck that spell a report. They fix the rows of its lines, and the updates of
//! its commits.

ghost use Rattle.std.specs.Prelude.{◌≡◌, [], ◌∷◌, IfOk};
ghost use Rattle.air_history.specs.declared.histories.Event.TheVariants.{Commit};
ghost use Rattle.report_pins.specs.SmallDeck.{adding_update, each_section, setting_update, small_deck, two_commits};

use air_report::{ReadReport, ReportError, read_report};
use item_catalog::Deck;
use std::alloc::Global;

/// Rows are counted from 1, through all sections. It also refuses that looks have the rows of glances.
/// Promise: the audit is its definition
pub fn rows_from_nought(alloc: Global, deck: &Deck, bytes: &[u8]) -> Result<ReadReport, ReportError>
    requires deck { deck.now ≡ small_deck }
    requires bytes { bytes.now ≡ each_section }
    ensures verdicts { IfOk result (λ read. read.verdict_rows ≡ 2 ∷ []) }
    ensures glances { IfOk result (λ read. read.glance_rows ≡ 3 ∷ []) }
    ensures looks { IfOk result (λ read. read.look_rows ≡ 4 ∷ []) }
{
    read_report(alloc, deck, bytes)
}

/// Each commit has the deck's update of its own number.
/// Promise: texts are exact
pub fn update_of_another_number(
    alloc: Global,
    deck: &Deck,
    bytes: &[u8],
) -> Result<ReadReport, ReportError>
    requires deck { deck.now ≡ small_deck }
    requires bytes { bytes.now ≡ two_commits }
    ensures { IfOk result (λ read. read.report.history ≡ Commit 0 0 (setting_update 0 11) ∷ Commit 0 1 (adding_update 1 0 2) ∷ []) }
{
    read_report(alloc, deck, bytes)
}
