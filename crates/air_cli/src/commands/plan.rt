//! The command `plan`: the plan of a named deck.

ghost use Rattle.std.specs.Prelude.{◌≡◌, IfErr, IfOk, OnOk};
ghost use Rattle.air_model.specs.Outputs.{plan_output};
ghost use Rattle.chunk_program.specs.Plans.{AreShort};
ghost use Rattle.air_cli.specs.Private.BeforeDelivery.{IsMade, IsUnmade, ReadsInputs};
ghost use Rattle.air_cli.specs.Plan.{plan_meaning};
ghost use Rattle.air_cli.specs.RunnableDecks.{LengthCause};

mod rows;
mod texts;

use self::texts::plan_text;
use crate::files::decks::read_deck_file;
use crate::files::plans::plan_deck;
use crate::outputs::report_and_tape::ReportAndTape;
use air_devices::Shelf;
use air_report::Status;
use item_catalog::Deck;
use std::alloc::Global;

/// The text of the plan of a deck that was read.
#[tactic(auto, unfolding(crate::specs::RunnableDecks::LengthCause))]
fn text_of_plan(alloc: Global, deck: Deck) -> Result<Vec<u8>, Status>
    ensures text { IfOk result (λ text. text.items ≡ plan_output deck) }
    ensures short { OnOk result (AreShort deck) }
    ensures refused { IfErr result (LengthCause deck) }
{
    let planned = plan_deck(alloc, deck)?;
    let text = plan_text(alloc, &planned)?;
    Ok(text)
}

/// The text of the named deck's plan.
#[tactic(auto, using(crate::proofs::MakeLemmas::is_unmade, crate::proofs::MakeLemmas::is_unmade_calm, crate::proofs::CauseLemmas::deck_runs, crate::proofs::CauseLemmas::length_runs))]
pub(crate) fn plan<S: Shelf>(
    alloc: Global,
    shelf: &mut S,
    name: &str,
) -> Result<ReportAndTape, Status>
    ensures made { IfOk result (IsMade (plan_meaning name.now) (S.state shelf.old) (S.state shelf.new)) }
    ensures unmade { IfErr result (IsUnmade (plan_meaning name.now) (S.state shelf.old) (S.state shelf.new)) }
    ensures reads { ReadsInputs (plan_meaning name.now) (S.state shelf.old) (S.state shelf.new) }
{
    let deck = read_deck_file(alloc, shelf, name)?;
    let text = text_of_plan(alloc, deck)?;
    Ok(ReportAndTape {
        text,
        tape: None,
        differs: false,
    })
}
