//! The deck of a named file with its plans, if the deck can be run, or the status that refuses it.

ghost use Rattle.std.specs.Prelude.{IfErr, IfOk};
ghost use Rattle.air_model.specs.Decks.{IsDeck};
ghost use Rattle.chunk_program.specs.Plans.{AreShort};
ghost use Rattle.item_catalog.specs.DeckLimits.{WithinLimits};
ghost use Rattle.air_cli.specs.NamedFiles.{ReadsInput};
ghost use Rattle.air_cli.specs.NamedDecks.{SpellsDeck};
ghost use Rattle.air_cli.specs.RunnableDecks.{UnrunnableCause};

use crate::files::decks::read_deck_file;
use crate::files::plans::plan_deck;
use air_devices::Shelf;
use air_report::Status;
use chunk_program::Planned;
use std::alloc::Global;

/// The deck of a named file with its plans, if the deck can be run.
#[tactic(auto, using(crate::proofs::CauseLemmas::deck_runs, crate::proofs::CauseLemmas::length_runs))]
pub fn read_runnable_deck<S: Shelf>(
    alloc: Global,
    shelf: &mut S,
    name: &str,
) -> Result<Planned, Status>
    ensures deck { IfOk result (SpellsDeck name.now (S.state shelf.old)) }
    ensures made { IfOk result (λ d. IsDeck d × WithinLimits d) }
    ensures runnable { IfOk result AreShort }
    ensures refused { IfErr result (UnrunnableCause name.now (S.state shelf.old) (S.state shelf.new)) }
    ensures reads { ReadsInput name.now result (S.state shelf.old) (S.state shelf.new) }
{
    let deck = read_deck_file(alloc, shelf, name)?;
    let planned = plan_deck(alloc, deck)?;
    Ok(planned)
}
