//! A deck with its plans, or the status that refuses it.

ghost use Rattle.std.specs.Prelude.{◌≡◌, IfErr, IfOk, OnOk};
ghost use Rattle.chunk_program.specs.Plans.{AreShort};
ghost use Rattle.air_cli.specs.RunnableDecks.{LengthCause};

use air_report::Status;
use chunk_program::{PlanFault, Planned};
use item_catalog::Deck;
use std::alloc::Global;

/// A deck with its plans.
#[tactic(auto, unfolding(crate::specs::RunnableDecks::LengthCause))]
pub fn plan_deck(alloc: Global, deck: Deck) -> Result<Planned, Status>
    ensures planned { IfOk result (λ p. p ≡ deck) }
    ensures short { OnOk result (AreShort deck) }
    ensures refused { IfErr result (LengthCause deck) }
{
    match Planned::new(alloc, deck) {
        Ok(planned) => Ok(planned),
        Err(PlanFault::TooLong { slots }) => Err(Status::PlanTooLong { slots }),
        Err(PlanFault::NoMemory) => Err(Status::NoMemory),
    }
}
