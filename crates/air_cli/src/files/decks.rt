//! The deck that a named file spells, or the status that refuses the file.

ghost use Rattle.std.specs.Prelude.{IfErr, IfOk};
ghost use Rattle.air_model.specs.Decks.{IsDeck};
ghost use Rattle.item_catalog.specs.DeckLimits.{WithinLimits};
ghost use Rattle.air_cli.specs.NamedFiles.{ReadsInput};
ghost use Rattle.air_cli.specs.NamedDecks.{DeckCause, SpellsDeck};

use crate::files::read_bytes;
use air_base::limits::MOST_DECK_BYTES;
use air_devices::Shelf;
use air_report::Status;
use item_catalog::{Deck, DeckError, read_deck};
use std::alloc::Global;

/// The deck of a named file. It is well made, and keeps the limits of the grammar.
#[tactic(auto, using(crate::proofs::CauseLemmas::unread_deck), unfolding(crate::specs::NamedDecks::DeckCause, crate::specs::NamedFiles::UnreadCause))]
pub fn read_deck_file<S: Shelf>(alloc: Global, shelf: &mut S, name: &str) -> Result<Deck, Status>
    ensures deck { IfOk result (SpellsDeck name.now (S.state shelf.old)) }
    ensures made { IfOk result (λ d. IsDeck d × WithinLimits d) }
    ensures refused { IfErr result (DeckCause name.now (S.state shelf.old) (S.state shelf.new)) }
    ensures reads { ReadsInput name.now result (S.state shelf.old) (S.state shelf.new) }
{
    let bytes = read_bytes(alloc, shelf, name, MOST_DECK_BYTES)?;
    match read_deck(alloc, &bytes) {
        Ok(deck) => {
            deck.shows_well_made();
            Ok(deck)
        }
        Err(DeckError::Fault(fault)) => Err(Status::Deck {
            row: fault.row,
            kind: fault.kind,
        }),
        Err(DeckError::NoMemory) => Err(Status::NoMemory),
    }
}
