//! The tape of a deck's script: how long it is, before anything is aired.

ghost use Rattle.std.specs.Prelude.{◌≡◌, length};
ghost use Rattle.air_model.specs.Outputs.{script_tape};

use crate::airing::tape_bytes;
use crate::forms::own_form;
use chunk_program::Planned;

/// The number of bytes of the tape of a deck's script.
pub fn tape_len(planned: &Planned) -> u64
    ensures { result ≡ length (script_tape planned.now) }
{
    let deck = planned.deck();
    let form = own_form(planned);
    tape_bytes(planned.plans(), deck.items(), deck.script_starts(), form)
}
