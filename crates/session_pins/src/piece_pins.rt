//! Pins of the pieces of `scripts`: the room of a piece, and how many cycles it has.
#![tactic(auto)]

ghost use Rattle.std.specs.Prelude.{◌≡◌, ◌≤◌, None, [], ◌∷◌, IfOk};
ghost use Rattle.session_pins.specs.SmallDecks.{frequent, scripted};

use air_base::NoMemory;
use chunk_program::Planned;
use scripts::{ScriptAiring, piece_cycles};
use std::alloc::Global;

/// A mast has room for the cycles of one piece only: here for one of the two that the script starts.
/// Promise: script, drill and plan print their texts
pub fn mast_for_the_whole_tape(alloc: Global, planned: &Planned) -> Result<ScriptAiring, NoMemory>
    requires { planned.now ≡ scripted (None ∷ None ∷ []) }
    ensures { IfOk result (λ a. a.mast.tape.room ≡ 72) }
{
    let aired = ScriptAiring::new(alloc, planned, 1)?;
    Ok(aired)
}

/// If cycles have 2,048 bytes, a piece has at most 2,048 of them, regardless of how many the script starts.
/// Promise: script, drill and plan print their texts
pub fn piece_of_a_cycle_too_many(planned: &Planned) -> u32
    requires version { planned.now.settings.version ≡ 1 }
    requires items { planned.now.items ≡ frequent.items }
    requires disks { planned.now.disks ≡ frequent.disks }
    ensures { result ≤ 2048 }
{
    piece_cycles(planned)
}
