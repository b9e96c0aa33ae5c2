//! A cycle of a deck, heard by all its readers from its source, with the program in force in it.

ghost use Rattle.std.specs.Prelude.{◌≡◌, ◌+◌, ◌*◌, ◌++◌, ◌∷◌, [], List, IfOk, length};
ghost use Rattle.air_history.specs.declared.histories.Event.{Event};
ghost use Rattle.air_history.specs.declared.histories.Event.TheVariants.{Start};
ghost use Rattle.air_model.specs.Buckets.{entry_len};
ghost use Rattle.air_sender.specs.AiredBytes.{aired_bytes};
ghost use Rattle.bucket_codec.specs.declared.offsets.TheConstants.{HEAD_BYTES};
ghost use Rattle.listeners.specs.declared.hearers.Hearers.TheVariants.{Apart, Together};
ghost use Rattle.listeners.specs.AiredCycles.{AirsAfter};
ghost use Rattle.listeners.specs.Hearings.{AreTogether, CanHearAfter};
ghost use Rattle.listeners.specs.PlaceListeners.{AreGivenPlaces};

use crate::cycles::all_hear_cycle;
use crate::listener::Listener;
use crate::place_hearers::PlaceHearers;
use air_base::NoMemory;
use air_sender::{Source, below_law, groups_below_law, own_cycle_law, own_form};
use chunk_program::Planned;
use std::alloc::Global;

/// Lets all readers hear the cycle of a source together. If memory runs out, they are dropped.
pub(crate) fn hear_together<S: Source>(
    alloc: Global,
    planned: &Planned,
    source: &S,
    listeners: Vec<Listener>,
    buf: &mut [u8],
) -> Result<Vec<Listener>, NoMemory>
    requires source { (G : List Event) × AirsAfter planned.now G (S.board source.now) × CanHearAfter planned.now G (Together listeners) }
    requires allowed { S.airs planned.now.settings.policy }
    requires room { length buf.old ≡ HEAD_BYTES + entry_len planned.now.settings.version * length planned.now.items }
    ensures heard { (G : List Event) → AirsAfter planned.now G (S.board source.now) → CanHearAfter planned.now G (Together listeners) →
        IfOk result (λ ls. AreTogether planned.now (aired_bytes planned.now (G ++ Start ∷ [])) ls.items) }
    ensures room { length buf.new ≡ length buf.old }
{
    own_cycle_law();
    below_law();
    groups_below_law();
    planned.shows_planned();
    let program = planned.plans().in_force(source.its_cycle());
    let listeners = all_hear_cycle(alloc, listeners, program, source, own_form(planned), buf)?;
    Ok(listeners)
}

/// Lets all readers hear the cycle of a source, each through its own ether. If memory runs out, they are dropped.
pub(crate) fn hear_apart<S: Source>(
    alloc: Global,
    planned: &Planned,
    source: &S,
    hearers: PlaceHearers,
    buf: &mut [u8],
) -> Result<PlaceHearers, NoMemory>
    requires source { (G : List Event) × AirsAfter planned.now G (S.board source.now) × CanHearAfter planned.now G (Apart hearers) }
    requires allowed { S.airs planned.now.settings.policy }
    requires room { length buf.old ≡ HEAD_BYTES + entry_len planned.now.settings.version * length planned.now.items }
    ensures heard { (G : List Event) → AirsAfter planned.now G (S.board source.now) → CanHearAfter planned.now G (Apart hearers) →
        IfOk result (AreGivenPlaces planned.now (aired_bytes planned.now (G ++ Start ∷ []))) }
    ensures room { length buf.new ≡ length buf.old }
{
    own_cycle_law();
    below_law();
    groups_below_law();
    planned.shows_planned();
    let program = planned.plans().in_force(source.its_cycle());
    let hearers = hearers.hear_cycle(alloc, program, source, own_form(planned), buf)?;
    Ok(hearers)
}
