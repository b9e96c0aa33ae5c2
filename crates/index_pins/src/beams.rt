//! These pins of `beam_tape` and `beam_piece` say what indexes count, and how far the next index is.

ghost use Rattle.std.specs.Prelude.{◌≡◌, ◌++◌, [], ◌∷◌, OnErr, OnOk};
ghost use Rattle.air_model.specs.Tapes.{tape_of, tape_read};
ghost use Rattle.index_pins.specs.ShortPlans.{disks_beamed, editions_beamed, minor_beamed, one_minor_cycle, two_disks, two_editions, two_items, two_minor_cycles, whole};

use air_base::NoMemory;
use air_index::{beam_piece, beam_tape};
use chunk_program::Plans;

/// An index counts from itself: the record after it is one on.
/// Promise: an indexed tape is written as defined
pub fn counted_from_the_record_after_the_index(
    plans: &Plans,
    tape: &[u8],
    out: &mut Vec<u8>,
) -> Result<(), NoMemory>
    requires plans { plans.now ≡ two_items }
    requires tape { tape_read tape.now ≡ whole one_minor_cycle }
    ensures { OnOk result (out.new.items ≡ out.old.items ++ tape_of (minor_beamed 1 0 (1 ∷ 2 ∷ []))) }
{
    beam_tape(plans, 2, 1, tape, out)
}

/// Each minor cycle has an index of its own.
/// Promise: an indexed tape is written as defined
pub fn one_index_for_every_minor_cycle(
    plans: &Plans,
    tape: &[u8],
    out: &mut Vec<u8>,
) -> Result<(), NoMemory>
    requires plans { plans.now ≡ two_disks }
    requires tape { tape_read tape.now ≡ whole two_minor_cycles }
    ensures { OnOk result (out.new.items ≡ out.old.items ++ tape_of (disks_beamed 1)) }
{
    beam_tape(plans, 2, 1, tape, out)
}

/// A data record leads to the index of the next minor cycle, also in a piece that begins with a later cycle.
/// Promise: an indexed tape is written as defined
pub fn wait_for_the_index_of_the_next_cycle(
    plans: &Plans,
    tape: &[u8],
    out: &mut Vec<u8>,
) -> Result<(), NoMemory>
    requires plans { plans.now ≡ two_disks }
    requires tape { tape_read tape.now ≡ whole two_minor_cycles }
    ensures { OnOk result (out.new.items ≡ out.old.items ++ tape_of (disks_beamed 4)) }
{
    beam_piece(plans, 2, 3, 1, tape, out)
}

/// An item that comes no more in a cycle is sought in the program of the next one.
/// Promise: an indexed tape is written as defined
pub fn sought_by_the_program_of_its_own_cycle(
    plans: &Plans,
    tape: &[u8],
    out: &mut Vec<u8>,
) -> Result<(), NoMemory>
    requires plans { plans.now ≡ two_editions }
    requires tape { tape_read tape.now ≡ whole two_minor_cycles }
    ensures { OnOk result (out.new.items ≡ out.old.items ++ tape_of editions_beamed) }
{
    beam_tape(plans, 3, 1, tape, out)
}

/// Where there is no memory for all of the tape, nothing of it is left.
/// Promise: an indexed tape is written as defined
pub fn tape_left_half(plans: &Plans, tape: &[u8], out: &mut Vec<u8>) -> Result<(), NoMemory>
    requires plans { plans.now ≡ two_items }
    requires tape { tape_read tape.now ≡ whole one_minor_cycle }
    ensures { OnErr result (out.new.items ≡ out.old.items) }
{
    beam_tape(plans, 2, 1, tape, out)
}
