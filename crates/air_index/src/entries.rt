//! What an index counts: how many records on each item's next data record is.
//!
//! An index is ahead of each minor cycle, so the place of a slot follows from its number. An entry takes a step, and no search.

ghost use Rattle.std.specs.Prelude.{◌≡◌, ◌<◌, ◌≤◌, ◌+◌, ◌*◌, ◌/◌, length};
ghost use Rattle.air_base.specs.declared.limits.TheConstants.{MOST_SLOTS};
ghost use Rattle.air_model.specs.Disks.{all_items};
ghost use Rattle.air_model.specs.Programs.{minor_len, num_minors, program as slots_of};
ghost use Rattle.air_index.specs.Private.Beaming.{entry_between};

use chunk_program::Program;

/// The place of a slot in its cycle, where each minor cycle begins with an index.
fn place_of(program: &Program, slot: u32) -> u32
    requires { slot < length (slots_of program.now.disks) }
    ensures place { result ≡ slot + slot / minor_len (num_minors program.now.disks) program.now.disks + 1 }
    ensures few { result ≤ 2 * MOST_SLOTS }
{
    let _slots = program.slots();
    slot + slot / program.minor_len() + 1
}

/// The entry of an item in the index of a minor cycle of this program, where the next cycle has the next program.
pub(crate) fn entry(program: &Program, next: &Program, minor: u32, item: u16) -> u32
    requires minor { minor < num_minors program.now.disks }
    requires item { item < length (all_items program.now.disks) }
    requires next { item < length (all_items next.now.disks) }
    ensures { result ≡ entry_between program.now.disks next.now.disks minor item }
{
    let slots = program.slots();
    let from = minor * program.minor_len();
    let wait = program.next_wake(from, item);
    if from + wait < slots {
        return wait + wait / program.minor_len() + 1;
    }
    let left = (program.minors() - minor) * (program.minor_len() + 1);
    let _slots = next.slots();
    left + place_of(next, next.next_wake(0, item))
}
