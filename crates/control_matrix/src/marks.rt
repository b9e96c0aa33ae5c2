//! The marks of a commit: a list with 1 at each item that it writes, and 0 at the others.
//!
//! One list of marks is used to stamp both the written column and the write vector with the commit's cycle. It is cleared at each commit.

ghost use Rattle.std.specs.Prelude.{◌≡◌, cond, length, EachIndex, slice_index};
ghost use Rattle.air_history.specs.Histories.{writes, ItemsFit};

use air_history::Event;

/// Marks the items that the event writes, and no other.
pub fn mark(marks: &mut [u32], event: &Event)
    requires { ItemsFit (length marks.old) event.now }
    ensures { EachIndex marks.new (λ k. slice_index marks.new k ≡ cond (writes event.now k) 1 0) }
{
    let written = event.writes();
    marks.fill(0);
    for write in written {
        marks[write.item as usize] = 1;
    }
}
