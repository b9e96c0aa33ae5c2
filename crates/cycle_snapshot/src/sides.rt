//! The writer of the two sides, and its readers: how they are made.
ghost use Rattle.std.specs.Prelude.{◌≡◌, ◌<◌, ◌^◌, [], drop, Some, IfOk};
ghost use Rattle.left_right.specs.Sides.{view};
ghost use Rattle.cycle_snapshot.specs.SideRule.{IsPublished};

use crate::board_sides::BoardSide;
use crate::rule::{SideReader, SideWriter, SightStep, TellRule};
use air_base::NoMemory;
use std::alloc::Global;
use std::sync::Wait;

/// A writer that saw the side that it shows.
pub fn open_writer<R: Wait>(
    wait: &R,
    alloc: Global,
    first: BoardSide,
    second: BoardSide,
    readers: usize,
) -> Result<SideWriter, NoMemory>
    requires readers { (0 < readers) × (readers < 2 ^ 32) }
    requires alike { first ≡ second }
    requires shown { IsPublished first }
    ensures { IfOk result (λ w. (view w.desk.place ≡ Some w.desk.shown.value) × (w.desk.shown.value ≡ first) × (drop w.behind w.log.items ≡ [])) }
{
    let writer = SideWriter::new(alloc, first, second, readers)?;
    let (writer, done) = writer.publish_as::<SightStep, R>(wait);
    match done {
        Ok(()) => Ok(writer),
        Err(_) => unreachable!(),
    }
}

/// A reader that saw what the writer saw.
pub fn open_reader(writer: &mut SideWriter) -> Result<SideReader, NoMemory>
    ensures writer { (view writer.new.desk.place ≡ view writer.old.desk.place) × (writer.new.desk.shown ≡ writer.old.desk.shown) × (drop writer.new.behind writer.new.log.items ≡ drop writer.old.behind writer.old.log.items) }
    ensures reader { IfOk result (λ r. view r.place ≡ view writer.old.desk.place) }
{
    let mut reader = writer.factory().reader()?;
    let told = writer.tell::<TellRule>();
    reader.learn::<TellRule>(told);
    Ok(reader)
}
