//! The last look, after all was told.
ghost use Rattle.std.specs.Prelude.{◌≡◌, length, IfOk};
ghost use Rattle.air_history.specs.Boards.{frame_of};
ghost use Rattle.air_history.specs.Histories.{events_in};

use air_base::NoMemory;
use cycle_snapshot::{Monitor, Publisher};

/// A look after the monitor was told the list of a publisher that has all its batches. It gives exactly that list, for anything
/// that the monitor saw before.
pub fn last_look(publisher: &Publisher, monitor: &mut Monitor) -> Result<(), NoMemory>
    requires own { monitor.old.publisher ≡ publisher.now.id }
    requires full { length publisher.now.batches ≡ monitor.old.most }
    ensures seen { IfOk result (λ _. monitor.new.seen ≡ publisher.now.batches) }
    ensures kept { IfOk result (λ _. monitor.new.kept ≡ frame_of monitor.old.values (events_in publisher.now.batches)) }
{
    monitor.learn(publisher.tell());
    monitor.look()
}

/// Last looks at two publishers, each by its own monitor.
pub fn last_looks(
    one: &Publisher,
    its: &mut Monitor,
    other: &Publisher,
    others: &mut Monitor,
) -> Result<(), NoMemory>
    requires own { (its.old.publisher ≡ one.now.id) × (others.old.publisher ≡ other.now.id) }
    requires full { (length one.now.batches ≡ its.old.most) × (length other.now.batches ≡ others.old.most) }
    ensures seen { IfOk result (λ _. (its.new.seen ≡ one.now.batches) × (others.new.seen ≡ other.now.batches)) }
{
    last_look(one, its)?;
    last_look(other, others)
}
