//! The publisher: it adds batches to a list, and each look sees a beginning of the list.
ghost use Rattle.std.specs.Prelude.{◌≡◌, ◌<◌, ◌∷◌, [], length, drop, Some, MatchResult, IsOk};
ghost use Rattle.left_right.specs.Sides.{view};
ghost use Rattle.cycle_snapshot.specs.declared.board_sides.News.{News};
ghost use Rattle.cycle_snapshot.specs.Batches.{IsBatch};
ghost use Rattle.cycle_snapshot.specs.SideRule.{IsPublished, IsNextNews};
ghost use Rattle.cycle_snapshot.specs.Private.BoardRuns.{after_news};
ghost use Rattle.cycle_snapshot.specs.SnapshotStates.{with_batch, published_list};

use crate::batches::Batch;
use crate::board_sides::News;
use crate::rule::{SideWriter, SightStep};
use crate::told::{ListHead, Told};
use air_base::NoMemory;
use air_history::Event;
use core::mem::replace_with;
use std::alloc::AllocError;
use std::marker::Model;
use std::sync::Wait;

/// One step of the two sides, with the one news that is pending.
fn publish_step<R: Wait>(writer: SideWriter, wait: &R) -> (SideWriter, Result<(), AllocError>)
    requires seen { view writer.desk.place ≡ Some writer.desk.shown.value }
    requires news { (n : News) × (drop writer.behind writer.log.items ≡ n ∷ []) × IsNextNews writer.desk.shown.value n }
    requires shown { IsPublished writer.desk.shown.value }
    ensures done { IsOk result.1 }
    ensures seen { view result.0.desk.place ≡ Some result.0.desk.shown.value }
    ensures none { drop result.0.behind result.0.log.items ≡ [] }
    ensures value { (n : News) → drop writer.behind writer.log.items ≡ n ∷ [] → result.0.desk.shown.value ≡ after_news writer.desk.shown.value n }
    ensures shown { IsPublished result.0.desk.shown.value }
{
    writer.publish_as::<SightStep, R>(wait)
}

/// A publisher of batches. It can't be dropped: `close` ends it.
pub struct Publisher {
    pub(crate) writer: SideWriter,
    pub(crate) head: ListHead,
    pub(crate) list: Told,
}

impl Model for Publisher {
    ghost use Rattle.cycle_snapshot.specs.SnapshotStates.{PublisherState};
    ghost use Rattle.cycle_snapshot.specs.PublisherFields.{publisher_in, IsPublisher};

    ghost Value = { PublisherState };

    ghost view = { publisher_in };

    ghost invariant = { IsPublisher };
}

impl Publisher {
    /// Adds the batch to the published list, in one step; `Event::is_start` and `Event::fits` test whether the events are a
    /// batch. It waits for monitors that are within a look. After `NoMemory` the batch is dropped and the published list is as
    /// before. Later calls may answer `NoMemory` too: once `left_right` has refused one call, it refuses each.
    pub fn publish<R: Wait>(&mut self, wait: &R, batch: Vec<Event>) -> Result<(), NoMemory>
        requires batch { IsBatch (length self.old.values) batch.items }
        requires room { length self.old.batches < self.old.most }
        ensures { MatchResult result (λ _. self.new ≡ with_batch self.old batch.items) (λ _. self.new ≡ self.old) }
    {
        let batch = Batch::of(batch);
        let mut list = self.list.again();
        if !list.add(&self.head, &batch) {
            return Err(NoMemory);
        }
        let items = self.writer.published().board.n();
        let news = News {
            batch,
            items,
            list: list.again(),
        };
        match self.writer.append(news) {
            Ok(()) => {}
            Err(_) => {
                return Err(NoMemory);
            }
        }
        match replace_with(&mut self.writer, wait, publish_step::<R>) {
            Ok(()) => {
                self.list = list;
                Ok(())
            }
            Err(_) => unreachable!(),
        }
    }

    /// A told note of the published list; any number of them may be made.
    pub fn tell(&self) -> Told
        ensures { result ≡ published_list self.now }
    {
        self.list.again()
    }

    /// Ends the publisher. It waits for monitors that are within a look, and takes no memory.
    pub fn close<R: Wait>(self, wait: &R) {
        let Publisher {
            writer,
            head: _head,
            list: _list,
        } = self;
        writer.take(wait);
    }
}
