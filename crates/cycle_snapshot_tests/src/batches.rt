//! Batches as rows of a table, and a publisher that publishes a given number that are alike.
ghost use Rattle.std.specs.Prelude.{◌≡◌, ◌+◌, ◌≤◌, length, IfOk};
ghost use Rattle.cycle_snapshot.specs.Batches.{IsBatch};
ghost use Rattle.cycle_snapshot_tests.specs.Workers.{StaysPublisher};

use air_base::NoMemory;
use air_history::{Event, Update, Write};
use cycle_snapshot::Publisher;
use std::alloc::Global;
use std::sync::Wait;

/// A write: the item, the read item whose value is the base, if any, and the amount that is put or added.
pub type WriteRow = (u16, Option<u16>, u64);

/// A commit: its updater, the updater's number for it, the items that it reads, and what it writes.
pub type Row<'a> = (u32, u32, &'a [u16], &'a [WriteRow]);

/// The update of a row. A fault of the row counts as out of memory.
fn update_of(alloc: Global, reads: &[u16], puts: &[WriteRow]) -> Result<Update, NoMemory> {
    let mut writes = Vec::new(alloc);
    for (item, base, amount) in puts {
        writes.push(Write {
            item: *item,
            base: *base,
            minus: false,
            amount: *amount,
        })?;
    }
    match Update::new(alloc, reads, &writes) {
        Ok(update) => Ok(update),
        Err(_) => Err(NoMemory),
    }
}

/// The commits of the rows, and a start. A row that doesn't fit this number of items counts as out of memory.
pub fn batch_of(alloc: Global, items: u16, rows: &[Row<'_>]) -> Result<Vec<Event>, NoMemory>
    ensures { IfOk result (λ batch. IsBatch items batch.items) }
{
    let mut batch = Vec::new(alloc);
    for (by, seq, reads, puts) in rows {
        let commit = Event::Commit {
            by: *by,
            seq: *seq,
            update: update_of(alloc, reads, puts)?,
        };
        if commit.is_start() || !commit.fits(items) {
            return Err(NoMemory);
        }
        batch.push(commit)?;
    }
    batch.push(Event::Start)?;
    Ok(batch)
}

/// Publishes this number of batches. Each adds 1 to item 0, and then writes its value to item 1.
pub fn publish_all<R: Wait>(
    wait: &R,
    alloc: Global,
    publisher: &mut Publisher,
    items: u16,
    batches: u32,
) -> Result<(), NoMemory>
    requires items { length publisher.old.values ≡ items }
    requires room { length publisher.old.batches + batches ≤ publisher.old.most }
    ensures same { StaysPublisher publisher.old publisher.new }
{
    for k in 0..batches {
        let batch = batch_of(
            alloc,
            items,
            &[
                (0, k, &[0], &[(0, Some(0), 1)]),
                (1, k, &[0], &[(1, Some(0), 0)]),
            ],
        )?;
        publisher.publish(wait, batch)?;
    }
    Ok(())
}
