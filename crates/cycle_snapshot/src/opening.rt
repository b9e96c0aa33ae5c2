//! How a publisher and its monitors are made.
ghost use Rattle.std.specs.Prelude.{◌≡◌, ◌<◌, ◌≤◌, ◌^◌, ◌-◌, [], length, vec_capacity, All, IfOk};
ghost use Rattle.air_base.specs.declared.limits.TheConstants.{MOST_MONITORS, MOST_VALUES};
ghost use Rattle.air_history.specs.Boards.{board_of};
ghost use Rattle.cycle_snapshot.specs.SnapshotStates.{MonitorState, new_publisher, new_monitor};

use crate::board_sides::BoardSide;
use crate::frames::KeptFrame;
use crate::monitors::Monitor;
use crate::publishers::Publisher;
use crate::sides::{open_reader, open_writer};
use crate::told::Told;
use air_base::{NoMemory, Values};
use control_matrix::Board;
use std::alloc::Global;
use std::sync::Wait;

/// A side of the empty list.
fn first_side(alloc: Global, values: &[u64], most: u32, list: &Told) -> Result<BoardSide, NoMemory>
    requires values { (1 ≤ length values.now) × (length values.now ≤ MOST_VALUES) }
    ensures { IfOk result (λ x. x ≡ record { board = board_of values.now []; values = values.now; most = most; list = list.now }) }
{
    let board = Board::new(alloc, values)?;
    let values = Values::from_vec(values.to_vec(alloc)?);
    Ok(BoardSide {
        board,
        values,
        most,
        list: list.again(),
    })
}

impl Publisher {
    /// A publisher of the empty list, with room for this many monitors.
    fn open<R: Wait>(
        wait: &R,
        alloc: Global,
        values: &[u64],
        monitors: u32,
        most: u32,
    ) -> Result<Publisher, NoMemory>
        requires values { (1 ≤ length values.now) × (length values.now ≤ MOST_VALUES) }
        requires monitors { monitors ≤ MOST_MONITORS }
        requires most { most < 2 ^ 32 - 1 }
        ensures { IfOk result (λ p. p ≡ new_publisher p.id values.now most) }
    {
        let (list, head) = Told::open();
        let first = first_side(alloc, values, most, &list)?;
        let second = first_side(alloc, values, most, &list)?;
        let writer = open_writer(wait, alloc, first, second, monitors as usize + 1)?;
        Ok(Publisher { writer, head, list })
    }

    /// One more monitor.
    fn monitor(&mut self, alloc: Global) -> Result<Monitor, NoMemory>
        requires none { self.old.batches ≡ [] }
        ensures same { self.new ≡ self.old }
        ensures first { IfOk result (λ m. m ≡ new_monitor self.old) }
    {
        let kept = KeptFrame::of_board(alloc, &self.writer.published().board)?;
        let reader = open_reader(&mut self.writer)?;
        Ok(Monitor {
            reader: Some(reader),
            seen: self.list.again(),
            told: self.list.again(),
            kept,
            looks: 0,
        })
    }

    /// Puts this many monitors into the empty vector, which has room for them.
    fn add_monitors(
        &mut self,
        alloc: Global,
        monitors: u32,
        all: &mut Vec<Monitor>,
    ) -> Result<(), NoMemory>
        requires none { self.old.batches ≡ [] }
        requires room { (all.old.items ≡ []) × (monitors ≤ vec_capacity all.old) }
        ensures same { self.new ≡ self.old }
        ensures count { IfOk result (λ _. length all.new.items ≡ monitors) }
        ensures each { All (λ (m : MonitorState). m ≡ new_monitor self.old) all.new.items }
    {
        for _ in 0..monitors {
            all.push_reserved(self.monitor(alloc)?);
        }
        Ok(())
    }
}

/// A publisher of the empty list, which will have at most `most` batches, and its monitors. Every frame starts from these
/// values. The publisher is ended by `close`. The first publishing, of the values, has no reader.
pub fn publisher<R: Wait>(
    wait: &R,
    alloc: Global,
    values: &[u64],
    monitors: u32,
    most: u32,
) -> Result<(Publisher, Vec<Monitor>), NoMemory>
    requires values { (1 ≤ length values.now) × (length values.now ≤ MOST_VALUES) }
    requires monitors { monitors ≤ MOST_MONITORS }
    requires most { most < 2 ^ 32 - 1 }
    ensures publisher { IfOk result (λ made. made.0 ≡ new_publisher made.0.id values.now most) }
    ensures count { IfOk result (λ made. length made.1.items ≡ monitors) }
    ensures each { IfOk result (λ made. All (λ (m : MonitorState). m ≡ new_monitor made.0) made.1.items) }
{
    let mut all = Vec::with_capacity(alloc, monitors as usize)?;
    let mut made = Publisher::open(wait, alloc, values, monitors, most)?;
    match made.add_monitors(alloc, monitors, &mut all) {
        Ok(()) => Ok((made, all)),
        Err(_) => {
            made.close(wait);
            Err(NoMemory)
        }
    }
}
