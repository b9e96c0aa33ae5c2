//! A monitor: it looks at what is published, and keeps the frame of its last look.
ghost use Rattle.std.specs.Prelude.{◌≡◌, ◌<◌, [], length, get_or, Some, MatchResult, MatchOption};
ghost use mathlib.Core.List.{IsPrefix};
ghost use Rattle.left_right.specs.Sides.{view};
ghost use Rattle.cycle_snapshot.specs.declared.board_sides.BoardSide.{BoardSide};
ghost use Rattle.cycle_snapshot.specs.SideRule.{Follows, HasCopied};
ghost use Rattle.cycle_snapshot.specs.SnapshotStates.{HasLooked};

use crate::board_sides::BoardSide;
use crate::frames::KeptFrame;
use crate::rule::{SideReader, SightStep};
use crate::told::Told;
use air_base::NoMemory;
use std::marker::Model;

/// Copies the shown frame into the kept one, and gives its list, if that continues what was told.
fn take_frame(reader: SideReader, kept: &mut KeptFrame, told: &Told) -> (SideReader, Option<Told>)
    requires seen { (x : BoardSide) × (view reader.place ≡ Some x) × (told.now.publisher ≡ x.list.publisher) × (length kept.old.values ≡ length x.values) }
    ensures looked { (x : BoardSide) → view reader.place ≡ Some x →
        (y : BoardSide) × (view result.0.place ≡ Some y) × Follows x y × MatchOption result.1 (kept.new ≡ kept.old) (HasCopied y told.now kept.new) }
{
    let reading = match reader.enter_as::<SightStep>() {
        Ok(reading) => reading,
        Err(reader) => {
            return (reader, None);
        }
    };
    let shown: &BoardSide = reading.get();
    if shown.list.len() < told.len() {
        return (reading.leave(), None);
    }
    told.shows_prefix(&shown.list);
    kept.copy(&shown.board);
    let list = shown.list.again();
    (reading.leave(), Some(list))
}

/// A monitor, which looks at one publisher's list.
#[derive(Drop)]
pub struct Monitor {
    pub(crate) reader: Option<SideReader>,
    pub(crate) seen: Told,
    pub(crate) told: Told,
    pub(crate) kept: KeptFrame,
    pub(crate) looks: u64,
}

impl Model for Monitor {
    ghost use Rattle.cycle_snapshot.specs.SnapshotStates.{MonitorState};
    ghost use Rattle.cycle_snapshot.specs.MonitorFields.{monitor_in, IsMonitor};

    ghost Value = { MonitorState };

    ghost view = { monitor_in };

    ghost invariant = { IsMonitor };
}

impl Monitor {
    /// Copies the frame of a beginning of the published list into the one that the monitor keeps. It never waits and takes no
    /// memory. It answers `NoMemory` if `left_right` refuses the look, or shows less than was told; the monitor is then as
    /// before. In a run, a look never shows less.
    pub fn look(&mut self) -> Result<(), NoMemory>
        ensures { MatchResult result (λ _. HasLooked self.old self.new) (λ _. self.new ≡ self.old) }
    {
        let Some(reader) = self.reader.take() else {
            unreachable!()
        };
        let (reader, list) = take_frame(reader, &mut self.kept, &self.told);
        self.reader = Some(reader);
        match list {
            Some(list) => {
                self.seen = list;
                self.looks = self.looks.saturating_add(1);
                Ok(())
            }
            None => Err(NoMemory),
        }
    }

    /// Tells the monitor this list: its next look continues it.
    pub fn learn(&mut self, told: Told)
        requires own { told.publisher ≡ self.old.publisher }
        ensures told { IsPrefix self.old.told self.new.told × IsPrefix told.batches self.new.told }
        ensures same { self.new ≡ record self.old { told = self.new.told } }
    {
        if self.told.len() <= told.len() {
            self.told.shows_prefix(&told);
            self.told = told;
        } else {
            told.shows_prefix(&self.told);
        }
    }

    /// The cycle of the kept frame.
    pub fn cycle(&self) -> u32
        ensures { result ≡ self.now.kept.cycle }
    {
        self.kept.cycle()
    }

    /// The value of an item in the kept frame.
    pub fn value(&self, item: u16) -> u64
        requires { item < length self.now.values }
        ensures { result ≡ get_or self.now.kept.values item 0 }
    {
        self.kept.value(item)
    }

    /// The control column of an item in the kept frame.
    pub fn column(&self, item: u16) -> &[u32]
        requires { item < length self.now.values }
        ensures { result.now ≡ get_or self.now.kept.columns item [] }
    {
        self.kept.column(item)
    }

    /// The sum of the kept frame's values modulo 2^64.
    pub fn total(&self) -> u64
        ensures { result ≡ self.now.kept.total }
    {
        self.kept.total()
    }

    /// The number of looks.
    pub fn looks(&self) -> u64
        ensures { result ≡ self.now.looks }
    {
        self.looks
    }
}
