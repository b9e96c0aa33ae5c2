//! The replans of a deck, and the frequencies of disks.

ghost use Rattle.std.specs.Prelude.{◌≡◌, ◌<◌, ◌≤◌, ◌+◌, ◌*◌, length, slice_get, IfSome};
ghost use Rattle.air_base.specs.declared.limits.TheConstants.{MOST_CYCLES, MOST_DELTA, MOST_DISKS, MOST_FREQ, MOST_SIZE};
ghost use Rattle.item_catalog.specs.Decks.{plain_replan, with_freqs};
ghost use Rattle.item_catalog.specs.ReplanView.{IsReplan};

use crate::parts::{DiskPart, ReplanPart};
use std::marker::Model;

/// The frequency of a disk that has `-`, from the number of disks after it.
fn graded_freq(after: u32, delta: u32) -> u32
    requires few { after < MOST_DISKS }
    requires small { delta ≤ MOST_DELTA }
    ensures { result ≡ after * delta + 1 }
{
    after * delta + 1
}

/// How often a cycle airs each item of one of these disks.
pub(crate) fn freq_at(disks: &[DiskPart], delta: u32, d: u32) -> u32
    requires within { d < length disks.now }
    requires few { length disks.now ≤ MOST_DISKS }
    requires small { delta ≤ MOST_DELTA }
    ensures { IfSome (slice_get (with_freqs delta disks.now) d) (λ disk. result ≡ disk.freq) }
{
    match disks[d as usize].freq {
        Some(freq) => freq,
        None => graded_freq(disks.len() as u32 - 1 - d, delta),
    }
}

/// A replan of a deck: from its cycle on the program of its disks is in force. It lends the disks from the deck.
#[derive(Drop)]
pub struct Replan<'a> {
    cycle: u32,
    disks: &'a [DiskPart],
    delta: u32,
}

impl<'a> Model for Replan<'a> {
    ghost use Rattle.air_model.specs.Decks.{Replan};
    ghost use Rattle.item_catalog.specs.ReplanView.{ReplanKept, replan_seen};

    ghost Value = { Replan };

    ghost view = { replan_seen };

    ghost invariant = { ReplanKept };
}

impl<'a> Replan<'a> {
    /// The replan that a record gives, with the deck's delta.
    pub(crate) fn of_part(part: &'a ReplanPart, delta: u32) -> Replan<'a>
        requires kept { IsReplan (plain_replan delta part.now) }
        requires small { delta ≤ MOST_DELTA }
        ensures { result ≡ plain_replan delta part.now }
    {
        Replan {
            cycle: part.cycle(),
            disks: part.disks(),
            delta,
        }
    }

    /// The first cycle in which the replan's program is in force.
    pub fn cycle(&self) -> u32
        ensures told { result ≡ self.now.cycle }
        ensures from_two { 2 ≤ result }
        ensures few { result ≤ MOST_CYCLES }
    {
        self.cycle
    }

    /// The number of the replan's disks.
    pub fn disks(&self) -> u32
        ensures told { result ≡ length self.now.disks }
        ensures few { result ≤ MOST_DISKS }
    {
        self.disks.len() as u32
    }

    /// The number of items of a disk.
    pub fn size(&self, d: u32) -> u16
        requires { d < length self.now.disks }
        ensures told { IfSome (slice_get self.now.disks d) (λ disk. result ≡ disk.size) }
        ensures some { 1 ≤ result }
        ensures few { result ≤ MOST_SIZE }
    {
        self.disks[d as usize].size
    }

    /// How often a cycle airs each item of a disk.
    pub fn freq(&self, d: u32) -> u32
        requires { d < length self.now.disks }
        ensures told { IfSome (slice_get self.now.disks d) (λ disk. result ≡ disk.freq) }
        ensures some { 1 ≤ result }
        ensures few { result ≤ MOST_FREQ }
    {
        freq_at(self.disks, self.delta, d)
    }
}
