//! Disks and their cut from the items in order.
//!
//! A `DiskSpec` is a disk of a deck, a `Disk` one with the items that it holds; contracts see both as the
//! definitions' records. `cut_items` gives each disk the next range of the items.

ghost use Rattle.std.specs.Prelude.{◌≡◌, ◌%◌, ◌<◌, IfOk, length, sum_by};
ghost use Rattle.air_model.specs.Disks.{cut};
ghost use Rattle.air_model.specs.Programs.{chunk_len, num_chunks};

use std::alloc::{AllocError, Global};
use std::marker::Model;

/// A disk of a deck: how many items it takes, and how often a cycle airs each.
#[derive(Drop)]
pub struct DiskSpec {
    pub size: u16,
    pub freq: u32,
}

impl Model for DiskSpec {
    ghost use Rattle.air_model.specs.Disks.{DiskSpec};

    ghost Value = { DiskSpec };

    ghost view = { λ s. record { size = s.size; freq = s.freq } };
}

/// A disk with its items, hottest first, and how often a cycle airs each.
#[derive(Drop)]
pub struct Disk {
    items: Vec<u16>,
    freq: u32,
}

impl Model for Disk {
    ghost use Rattle.air_model.specs.Disks.{Disk};

    ghost Value = { Disk };

    ghost view = { λ d. record { items = d.items.items; freq = d.freq } };
}

impl Disk {
    /// The disk's items.
    pub fn items(&self) -> &[u16]
        ensures { result.now ≡ self.now.items }
    {
        &self.items
    }

    /// How often a cycle airs each of them.
    pub fn freq(&self) -> u32
        ensures { result ≡ self.now.freq }
    {
        self.freq
    }

    /// The number of the disk's chunks in a program of `minors` minor cycles.
    pub fn chunks(&self, minors: u64) -> u64
        requires { 0 < self.now.freq }
        ensures { result ≡ num_chunks minors self.now }
    {
        minors / u64::from(self.freq)
    }

    /// The number of slots of each of its chunks.
    pub fn chunk_len(&self, minors: u64) -> u64
        requires aired { 0 < self.now.freq }
        requires some { 0 < num_chunks minors self.now }
        ensures { result ≡ chunk_len minors self.now }
    {
        (self.items().len() as u64).div_ceil(self.chunks(minors))
    }

    /// The number of the chunk that a minor cycle airs.
    pub fn aired_chunk(&self, minors: u64, minor: u64) -> u64
        requires aired { 0 < self.now.freq }
        requires some { 0 < num_chunks minors self.now }
        ensures { result ≡ minor % num_chunks minors self.now }
    {
        minor % self.chunks(minors)
    }
}

/// The disks that take consecutive ranges of the items, each of its size and with its frequency.
pub fn cut_items(alloc: Global, items: &[u16], specs: &[DiskSpec]) -> Result<Vec<Disk>, AllocError>
    requires { sum_by (λ s. s.size) specs.now ≡ length items.now }
    ensures { IfOk result (λ disks. disks.items ≡ cut items.now specs.now) }
{
    let mut disks = Vec::new(alloc);
    let mut rest = items;
    for spec in specs {
        let (taken, left) = rest.split_at(spec.size as usize);
        let items = taken.to_vec(alloc)?;
        let freq = spec.freq;
        disks.push(Disk { items, freq })?;
        rest = left;
    }
    Ok(disks)
}

/// The same disks once more.
pub fn copies(alloc: Global, disks: &[Disk]) -> Result<Vec<Disk>, AllocError>
    ensures { IfOk result (λ copies. copies.items ≡ disks.now) }
{
    let mut copies = Vec::new(alloc);
    for disk in disks {
        let items = disk.items.to_vec(alloc)?;
        let freq = disk.freq;
        copies.push(Disk { items, freq })?;
    }
    Ok(copies)
}
