//! The broadcast program of an edition of a deck: which item each slot of a cycle carries.
//!
//! Contracts see a program as its edition and its disks, and each answer as the definitions' word for it. A slot's item is read from
//! the laid out slots, and all that is asked of an item from its home: each in one step.

ghost use Rattle.std.specs.Prelude.{◌≡◌, ◌<◌, ◌≤◌, ◌*◌, All, length, slice_get, IfOk, IfErr, IfSome};
ghost use Rattle.air_base.specs.declared.limits.TheConstants.{MOST_ITEMS, MOST_RATE, MOST_SLOTS};
ghost use Rattle.air_model.specs.Disks.{all_items};
ghost use Rattle.air_model.specs.Decks.{count_editions, disks_in};
ghost use Rattle.air_model.specs.Programs.{chunk_len, minor_len, num_chunks, num_minors, program};
ghost use Rattle.air_model.specs.ProgramLaws.{IsAirable};
ghost use Rattle.air_model.specs.Airings.{ComesEvery, IsNextWake, airings, disk_number, gap_of, next_wake, pix_number, slot_item};
ghost use Rattle.chunk_program.specs.Editions.{edition_disks};
ghost use Rattle.chunk_program.specs.Homes.{IsHome};
ghost use Rattle.chunk_program.specs.CutConditions.{AreDeckDisks};
ghost use Rattle.chunk_program.specs.Plans.{IsPlanAnswer};

use crate::cuts::Cut;
use crate::disks::{Disk, copies};
use crate::homes::{Home, homes};
use crate::layout::{len_before, num_minors, slots_of};
use air_base::NoMemory;
use air_base::limits::MOST_SLOTS;
use item_catalog::Deck;
use std::alloc::{AllocError, AllocFailed, Global};
use std::error::Error;
use std::fmt;
use std::marker::Model;

/// Why there is no program.
#[derive(Clone, Copy, Debug, PartialEq, Eq)]
pub enum PlanFault {
    /// The program would have this number of slots, which is more than `MOST_SLOTS`.
    TooLong { slots: u64 },
    /// There was no memory.
    NoMemory,
}

impl From<AllocError> for PlanFault {
    ghost use Rattle.std.specs.Prelude.{◌≡◌};
    ghost use Rattle.chunk_program.specs.declared.programs.PlanFault.TheVariants.{NoMemory};

    ghost from_gives = { λ _ fault. fault ≡ NoMemory };

    fn from(_error: AllocError) -> Self {
        PlanFault::NoMemory
    }
}

impl From<NoMemory> for PlanFault {
    ghost use Rattle.std.specs.Prelude.{◌≡◌};
    ghost use Rattle.chunk_program.specs.declared.programs.PlanFault.TheVariants as fault;

    ghost from_gives = { λ _ e. e ≡ fault.NoMemory };

    fn from(_error: NoMemory) -> Self {
        PlanFault::NoMemory
    }
}

/// What could not be stored, as by `Vec::push`, is dropped.
impl<T: Drop> From<AllocFailed<T>> for PlanFault {
    ghost use Rattle.std.specs.Prelude.{◌≡◌};
    ghost use Rattle.chunk_program.specs.declared.programs.PlanFault.TheVariants.{NoMemory};

    ghost from_gives = { λ _ e. e ≡ NoMemory };

    fn from(_error: AllocFailed<T>) -> Self {
        PlanFault::NoMemory
    }
}

impl fmt::Display for PlanFault {
    fn fmt<W: fmt::Write>(&self, f: &mut fmt::Formatter<W>) -> fmt::Result {
        match self {
            PlanFault::TooLong { slots } => write!(f, "a program of {slots} slots is too long"),
            PlanFault::NoMemory => f.write_str("out of memory"),
        }
    }
}

impl Error for PlanFault {}

/// The broadcast program of disks, seen as these disks and their edition.
#[derive(Drop)]
pub struct Program {
    edition: u16,
    disks: Vec<Disk>,
    minors: u32,
    minor_len: u32,
    slots: Vec<Option<u16>>,
    homes: Vec<Home>,
}

impl Model for Program {
    ghost use Rattle.chunk_program.specs.Editions.{EditionDisks};

    ghost Value = { EditionDisks };

    ghost use Rattle.chunk_program.specs.ProgramFields.{IsLaidOut};

    ghost view = { λ p. record { edition = p.edition; disks = p.disks.items } };

    ghost invariant = { IsLaidOut };
}

impl Program {
    /// The program of an edition of a deck. Its slots are counted before one is laid out, so no deck makes it slow.
    pub fn plan(alloc: Global, deck: &Deck, cut: &Cut, edition: u32) -> Result<Program, PlanFault>
        requires edition { edition < count_editions deck.now }
        requires cut { cut.now ≡ disks_in deck.now edition }
        ensures planned { IfOk result (λ p. p ≡ edition_disks deck.now edition) }
        ensures short { IfOk result (λ p. length (program p.disks) ≤ MOST_SLOTS) }
        ensures too_long { IfErr result (IsPlanAnswer (disks_in deck.now edition)) }
    {
        deck.shows_well_made();
        Program::of_cut(alloc, cut, edition as u16)
    }

    /// The program of a cut's disks, in this edition.
    pub(crate) fn of_cut(alloc: Global, cut: &Cut, edition: u16) -> Result<Program, PlanFault>
        requires { AreDeckDisks cut.now }
        ensures edition { IfOk result (λ p. p.edition ≡ edition) }
        ensures planned { IfOk result (λ p. p.disks ≡ cut.now) }
        ensures short { IfOk result (λ p. length (program p.disks) ≤ MOST_SLOTS) }
        ensures too_long { IfErr result (IsPlanAnswer cut.now) }
    {
        let disks = cut.disks();
        let minors = num_minors(disks);
        let minor_len = len_before(disks, minors, disks.len());
        let slots = minors * minor_len;
        if slots > MOST_SLOTS {
            return Err(PlanFault::TooLong { slots });
        }
        let slots = slots_of(alloc, disks, minors)?;
        let homes = homes(alloc, cut, minors, minor_len)?;
        let disks = copies(alloc, disks)?;
        Ok(Program {
            edition,
            disks,
            minors: minors as u32,
            minor_len: minor_len as u32,
            slots,
            homes,
        })
    }

    /// The edition.
    pub fn edition(&self) -> u16
        ensures { result ≡ self.now.edition }
    {
        self.edition
    }

    /// The disks of a program can be aired, they hold items numbered from 0, at most `MOST_ITEMS` and at least one, and its slots carry no
    /// others.
    pub fn shows_well_made(&self)
        ensures airable { IsAirable self.now.disks }
        ensures some { 1 ≤ length (all_items self.now.disks) }
        ensures few { length (all_items self.now.disks) ≤ MOST_ITEMS }
        ensures within { All (λ i. i < length (all_items self.now.disks)) (all_items self.now.disks) }
        ensures slots { All (λ o. IfSome o (λ i. i < length (all_items self.now.disks))) (program self.now.disks) }
    {
        let _slots = &self.slots;
    }

    /// The home of an item.
    fn home(&self, item: u16) -> Home
        requires { item < length (all_items self.now.disks) }
        ensures limits { AreDeckDisks self.now.disks }
        ensures home { IsHome self.now.disks item result }
        ensures few { result.gap ≤ MOST_SLOTS }
        ensures first { result.first < result.gap }
    {
        self.homes[item as usize]
    }

    /// The number of slots of a cycle.
    pub fn slots(&self) -> u32
        ensures counted { result ≡ length (program self.now.disks) }
        ensures some { 1 ≤ result }
        ensures few { result ≤ MOST_SLOTS }
    {
        self.slots.len() as u32
    }

    /// The number of minor cycles.
    pub fn minors(&self) -> u32
        ensures { result ≡ num_minors self.now.disks }
    {
        self.minors
    }

    /// The number of slots of a minor cycle.
    pub fn minor_len(&self) -> u32
        ensures { result ≡ minor_len (num_minors self.now.disks) self.now.disks }
    {
        self.minor_len
    }

    /// The number of chunks of a disk.
    pub fn chunks(&self, d: u32) -> u32
        requires { d < length self.now.disks }
        ensures { IfSome (slice_get self.now.disks d) (λ disk. result ≡ num_chunks (num_minors self.now.disks) disk) }
    {
        self.disks[d as usize].chunks(u64::from(self.minors)) as u32
    }

    /// The number of slots of a chunk of a disk.
    pub fn chunk_len(&self, d: u32) -> u32
        requires { d < length self.now.disks }
        ensures { IfSome (slice_get self.now.disks d) (λ disk. result ≡ chunk_len (num_minors self.now.disks) disk) }
    {
        self.disks[d as usize].chunk_len(u64::from(self.minors)) as u32
    }

    /// The item of a slot; nothing if it is idle.
    pub fn slot_item(&self, slot: u32) -> Option<u16>
        requires { slot < length (program self.now.disks) }
        ensures carried { result ≡ slot_item (program self.now.disks) slot }
        ensures within { IfSome result (λ i. i < length (all_items self.now.disks)) }
    {
        self.slots[slot as usize]
    }

    /// The number of the disk that holds an item.
    pub fn disk_of(&self, item: u16) -> u32
        requires { item < length (all_items self.now.disks) }
        ensures { result ≡ disk_number self.now.disks item }
    {
        self.home(item).disk
    }

    /// How often a cycle airs an item: exactly as often as its disk's frequency says.
    pub fn times(&self, item: u16) -> u32
        requires { item < length (all_items self.now.disks) }
        ensures counted { result ≡ airings (program self.now.disks) item }
        ensures frequency { IfSome (slice_get self.now.disks (disk_number self.now.disks item)) (λ disk. result ≡ disk.freq) }
    {
        self.home(item).times
    }

    /// The number of slots from each airing of an item to the next, around the cycle.
    pub fn gap(&self, item: u16) -> u32
        requires { item < length (all_items self.now.disks) }
        ensures gap { result ≡ gap_of self.now.disks item }
        ensures even { ComesEvery (program self.now.disks) item result }
        ensures all { airings (program self.now.disks) item * result ≡ length (program self.now.disks) }
    {
        self.home(item).gap
    }

    /// The number of slots from a slot to the next airing of an item, around the cycle; 0 where the slot carries it.
    pub fn next_wake(&self, slot: u32, item: u16) -> u32
        requires slot { slot < length (program self.now.disks) }
        requires item { item < length (all_items self.now.disks) }
        ensures wait { result ≡ next_wake (program self.now.disks) slot item }
        ensures least { IsNextWake (program self.now.disks) slot item result }
    {
        let home = self.home(item);
        (home.first + (home.gap - slot % home.gap)) % home.gap
    }

    /// The item's PIX number at a rate: the rate times the number of chunks of the item's disk.
    pub fn pix(&self, item: u16, rate: u32) -> u64
        requires item { item < length (all_items self.now.disks) }
        requires rate { rate ≤ MOST_RATE }
        ensures { result ≡ pix_number self.now.disks item rate }
    {
        u64::from(rate) * u64::from(self.home(item).chunks)
    }
}
