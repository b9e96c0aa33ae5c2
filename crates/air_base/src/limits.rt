//! The limits of decks, programs and files, and the two settings whose value isn't 0 if a deck doesn't give them. Each is
//! written only here: clauses and definitions refer to it.

/// The most items of a deck.
pub const MOST_ITEMS: usize = 1_024;

/// The most items of a deck whose buckets have their entries in full, with four bytes each.
pub const MOST_FULL_ITEMS: usize = 256;

/// From this many cycles on an entry is too old for an age, which has one byte. Reads whose cycles are this far apart can't be
/// judged by ages.
pub const AGE_CAP: u32 = 255;

/// The newest version of buckets.
pub const NEWEST_VERSION: u64 = 2;

/// The most items of a group.
pub const MOST_GROUP: u64 = 1_024;

/// How many numbers there are for items: each has 16 bits.
pub const ITEM_NUMBERS: usize = 65_536;

/// The most values of a board.
pub const MOST_VALUES: usize = 1_024;

/// The greatest rate of an item.
pub const MOST_RATE: u64 = 1_000_000;

/// The most disks.
pub const MOST_DISKS: usize = 8;

/// The most items of a disk.
pub const MOST_SIZE: u64 = 1_024;

/// The most replans of a deck.
pub const MOST_REPLANS: usize = 16;

/// How often a cycle airs an item of a disk at most.
pub const MOST_FREQ: u64 = 64;

/// The most updaters: each has a number below this one.
pub const MOST_UPDATERS: usize = 16;

/// The most updates of a deck, all updaters' together.
pub const MOST_UPDATES: u32 = 100_000;

/// The most reads of an update.
pub const MOST_READS: usize = 16;

/// The most writes of an update.
pub const MOST_WRITES: usize = 16;

/// The most readers.
pub const MOST_READERS: usize = 64;

/// The most copies that a reader keeps.
pub const MOST_ROOM: u64 = 256;

/// The most cycles after which a kept copy is too old.
pub const MOST_AGE: u64 = 10_000;

/// How often a reader tries a query at most.
pub const MOST_TRIES: u64 = 16;

/// The most queries of a deck, all readers' together.
pub const MOST_QUERIES: u32 = 10_000;

/// The most items of a query.
pub const MOST_ASKED: usize = 16;

/// The most events of a script.
pub const MOST_EVENTS: usize = 200_000;

/// The most cycles that a script starts.
pub const MOST_STARTS: u32 = 10_000;

/// How much the frequencies of two disks that give none differ at most.
pub const MOST_DELTA: u64 = 9;

/// The most cycles of a run.
pub const MOST_CYCLES: u64 = 10_000;

/// The cycles of a run whose deck gives none.
pub const DEFAULT_CYCLES: u64 = 10;

/// The greatest share of buckets that are lost, heard again or delayed, in percent.
pub const MOST_SHARE: u64 = 100;

/// The most monitors.
pub const MOST_MONITORS: u64 = 16;

/// The most calls of `hear`.
pub const MOST_HEARS: u64 = 100_000_000;

/// The most calls of `hear` if the deck doesn't give it.
pub const DEFAULT_HEARS: u64 = 1_000_000;

/// The most slots of a program.
pub const MOST_SLOTS: u64 = 16_384;

/// The most bytes of a deck's text.
pub const MOST_DECK_BYTES: usize = 67_108_864;

/// The most bytes of a datagram, and so of a bucket that goes on the air.
pub const MOST_DATAGRAM_BYTES: usize = 65_507;

/// The most bytes of a tape.
pub const MOST_TAPE_BYTES: usize = 1_073_741_824;
