//! Where the numbers of a bucket's head are, and how many bytes the head, an entry, an age and the length of a record have.

/// The version's byte.
pub const VERSION: usize = 2;

/// The kind's byte.
pub const KIND: usize = 3;

/// The first byte of the edition.
pub const EDITION: usize = 4;

/// The first byte of the number of items.
pub const COUNT: usize = 6;

/// The first byte of the cycle.
pub const CYCLE: usize = 8;

/// The first byte of the slot.
pub const SLOT: usize = 12;

/// The first byte of the item.
pub const ITEM: usize = 14;

/// The first byte of the value.
pub const VALUE: usize = 16;

/// The bytes of the head. The entries begin after it.
pub const HEAD_BYTES: usize = 24;

/// The bytes of an entry in full. No entry has more.
pub const ENTRY_BYTES: usize = 4;

/// The bytes of an entry that is given by its age.
pub const AGE_BYTES: usize = 1;

/// The bytes of the length that is before a bucket on a tape.
pub const LENGTH_BYTES: usize = 4;
