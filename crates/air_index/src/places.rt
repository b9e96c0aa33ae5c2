//! Where the fields of the records of an indexed tape are, and how their numbers are read.

ghost use Rattle.std.specs.Prelude.{◌≡◌, ◌≤◌, ◌+◌, length};
ghost use Rattle.air_model.specs.Buckets.{number_at};

use byteorder::{BigEndian, ByteOrder};

/// The first byte of the number that follows the tag: 0 in an index record, how many records on the next index is in a data record.
pub(crate) const WAIT: usize = 1;

/// The first byte of the cycle of an index record.
pub(crate) const CYCLE: usize = 5;

/// The first byte of its minor cycle.
pub(crate) const MINOR: usize = 9;

/// The first byte of its number of entries.
pub(crate) const COUNT: usize = 11;

/// The bytes of an index record before its entries.
pub(crate) const INDEX_HEAD: usize = 13;

/// The bytes of an entry.
pub(crate) const INDEX_ENTRY: usize = 4;

/// The bytes of a data record before its bucket.
pub(crate) const DATA_HEAD: usize = 5;

/// The number in the two bytes from a place.
pub(crate) fn two_at(bytes: &[u8], at: usize) -> u16
    requires { at + 2 ≤ length bytes.now }
    ensures { result ≡ number_at at 2 bytes.now }
{
    BigEndian::read_u16(&bytes[at..])
}

/// The number in the four bytes from a place.
pub(crate) fn four_at(bytes: &[u8], at: usize) -> u32
    requires { at + 4 ≤ length bytes.now }
    ensures { result ≡ number_at at 4 bytes.now }
{
    BigEndian::read_u32(&bytes[at..])
}
