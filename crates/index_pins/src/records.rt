//! These pins of `indexed` say which bytes are no record of an indexed tape.

ghost use Rattle.std.specs.Prelude.{◌≡◌, ◌++◌, [], ◌∷◌, None};
ghost use Rattle.air_index.specs.Indexes.{index_bytes};
ghost use Rattle.air_index.specs.Records.{data_bytes};
ghost use Rattle.index_pins.specs.ShortTapes.{first_item};

use air_index::{Indexed, indexed};

/// An entry counts from 1: the record itself is no next one.
/// Promise: a search is its definition
pub fn entry_0_let_through<'a>(bytes: &'a [u8]) -> Option<Indexed<'a>>
    requires { bytes.now ≡ index_bytes 1 0 (1 ∷ 0 ∷ []) }
    ensures { result ≡ None }
{
    indexed(bytes)
}

/// Nothing follows the entries.
/// Promise: a search is its definition
pub fn bytes_behind_the_entries_let_through<'a>(bytes: &'a [u8]) -> Option<Indexed<'a>>
    requires { bytes.now ≡ index_bytes 1 0 (1 ∷ 2 ∷ []) ++ 0 ∷ [] }
    ensures { result ≡ None }
{
    indexed(bytes)
}

/// The number in a data record counts from 1 too.
/// Promise: a search is its definition
pub fn number_0_let_through<'a>(bytes: &'a [u8]) -> Option<Indexed<'a>>
    requires { bytes.now ≡ data_bytes 0 (first_item 1) }
    ensures { result ≡ None }
{
    indexed(bytes)
}

/// A bucket alone, as on a plain tape, is no record of an indexed one.
/// Promise: a search is its definition
pub fn bucket_alone_let_through<'a>(bytes: &'a [u8]) -> Option<Indexed<'a>>
    requires { bytes.now ≡ first_item 1 }
    ensures { result ≡ None }
{
    indexed(bytes)
}
