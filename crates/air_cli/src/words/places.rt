//! The numbers of an item and of a place on a tape, as words spell them.

ghost use Rattle.std.specs.Prelude.{◌≡◌};
ghost use Rattle.air_base.specs.Numbers.{number_of};
ghost use Rattle.air_cli.specs.Words.{asked_item, asked_place};

use air_base::read_u64;

/// The last number by which an item can be sought; the first is 0.
pub const LAST_ITEM: u64 = 65_534;

/// The last record from which an item can be sought; the first is 0.
pub const LAST_PLACE: u64 = 4_294_967_295;

/// The item that a word spells, if it is a number of one.
pub(crate) fn asked_item(word: &str) -> Option<u16>
    ensures { result ≡ asked_item (number_of word.now) }
{
    match read_u64(word.as_bytes()) {
        Some(item) if item <= LAST_ITEM => Some(item as u16),
        _ => None,
    }
}

/// The place that a word spells, if it is a number of one.
pub(crate) fn asked_place(word: &str) -> Option<u32>
    ensures { result ≡ asked_place (number_of word.now) }
{
    match read_u64(word.as_bytes()) {
        Some(place) if place <= LAST_PLACE => Some(place as u32),
        _ => None,
    }
}
