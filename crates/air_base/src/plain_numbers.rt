//! Plain numbers of a list, read by their places in it.
//!
//! A plain number is followed by a space or the list's end. `plain_short` takes at most three digits; `plain_number` takes
//! longer numbers too. Parts that aren't plain are left to the calls of `leading_numbers`, so None says nothing about the part.
//! The last part of a list may be too near to the end for the calls by place: it is then read from an array, with spaces after it.

ghost use Rattle.std.specs.Prelude.{◌<◌, ◌≤◌, ◌+◌, length, IfSome};
ghost use Rattle.air_base.specs.Numbers.{number_of};
ghost use Rattle.air_base.specs.ReadParts.{PlainAt};

use crate::digits::{all_digits, short_number};
use crate::leading_numbers::ends_part;

/// The number of a plain part, if it has at most three digits, and the place at which the part ends.
#[inline(always)]
pub fn plain_short(text: &[u8], place: usize) -> Option<(u64, usize)>
    requires { place + 4 ≤ length text.now }
    ensures { IfSome result (PlainAt number_of text.now place) }
{
    let (number, few) = short_number(text, place)?;
    if text[few] != b' ' {
        return None;
    }
    Some((number, few))
}

/// The number of a plain part, and the place at which the part ends.
#[inline(always)]
pub fn plain_number(text: &[u8], place: usize) -> Option<(u64, usize)>
    requires { place + 4 ≤ length text.now }
    ensures { IfSome result (PlainAt number_of text.now place) }
{
    let (short, few) = short_number(text, place)?;
    if text[few] == b' ' {
        return Some((short, few));
    }
    if few < place + 3 {
        return None;
    }
    let (number, len) = all_digits(&text[place..], 3, short)?;
    let end = place + len;
    if !ends_part(&text[end..]) {
        return None;
    }
    Some((number, end))
}

/// The number of the plain part at the beginning of a short text, and the place at which the part ends.
#[inline(always)]
pub fn last_short(text: &[u8]) -> Option<(u64, usize)>
    requires { length text.now < 4 }
    ensures { IfSome result (PlainAt number_of text.now 0) }
{
    let mut spaced = [b' '; 4];
    spaced[..text.len()].copy_from_slice(text);
    plain_short(&spaced, 0)
}
