//! Writes as most decks spell them, read by their places in a list.
//!
//! A plain write has the form `<item>=<base>+<amount>` or `<item>=<base>-<amount>`, where item and base have at most three
//! digits. What isn't plain is left to the readers of `leading_writes`, so None says nothing about the part. The last part of a
//! list may be too near to the end for the reader by place: it is then read from a copy with spaces after it.

ghost use Rattle.std.specs.Prelude.{◌≡◌, ◌==◌, ◌<◌, ◌≤◌, ◌+◌, length, IfSome, MatchOption, Some, false};
ghost use Rattle.air_base.specs.ReadParts.{PlainAt};
ghost use Rattle.item_catalog.specs.Writes.{spelled_value_write, spelled_write};
ghost use Rattle.item_catalog.specs.Private.WriteParts.{sign_of, write_said};

use crate::updates::leading_writes::WritePart;
use air_base::{plain_number, short_number};

/// The bytes from the beginning of a part in which the reader by place looks for a plain write.
pub const PLAIN_BYTES: usize = 12;

/// Whether the sign is a minus.
#[inline(always)]
fn is_minus(sign: u8) -> Option<bool>
    ensures { MatchOption result (((sign == 43) ≡ false) × ((sign == 45) ≡ false)) (λ minus. sign ≡ sign_of minus) }
{
    if sign != b'+' && sign != b'-' {
        return None;
    }
    Some(sign == b'-')
}

/// The write of an item, from the plain part's text after the `=`, and the place at which the part ends.
#[inline(always)]
fn plain_value(item: u64, text: &[u8], place: usize) -> Option<(WritePart, usize)>
    requires { place + 8 ≤ length text.now }
    ensures { IfSome result (λ f. PlainAt (spelled_value_write (Some item)) text.now place (write_said f.0, f.1)) }
{
    let (base, sign) = short_number(text, place)?;
    let minus = is_minus(text[sign])?;
    let (amount, end) = plain_number(text, sign + 1)?;
    let write = WritePart {
        item,
        base: Some(base),
        minus,
        amount,
    };
    Some((write, end))
}

/// The write of a plain part, and the place at which the part ends.
#[inline(always)]
pub fn plain_write(text: &[u8], place: usize) -> Option<(WritePart, usize)>
    requires { place + PLAIN_BYTES ≤ length text.now }
    ensures { IfSome result (λ f. PlainAt spelled_write text.now place (write_said f.0, f.1)) }
{
    let (item, equals) = short_number(text, place)?;
    if text[equals] != b'=' {
        return None;
    }
    plain_value(item, text, equals + 1)
}

/// The write of the plain part at the beginning of a short text, and the place at which the part ends.
#[inline(never)]
pub fn last_write(text: &[u8]) -> Option<(WritePart, usize)>
    requires { length text.now < PLAIN_BYTES }
    ensures { IfSome result (λ f. PlainAt spelled_write text.now 0 (write_said f.0, f.1)) }
{
    let mut spaced = [b' '; PLAIN_BYTES];
    spaced[..text.len()].copy_from_slice(text);
    plain_write(&spaced, 0)
}
