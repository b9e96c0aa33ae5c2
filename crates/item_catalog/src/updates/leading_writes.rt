//! The leading write of a list, and what follows it.
//!
//! What is left at a list's end is mostly a plain part, and is then read as one.

ghost use Rattle.std.specs.Prelude.{◌≡◌, ◌∷◌, option_map, MatchOption, Some, None, false};
ghost use Rattle.air_base.specs.Numbers.{number_of};
ghost use Rattle.air_base.specs.LeadingParts.{LeadingIs, begins};
ghost use Rattle.item_catalog.specs.Writes.{spelled_value_write, spelled_write, write_on_base};
ghost use Rattle.item_catalog.specs.Private.WriteParts.{sign_of, write_said};

use crate::updates::plain_writes::{PLAIN_BYTES, last_write};
use air_base::{after_byte, ends_part, leading_number, read_leading_number};

/// A write as its text gives it.
#[derive(Clone, Copy, Debug, PartialEq, Eq)]
pub struct WritePart {
    pub item: u64,
    pub base: Option<u64>,
    pub minus: bool,
    pub amount: u64,
}

/// The write of an item and a base, from the text after the sign.
#[inline(always)]
fn leading_changed_write(
    item: u64,
    base: u64,
    minus: bool,
    text: &[u8],
) -> Option<(WritePart, &[u8])>
    ensures { LeadingIs (λ part. write_on_base minus (Some item) (Some base) (number_of part)) text.now (option_map (λ f. (write_said f.0, f.1.now)) result) }
{
    match read_leading_number(text) {
        Some((amount, rest)) => Some((
            WritePart {
                item,
                base: Some(base),
                minus,
                amount,
            },
            rest,
        )),
        None => None,
    }
}

/// Whether the leading sign is a minus, and the text after it.
fn read_sign(text: &[u8]) -> Option<(bool, &[u8])>
    ensures { MatchOption result ((begins 43 text.now ≡ false) × (begins 45 text.now ≡ false)) (λ s. text.now ≡ sign_of s.0 ∷ s.1.now) }
{
    match text.split_first() {
        Some((first, rest)) if *first == b'+' || *first == b'-' => Some((*first == b'-', rest)),
        _ => None,
    }
}

/// The write of an item, from the text after the `=`.
#[tactic(auto, using(crate::proofs::LeadingWriteLemmas::value_number_leading, crate::proofs::LeadingWriteLemmas::value_no_number, crate::proofs::LeadingWriteLemmas::value_other_leading, crate::proofs::LeadingWriteLemmas::after_digits_alone))]
#[inline(always)]
fn leading_value_write(item: u64, text: &[u8]) -> Option<(WritePart, &[u8])>
    ensures { LeadingIs (spelled_value_write (Some item)) text.now (option_map (λ f. (write_said f.0, f.1.now)) result) }
{
    let Some((amount, rest)) = leading_number(text) else {
        return None;
    };
    if let Some((minus, more)) = read_sign(rest) {
        return leading_changed_write(item, amount, minus, more);
    }
    if !ends_part(rest) {
        return None;
    }
    let write = WritePart {
        item,
        base: None,
        minus: false,
        amount,
    };
    Some((write, rest))
}

/// The write that the first part spells.
#[tactic(auto, using(crate::proofs::LeadingWriteLemmas::write_value_leading, crate::proofs::LeadingWriteLemmas::write_no_number, crate::proofs::LeadingWriteLemmas::write_other_leading, crate::proofs::LeadingWriteLemmas::after_digits_byte))]
#[inline(always)]
pub fn leading_write(text: &[u8]) -> Option<(WritePart, &[u8])>
    ensures { LeadingIs spelled_write text.now (option_map (λ f. (write_said f.0, f.1.now)) result) }
{
    if text.len() < PLAIN_BYTES
        && let Some((write, end)) = last_write(text)
    {
        return Some((write, &text[end..]));
    }
    let Some((item, rest)) = leading_number(text) else {
        return None;
    };
    match after_byte(rest, b'=') {
        Some(value) => leading_value_write(item, value),
        None => None,
    }
}
