//! The leading number of a text, and what follows it.
//!
//! A list is read from its beginning, one part after another, without taking memory. Each call gives the value of the first
//! part and the text after it, which is empty or begins with a space. All numbers of decks and lists are read by these calls.

ghost use Rattle.std.specs.Prelude.{◌≡◌, ◌≤◌, ◌∷◌, get_or, length, option_map, MatchOption, Some, None, false};
ghost use Rattle.std.specs.Char.{is_ascii_digit};
ghost use Rattle.air_base.specs.Numbers.{number_of};
ghost use Rattle.air_base.specs.LeadingParts.{DigitsRead, LeadingIs, digits_of, after_digits, begins, ends_part};

use crate::digits::{all_digits, short_number};
use crate::plain_numbers::last_short;

/// Whether a text is empty or begins with a space.
#[inline(always)]
pub fn ends_part(text: &[u8]) -> bool
    ensures { result ≡ ends_part text.now }
{
    match text.first() {
        None => true,
        Some(byte) => *byte == b' ',
    }
}

/// The text after this byte, if the text begins with it.
pub fn after_byte(text: &[u8], byte: u8) -> Option<&[u8]>
    ensures { MatchOption result (begins byte text.now ≡ false) (λ rest. text.now ≡ byte ∷ rest.now) }
{
    match text.split_first() {
        Some((first, rest)) if *first == byte => Some(rest),
        _ => None,
    }
}

/// The number of the leading digits, whose count and value are known, and what follows them.
#[inline(always)]
fn with_number(text: &[u8], len: usize, number: u64) -> Option<(u64, &[u8])>
    requires within { len ≤ length text.now }
    requires read { DigitsRead text.now len number }
    requires stop { is_ascii_digit (get_or text.now len 0) ≡ false }
    ensures { MatchOption result (number_of (digits_of text.now) ≡ None) (λ f. (number_of (digits_of text.now) ≡ Some f.0) × (f.1.now ≡ after_digits text.now)) }
{
    if len == 0 {
        return None;
    }
    if len > 1 && text[0] == b'0' {
        return None;
    }
    Some((number, &text[len..]))
}

/// The number that the leading digits spell, and what follows them.
#[inline(always)]
pub fn leading_number(text: &[u8]) -> Option<(u64, &[u8])>
    ensures { MatchOption result (number_of (digits_of text.now) ≡ None) (λ f. (number_of (digits_of text.now) ≡ Some f.0) × (f.1.now ≡ after_digits text.now)) }
{
    if text.len() >= 4
        && let Some((number, few)) = short_number(text, 0)
        && !text[few].is_ascii_digit()
    {
        return Some((number, &text[few..]));
    }
    let (number, len) = all_digits(text, 0, 0)?;
    with_number(text, len, number)
}

/// The number that the first part spells, and what follows it.
#[tactic(auto, using(crate::proofs::LeadingNumberLemmas::part_ends, crate::proofs::LeadingNumberLemmas::after_ends, crate::proofs::LeadingNumberLemmas::part_goes_on, crate::proofs::LeadingNumberLemmas::no_digits))]
#[inline(always)]
pub fn read_leading_number(text: &[u8]) -> Option<(u64, &[u8])>
    ensures { LeadingIs number_of text.now (option_map (λ f. (f.0, f.1.now)) result) }
{
    if text.len() < 4
        && let Some((number, end)) = last_short(text)
    {
        return Some((number, &text[end..]));
    }
    let Some((number, rest)) = leading_number(text) else {
        return None;
    };
    if !ends_part(rest) {
        return None;
    }
    Some((number, rest))
}
