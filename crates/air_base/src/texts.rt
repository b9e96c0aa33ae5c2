//! Numbers as texts: read from decimal digits, and written in their one spelling.
//!
//! A number has no sign and no leading zero except for `0` itself, and is at most 18446744073709551615.
//! Decks, reports and command lines are read and printed by these calls.

ghost use Rattle.std.specs.Prelude.{◌≡◌, ◌<◌, ◌^◌, ◌++◌, ℕ, List, Some, OnOk, OnErr};
ghost use Rattle.air_base.specs.Numbers.{number_of, number_text};

use crate::leading_numbers::leading_number;
use crate::memory::NoMemory;

/// The number that the text spells; None if it spells none.
pub fn read_u64(text: &[u8]) -> Option<u64>
    ensures { result ≡ number_of text.now }
{
    let Some((number, rest)) = leading_number(text) else {
        return None;
    };
    if !rest.is_empty() {
        return None;
    }
    Some(number)
}

/// Appends the number's text.
pub fn write_u64(n: u64, out: &mut Vec<u8>) -> Result<(), NoMemory>
    ensures written { OnOk result (out.new.items ≡ out.old.items ++ number_text n) }
    ensures kept { OnErr result (out.new.items ≡ out.old.items) }
{
    let mut buffer = itoa::Buffer::new();
    out.extend_from_slice(buffer.format(n).as_bytes())?;
    Ok(())
}

/// The text of a number of 64 bits spells that number.
pub fn text_spells_law()
    ensures { (n : ℕ) → n < 2 ^ 64 → number_of (number_text n) ≡ Some n }
{}

/// No other text spells that number.
pub fn one_spelling_law()
    ensures { (text : List ℕ) (n : ℕ) → number_of text ≡ Some n → text ≡ number_text n }
{}
