//! Lists of numbers as texts: parts with one space between each two.
//!
//! The empty text is the empty list. A leading, trailing or double space makes an empty part, which spells no number. For the
//! first part that spells none, the answer is the byte at which it begins.

ghost use Rattle.std.specs.Prelude.{◌≡◌, ◌↔◌, ◌<◌, ◌^◌, ℕ, List, length, map, All, Some, IsNone, IsSome, IfOk, IfErr};
ghost use Rattle.air_base.specs.Numbers.{number_of, number_text};
ghost use Rattle.air_base.specs.NumberLists.{list_of, bad_part_at, list_text, parts_of};
ghost use Rattle.air_base.specs.ListFault.{TellsBadPart};

use crate::leading_numbers::read_leading_number;
use std::alloc::{AllocFailed, Global};
use std::error::Error;
use std::fmt;

/// Why a text gave no list.
#[derive(Clone, Copy, Debug, PartialEq, Eq)]
pub enum ListFault {
    /// The first part that spells no number begins at this byte.
    BadNumber { at: u32 },
    /// There was no memory for the list.
    NoMemory,
}

impl<T: Drop> From<AllocFailed<T>> for ListFault {
    ghost use Rattle.std.specs.Prelude.{◌≡◌};
    ghost use Rattle.air_base.specs.declared.number_lists.ListFault.TheVariants.{NoMemory};

    ghost from_gives = { λ _ e. e ≡ NoMemory };

    fn from(_error: AllocFailed<T>) -> Self {
        ListFault::NoMemory
    }
}

impl fmt::Display for ListFault {
    fn fmt<W: fmt::Write>(&self, f: &mut fmt::Formatter<W>) -> fmt::Result {
        match self {
            ListFault::BadNumber { at } => write!(f, "no number at byte {at}"),
            ListFault::NoMemory => f.write_str("out of memory"),
        }
    }
}

impl Error for ListFault {}

/// The numbers of the list that the text spells.
pub fn read_list(alloc: Global, text: &[u8]) -> Result<Vec<u64>, ListFault>
    requires { length text.now < 2 ^ 32 }
    ensures numbers { IfOk result (λ list. list_of number_of text.now ≡ Some list.items) }
    ensures bad_number { IfErr result (λ fault. TellsBadPart fault (bad_part_at number_of text.now)) }
{
    let mut numbers = Vec::new(alloc);
    if text.is_empty() {
        return Ok(numbers);
    }
    let mut rest = text;
    loop {
        let Some((number, after)) = read_leading_number(rest) else {
            let at = text.len() - rest.len();
            return Err(ListFault::BadNumber { at: at as u32 });
        };
        numbers.push(number)?;
        let Some((_, more)) = after.split_first() else {
            return Ok(numbers);
        };
        rest = more;
    }
}

/// A list has the numbers of its parts, one for each.
pub fn list_is_its_parts_law()
    ensures { (text ns : List ℕ) → (list_of number_of text ≡ Some ns) ↔ (map number_of (parts_of text) ≡ map Some ns) }
{}

/// A text that spells no list has a first part that spells no number, and no other text has one.
pub fn list_or_bad_part_law()
    ensures { (text : List ℕ) → IsNone (list_of number_of text) ↔ IsSome (bad_part_at number_of text) }
{}

/// The texts of numbers with one space between each two spell these numbers.
pub fn list_text_spells_law()
    ensures { (ns : List ℕ) → All (λ n. n < 2 ^ 64) ns → list_of number_of (list_text (map number_text ns)) ≡ Some ns }
{}

/// No other text spells these numbers.
pub fn one_list_spelling_law()
    ensures { (text ns : List ℕ) → list_of number_of text ≡ Some ns → text ≡ list_text (map number_text ns) }
{}
