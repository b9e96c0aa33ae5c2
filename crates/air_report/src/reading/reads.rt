//! Reads as reports write them, and lists of them, read from the beginning in one pass.

ghost use Rattle.std.specs.Prelude.{◌≡◌, ◌^◌, IfOk, MatchOption, Some, None, option_map};
ghost use Rattle.air_base.specs.LeadingParts.{LeadingIs, after_digits, digits_of};
ghost use Rattle.air_base.specs.NumberLists.{list_of};
ghost use Rattle.air_report.specs.LineTexts.{below, short_of, spelled_item, spelled_place, spelled_read};
ghost use Rattle.air_report.specs.Private.LeadingReads.{leading_place, leading_read};

use air_base::{ReadOf, Reads, after_byte, leading_number, read_leading_number, read_u64};
use std::alloc::{AllocFailed, Global};

/// A number as an item, if it fits 16 bits.
fn to_item(n: u64) -> Option<u16>
    ensures { result ≡ below (2 ^ 16) (Some n) }
{
    if n > 65_535 {
        return None;
    }
    Some(n as u16)
}

/// A number, if it fits 32 bits.
fn to_short(n: u64) -> Option<u32>
    ensures { result ≡ below (2 ^ 32) (Some n) }
{
    if n > 4_294_967_295 {
        return None;
    }
    Some(n as u32)
}

/// The item that a text spells.
#[tactic(auto, unfolding(crate::specs::LineTexts::spelled_item))]
pub fn read_item(text: &[u8]) -> Option<u16>
    ensures { result ≡ spelled_item text.now }
{
    to_item(read_u64(text)?)
}

/// The number of 32 bits that a text spells.
#[tactic(auto, unfolding(crate::specs::LineTexts::short_of))]
pub fn read_short(text: &[u8]) -> Option<u32>
    ensures { result ≡ short_of text.now }
{
    to_short(read_u64(text)?)
}

/// The leading item, and the text after its digits.
#[tactic(auto, unfolding(crate::specs::LineTexts::spelled_item))]
fn leading_item(text: &[u8]) -> Option<(u16, &[u8])>
    ensures { MatchOption result (spelled_item (digits_of text.now) ≡ None) (λ f. (spelled_item (digits_of text.now) ≡ Some f.0) × (f.1.now ≡ after_digits text.now)) }
{
    let (n, rest) = leading_number(text)?;
    let item = to_item(n)?;
    Some((item, rest))
}

/// The leading number of 32 bits, and the text after its digits.
#[tactic(auto, unfolding(crate::specs::LineTexts::short_of))]
fn leading_short(text: &[u8]) -> Option<(u32, &[u8])>
    ensures { MatchOption result (short_of (digits_of text.now) ≡ None) (λ f. (short_of (digits_of text.now) ≡ Some f.0) × (f.1.now ≡ after_digits text.now)) }
{
    let (n, rest) = leading_number(text)?;
    let short = to_short(n)?;
    Some((short, rest))
}

/// The leading place, and the text after it.
#[tactic(auto, unfolding(crate::specs::Private::LeadingReads::leading_place))]
fn leading_place(text: &[u8]) -> Option<(u16, u32, &[u8])>
    ensures { option_map (λ f. (f.0, f.1, f.2.now)) result ≡ leading_place text.now }
{
    let (item, rest) = leading_item(text)?;
    let more = after_byte(rest, b'@')?;
    let (cycle, rest) = leading_short(more)?;
    Some((item, cycle, rest))
}

/// The place that a text spells.
pub fn read_place(text: &[u8]) -> Option<(u16, u32)>
    ensures { result ≡ spelled_place text.now }
{
    let Some((item, cycle, rest)) = leading_place(text) else {
        return None;
    };
    if !rest.is_empty() {
        return None;
    }
    Some((item, cycle))
}

/// The leading read, and the text after its part.
#[tactic(auto, unfolding(crate::specs::Private::LeadingReads::leading_read))]
fn leading_read(text: &[u8]) -> Option<(ReadOf, &[u8])>
    ensures { option_map (λ f. (f.0, f.1.now)) result ≡ leading_read text.now }
{
    let (item, cycle, rest) = leading_place(text)?;
    let more = after_byte(rest, b'=')?;
    let (value, rest) = read_leading_number(more)?;
    Some((ReadOf { item, cycle, value }, rest))
}

/// The read that the first part spells, and what follows the part.
fn read_leading(text: &[u8]) -> Option<(ReadOf, &[u8])>
    ensures { LeadingIs spelled_read text.now (option_map (λ f. (f.0, f.1.now)) result) }
{
    leading_read(text)
}

/// The reads of the list that a text spells, or `None` if it spells no list.
pub fn read_reads(alloc: Global, text: &[u8]) -> Result<Option<Reads>, AllocFailed<ReadOf>>
    ensures { IfOk result (λ list. list ≡ list_of spelled_read text.now) }
{
    let mut reads = Vec::new(alloc);
    if text.is_empty() {
        return Ok(Some(Reads::from_vec(reads)));
    }
    let mut rest = text;
    loop {
        let Some((read, after)) = read_leading(rest) else {
            return Ok(None);
        };
        reads.push(read)?;
        let Some((_, more)) = after.split_first() else {
            return Ok(Some(Reads::from_vec(reads)));
        };
        rest = more;
    }
}
