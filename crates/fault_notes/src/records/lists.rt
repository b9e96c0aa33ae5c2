//! Lists of numbers, of items, of writes and of reads.

use crate::words::texts::{parted_at, parted_at_sign, text_before};
use air_base::read_u64;

/// The item that a part of a list names: what comes before `@` or, if there is none, before `=`; all of it if there is neither.
pub fn item_of(part: &str) -> Option<u64> {
    let bytes = part.as_bytes();
    match parted_at(bytes, b'@') {
        Some((leading, _)) => read_u64(leading),
        None => read_u64(text_before(bytes, b'=')),
    }
}

/// The cycle of a part `<item>@<cycle>`, regardless of what follows a `=`.
fn cycle_of(part: &str) -> Option<u64> {
    let (_, cycle) = parted_at(text_before(part.as_bytes(), b'='), b'@')?;
    read_u64(cycle)
}

/// The base of a write that has one, regardless of the write's other numbers.
fn base_of(part: &str) -> Option<u64> {
    let (_, value) = parted_at(part.as_bytes(), b'=')?;
    let (base, _) = parted_at_sign(value)?;
    read_u64(base)
}

/// The number of parts of a list.
pub fn parts_in(text: &str) -> u64 {
    if text.is_empty() {
        return 0;
    }
    text.split(' ').count() as u64
}

/// The sum of a list of numbers; a part that is no number counts as 0.
pub fn sum_of(text: &str) -> u64 {
    let mut sum = 0_u64;
    for part in text.split(' ') {
        sum = sum.saturating_add(read_u64(part.as_bytes()).unwrap_or(0));
    }
    sum
}

/// The first number of a list that is below `least` or above `most`, or `None`.
pub fn first_outside(text: &str, least: u64, most: u64) -> Option<u64> {
    for part in text.split(' ') {
        if let Some(number) = read_u64(part.as_bytes())
            && (number < least || most < number)
        {
            return Some(number);
        }
    }
    None
}

/// How often an item is in a list.
pub fn times_in(text: &str, item: u64) -> u64 {
    let mut times = 0_u64;
    for part in text.split(' ') {
        if let Some(named) = item_of(part)
            && named == item
        {
            times = times.saturating_add(1);
        }
    }
    times
}

/// A test of each part of a list.
#[derive(Clone, Copy)]
pub enum Test<'a> {
    /// Its item is below this one.
    Item(u64),
    /// Its base is below this one.
    Base(u64),
    /// Its base is in this list.
    Read(&'a str),
    /// Its item is in this list once.
    Once(&'a str),
    /// Its cycle is from 1 to this one.
    Cycle(u64),
}

impl Test<'_> {
    /// The item, the base or the cycle by which a part fails the test, or `None`.
    fn failing_number(self, part: &str) -> Option<u64> {
        let number = match self {
            Test::Item(_) | Test::Once(_) => item_of(part)?,
            Test::Base(_) | Test::Read(_) => base_of(part)?,
            Test::Cycle(_) => cycle_of(part)?,
        };
        let is_kept = match self {
            Test::Item(count) | Test::Base(count) => number < count,
            Test::Read(list) => 0 < times_in(list, number),
            Test::Once(list) => times_in(list, number) < 2,
            Test::Cycle(last) => 0 < number && number <= last,
        };
        if is_kept { None } else { Some(number) }
    }
}

/// The first part of a list that fails the test, and the number by which it fails.
pub fn first_failing<'a>(list: &'a str, test: Test<'_>) -> Option<(&'a str, u64)> {
    for part in list.split(' ') {
        if let Some(number) = test.failing_number(part) {
            return Some((part, number));
        }
    }
    None
}
