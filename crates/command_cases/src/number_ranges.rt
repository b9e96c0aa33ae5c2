//! What is set to one number after another, each for a run of the same command.
//!
//! `fail` and `air_fail` set the call that fails alone, and `both` one that fails with the next. `room` sets the bytes that there is room for, `cut`
//! the length of the tape, `flip` the byte of which the highest bit is changed, and `line` the line that is left out of the report.

use air_base::{NoMemory, write_u64};
use case_lines::{BadCase, Parts};

/// The greatest number of numbers.
const MOST_NUMBERS: u64 = 1_000;

/// What a number is set for.
#[derive(Clone, Copy)]
pub enum Target {
    Fail,
    Both,
    AirFail,
    Room,
    Cut,
    Flip,
    Line,
}

/// What is set, and the numbers from the first to the one before the end.
#[derive(Clone, Copy)]
pub struct NumberRange {
    pub what: Target,
    pub first: u64,
    pub end: u64,
}

impl Target {
    /// The target of the word.
    fn of(parts: &mut Parts<'_>) -> Target {
        match parts.next() {
            b"fail" => Target::Fail,
            b"both" => Target::Both,
            b"air_fail" => Target::AirFail,
            b"room" => Target::Room,
            b"cut" => Target::Cut,
            b"flip" => Target::Flip,
            b"line" => Target::Line,
            _ => {
                parts.refuse(BadCase::NoSuchWord);
                Target::Fail
            }
        }
    }

    /// The word.
    fn word(self) -> &'static [u8] {
        match self {
            Target::Fail => b"fail",
            Target::Both => b"both",
            Target::AirFail => b"air_fail",
            Target::Room => b"room",
            Target::Cut => b"cut",
            Target::Flip => b"flip",
            Target::Line => b"line",
        }
    }
}

impl NumberRange {
    /// The target that the parts name, the first number and the last.
    pub fn of(parts: &mut Parts<'_>) -> NumberRange {
        let what = Target::of(parts);
        let first = parts.number();
        let end = parts.number().saturating_add(1);
        if end <= first || end - first > MOST_NUMBERS {
            parts.refuse(BadCase::NoCall);
        }
        NumberRange { what, first, end }
    }

    /// Adds the numbers from one to the one before another, and the result of each of them.
    pub fn add(self, from: u64, end: u64, told: &[u8], came: &mut Vec<u8>) -> Result<(), NoMemory> {
        let last = end.saturating_sub(1);
        came.extend_from_slice(self.what.word())?;
        came.push(b' ')?;
        write_u64(from, came)?;
        if from < last {
            came.extend_from_slice(b" to ")?;
            write_u64(last, came)?;
        }
        came.push(b'\n')?;
        came.extend_from_slice(told)?;
        Ok(())
    }
}
