//! The parts of a case: what follows its word, and the first thing in it that is mistyped.
//!
//! A player takes one part after another. If a part isn't what it is taken as, that is noted, and the player gets 0 or no bytes. `playing` writes the
//! note in place of the result of the case, also for a part that is left.

use air_base::{NoMemory, Policy, read_u64};
use std::alloc::Global;

/// What is mistyped in a case.
#[derive(Drop)]
pub enum BadCase {
    /// A word that isn't one of those expected there.
    NoSuchWord,
    /// A part that isn't there.
    Missing,
    /// A part too many.
    TooMany,
    /// A part that spells no number.
    NoNumber,
    /// A number of more bits than are taken.
    TooGreat,
    /// Two characters that spell no byte: not hexadecimal digits, or a backslash with another letter than those of escapes.
    NoByte,
    /// A part that spells no write.
    NoWrite,
    /// A call that its contract forbids, or on something that was not made before.
    NoCall,
}

/// The parts that are left, and what was noted first.
#[derive(Drop)]
pub struct Parts<'a> {
    rest: &'a [u8],
    bad: Option<BadCase>,
}

/// The text up to the first such byte, and what follows it.
pub fn first_part(text: &[u8], between: u8) -> (&[u8], &[u8]) {
    for (at, byte) in text.iter().enumerate() {
        if *byte == between {
            return (&text[..at], &text[at + 1..]);
        }
    }
    (text, &[])
}

impl BadCase {
    /// The text of the note in the transcript.
    pub fn as_text(&self) -> &'static [u8] {
        match self {
            BadCase::NoSuchWord => b"no such word",
            BadCase::Missing => b"a part is missing",
            BadCase::TooMany => b"a part too many",
            BadCase::NoNumber => b"no number",
            BadCase::TooGreat => b"too great a number",
            BadCase::NoByte => b"no byte",
            BadCase::NoWrite => b"no write",
            BadCase::NoCall => b"no such call here",
        }
    }
}

impl<'a> Parts<'a> {
    /// The parts of a text, with a space before each but the first.
    pub fn new(text: &'a [u8]) -> Parts<'a> {
        Parts {
            rest: text,
            bad: None,
        }
    }

    /// Notes what is mistyped. Only the first note is kept.
    pub fn refuse(&mut self, bad: BadCase) {
        if self.bad.is_none() {
            self.bad = Some(bad);
        }
    }

    /// What was noted first.
    pub fn bad(&self) -> Option<&BadCase> {
        self.bad.as_ref()
    }

    /// The number of bytes that are left, at least one for each part.
    pub fn left(&self) -> usize {
        self.rest.len()
    }

    /// All that is left, as one part.
    pub fn rest(&mut self) -> &'a [u8] {
        let rest = self.rest;
        self.rest = &[];
        rest
    }

    /// The next part.
    pub fn next(&mut self) -> &'a [u8] {
        let (part, rest) = first_part(self.rest, b' ');
        if part.is_empty() {
            self.refuse(BadCase::Missing);
        }
        self.rest = rest;
        part
    }

    /// Takes the next part if it is this word, and returns whether it is.
    pub fn takes(&mut self, word: &[u8]) -> bool {
        let (part, rest) = first_part(self.rest, b' ');
        if part != word {
            return false;
        }
        self.rest = rest;
        true
    }

    /// The number that a text spells.
    pub fn number_of(&mut self, text: &[u8]) -> u64 {
        match read_u64(text) {
            Some(number) => number,
            None => {
                self.refuse(BadCase::NoNumber);
                0
            }
        }
    }

    /// The number of 16 bits that a text spells.
    pub fn small_of(&mut self, text: &[u8]) -> u16 {
        match u16::try_from(self.number_of(text)) {
            Ok(number) => number,
            Err(_) => {
                self.refuse(BadCase::TooGreat);
                0
            }
        }
    }

    /// The next part as a number.
    pub fn number(&mut self) -> u64 {
        let part = self.next();
        self.number_of(part)
    }

    /// The next part as a number of 32 bits.
    pub fn narrow(&mut self) -> u32 {
        match u32::try_from(self.number()) {
            Ok(number) => number,
            Err(_) => {
                self.refuse(BadCase::TooGreat);
                0
            }
        }
    }

    /// The next part as a number of 16 bits.
    pub fn small(&mut self) -> u16 {
        let part = self.next();
        self.small_of(part)
    }

    /// The next part as a number of 8 bits.
    pub fn byte(&mut self) -> u8 {
        match u8::try_from(self.number()) {
            Ok(number) => number,
            Err(_) => {
                self.refuse(BadCase::TooGreat);
                0
            }
        }
    }

    /// The parts that are left as numbers.
    pub fn numbers(&mut self, alloc: Global) -> Result<Vec<u64>, NoMemory> {
        let mut numbers = Vec::new(alloc);
        for _ in 0..self.left() {
            if self.left() > 0 {
                numbers.push(self.number())?;
            }
        }
        Ok(numbers)
    }

    /// The parts that are left as numbers of 32 bits.
    pub fn entries(&mut self, alloc: Global) -> Result<Vec<u32>, NoMemory> {
        let mut entries = Vec::new(alloc);
        for _ in 0..self.left() {
            if self.left() > 0 {
                entries.push(self.narrow())?;
            }
        }
        Ok(entries)
    }

    /// The next part as the letter of a policy.
    pub fn policy(&mut self) -> Policy {
        match self.next() {
            b"F" => Policy::FMatrix,
            b"D" => Policy::Datacycle,
            b"R" => Policy::RMatrix,
            _ => {
                self.refuse(BadCase::NoSuchWord);
                Policy::FMatrix
            }
        }
    }
}
