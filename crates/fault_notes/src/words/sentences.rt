//! What a note says of a record: a sentence with places for values.
//!
//! No memory is taken here: a sentence points into the record, and the line of the note is written once, in the end.

use crate::words::texts::ShownText;
use std::fmt;

/// A sentence in two parts. Where a value goes, the wording has the value's name between two `#`. The first letter of the name identifies the value.
#[derive(Clone, Copy)]
pub struct Sentence<'a> {
    wording: &'static str,
    tail: &'static str,
    text: &'a str,
    name: &'static str,
    why: &'static str,
    first: u64,
    second: u64,
    last: u64,
}

/// The numbers from 0, 1 or 2 to `second`.
pub fn range(least: u64) -> &'static str {
    match least {
        0 => "at most #second#",
        1 => "1 to #second#",
        _ => "2 to #second#",
    }
}

/// What there is of `count` things numbered from 0: `why` is the name of one of them, `name` that of several, and `second` the last one's number.
fn range_wording(count: u64) -> &'static str {
    match count {
        0 => "no #why#",
        1 => "only #why# 0",
        2 => "only #name# 0 and 1",
        _ => "only #name# 0 to #second#",
    }
}

impl<'a> Sentence<'a> {
    /// A sentence with a text, the name of what the text is, and why it is wrong.
    pub fn words(
        wording: &'static str,
        text: &'a str,
        name: &'static str,
        why: &'static str,
    ) -> Sentence<'a> {
        Sentence {
            wording,
            tail: "",
            text,
            name,
            why,
            first: 0,
            second: 0,
            last: 0,
        }
    }

    /// A sentence with numbers.
    pub fn numbers(wording: &'static str, first: u64, second: u64, last: u64) -> Sentence<'a> {
        Sentence {
            wording,
            tail: "",
            text: "",
            name: "",
            why: "",
            first,
            second,
            last,
        }
    }

    /// The same with numbers, and with a second part.
    pub fn with(mut self, first: u64, second: u64, tail: &'static str) -> Sentence<'a> {
        self.first = first;
        self.second = second;
        self.tail = tail;
        self
    }

    /// The same with a second part that says which numbers from 0 there are for `count` things.
    pub fn only(mut self, count: u64, one: &'static str, several: &'static str) -> Sentence<'a> {
        self.tail = range_wording(count);
        self.why = one;
        self.name = several;
        self.second = count.saturating_sub(1);
        self
    }
}

impl Sentence<'_> {
    /// Writes the value of this name.
    fn write_value<W: fmt::Write>(&self, f: &mut fmt::Formatter<W>, name: &str) -> fmt::Result {
        let Some((letter, _)) = name.as_bytes().split_first() else {
            return Ok(());
        };
        let number = match *letter {
            b't' => return fmt::Display::fmt(&ShownText::field(self.text), f),
            b'n' => return f.write_str(self.name),
            b'w' => return f.write_str(self.why),
            b'f' => self.first,
            b's' => self.second,
            _ => self.last,
        };
        fmt::Display::fmt(&number, f)
    }

    /// Writes a part of the sentence.
    fn write_part<W: fmt::Write>(&self, f: &mut fmt::Formatter<W>, part: &str) -> fmt::Result {
        let mut is_value = false;
        for text in part.split('#') {
            if is_value {
                self.write_value(f, text)?;
            } else {
                f.write_str(text)?;
            }
            is_value = !is_value;
        }
        Ok(())
    }
}

impl fmt::Display for Sentence<'_> {
    fn fmt<W: fmt::Write>(&self, f: &mut fmt::Formatter<W>) -> fmt::Result {
        self.write_part(f, self.wording)?;
        self.write_part(f, self.tail)
    }
}
