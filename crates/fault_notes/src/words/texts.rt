//! Texts as a note shows them, and why a text is no number.

use std::fmt;

/// A text as a note shows it, on one line: a question mark stands for each character that can't be printed.
#[derive(Clone, Copy)]
pub struct ShownText<'a> {
    text: &'a str,
    most: usize,
}

impl<'a> ShownText<'a> {
    /// The first forty characters of a field.
    pub fn field(text: &'a str) -> ShownText<'a> {
        ShownText { text, most: 40 }
    }

    /// The whole of a name.
    pub fn whole(text: &'a str) -> ShownText<'a> {
        ShownText {
            text,
            most: usize::MAX,
        }
    }
}

impl fmt::Display for ShownText<'_> {
    fn fmt<W: fmt::Write>(&self, f: &mut fmt::Formatter<W>) -> fmt::Result {
        if self.text.is_empty() {
            return f.write_str("(empty)");
        }
        let mut left = self.most;
        for letter in self.text.chars() {
            if left == 0 {
                return f.write_str("..");
            }
            left -= 1;
            f.write_char(if letter.is_control() { '?' } else { letter })?;
        }
        Ok(())
    }
}

/// Whether a text has a space at one of its ends, which a note would hide.
pub fn has_outer_space(text: &str) -> bool {
    text.trim().len() != text.len()
}

/// That a text has a space at one of its ends; empty if it has none.
pub fn space_of(text: &str) -> &'static str {
    if has_outer_space(text) {
        "it has a space, and "
    } else {
        ""
    }
}

/// What comes before the first byte of this value, and what follows it, or `None` if there is no such byte.
pub fn parted_at(bytes: &[u8], mark: u8) -> Option<(&[u8], &[u8])> {
    for place in 0..bytes.len() {
        if bytes[place] == mark {
            return Some((&bytes[..place], &bytes[place + 1..]));
        }
    }
    None
}

/// What comes before the first byte of this value; all if there is no such byte.
pub fn text_before(bytes: &[u8], mark: u8) -> &[u8] {
    match parted_at(bytes, mark) {
        Some((leading, _)) => leading,
        None => bytes,
    }
}

/// What is on both sides of the first `+` or, if there is none, of the first `-`, or `None` if there is no sign.
pub fn parted_at_sign(bytes: &[u8]) -> Option<(&[u8], &[u8])> {
    match parted_at(bytes, b'+') {
        Some(sides) => Some(sides),
        None => parted_at(bytes, b'-'),
    }
}

/// Whether a text has digits alone, and one at least.
pub fn is_digits(text: &[u8]) -> bool {
    for byte in text {
        if !byte.is_ascii_digit() {
            return false;
        }
    }
    !text.is_empty()
}

/// Marks that numbers have in other formats, each with why such a text is no number.
const MARKS: [(u8, &str); 3] = [
    (b'.', "not a number: it has a decimal point"),
    (b',', "not a number: it has a comma"),
    (
        b':',
        "not a number: it has a colon, and a time is written as its minutes",
    ),
];

/// Why digits with a mark among them are no number, or `None`.
fn why_marked(bytes: &[u8]) -> Option<&'static str> {
    for (mark, why) in MARKS {
        if let Some((leading, rest)) = parted_at(bytes, mark)
            && is_digits(leading)
            && is_digits(text_before(rest, mark))
        {
            return Some(why);
        }
    }
    None
}

/// Why a text that has only digits spells no number.
fn why_no_digits(first: u8) -> &'static str {
    if first == b'0' {
        "not a number: it has a leading zero"
    } else {
        "not a number: it is above 18446744073709551615"
    }
}

/// Why a text that spells no number spells none.
pub fn why_no_number(text: &str) -> &'static str {
    let bytes = text.as_bytes();
    let Some((first, rest)) = bytes.split_first() else {
        return "not a number";
    };
    if is_digits(bytes) {
        return why_no_digits(*first);
    }
    if (*first == b'+' || *first == b'-') && is_digits(rest) {
        return "not a number: it has a sign";
    }
    if has_outer_space(text) {
        return "not a number: it has a space";
    }
    why_marked(bytes).unwrap_or("not a number")
}
