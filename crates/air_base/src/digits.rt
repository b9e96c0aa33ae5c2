//! Leading digits of a text, read from a place on: up to four at a time, or one by one if the text has fewer than four bytes
//! left or the number has fifteen digits.
//!
//! A digit's byte is its value plus 48. The surplus is subtracted once for each number: two digits have 48 * 11 = 528 too much,
//! three 48 * 111 = 5,328, and four 48 * 1,111 = 53,328.

ghost use Rattle.std.specs.Prelude.{◌≡◌, ◌==◌, ◌<◌, ◌≤◌, ◌+◌, ◌*◌, ◌^◌, get_or, length, IfSome, IsTrue, MatchOption, None, false};
ghost use Rattle.std.specs.Char.{is_ascii_digit};
ghost use Rattle.air_base.specs.Numbers.{number_of};
ghost use Rattle.std.specs.Option.{SomeIff};
ghost use Rattle.air_base.specs.LeadingParts.{DigitsRead, digits_of};
ghost use Rattle.air_base.specs.ReadParts.{ShortAt};

/// Whether a byte is a digit's.
#[inline(always)]
fn is_digit(byte: u64) -> bool
    ensures { result ≡ is_ascii_digit byte }
{
    48 <= byte && byte <= 57
}

/// Whether a byte is a zero's. It is a call of its own, so that the usual path doesn't contain it.
#[cold]
#[inline(never)]
fn is_zero(byte: u64) -> bool
    ensures { result ≡ (byte == 48) }
{
    byte == 48
}

/// The number of one to three digits at a place, and the place after them. After a leading zero no more digits are read.
#[inline(always)]
pub fn short_number(text: &[u8], place: usize) -> Option<(u64, usize)>
    requires { place + 4 ≤ length text.now }
    ensures { IfSome result (ShortAt text.now place) }
{
    let one = u64::from(text[place]);
    if one < 49 || 57 < one {
        return if is_zero(one) {
            Some((0, place + 1))
        } else {
            None
        };
    }
    let two = u64::from(text[place + 1]);
    if !is_digit(two) {
        return Some((one - 48, place + 1));
    }
    let tens = one * 10 + two;
    let three = u64::from(text[place + 2]);
    if !is_digit(three) {
        return Some((tens - 528, place + 2));
    }
    Some((tens * 10 + three - 5328, place + 3))
}

/// The number with up to four digits from this place on appended, and how many they are.
#[inline(always)]
fn with_four(text: &[u8], place: usize, number: u64) -> (u64, usize)
    requires within { place + 4 ≤ length text.now }
    requires small { number < 10 ^ 15 }
    requires read { DigitsRead text.now place number }
    ensures few { result.1 ≤ 4 }
    ensures read { DigitsRead text.now (place + result.1) result.0 }
    ensures end { result.1 < 4 → is_ascii_digit (get_or text.now (place + result.1) 0) ≡ false }
{
    let one = u64::from(text[place]);
    if !is_digit(one) {
        return (number, 0);
    }
    let more = number * 10 + one;
    let two = u64::from(text[place + 1]);
    if !is_digit(two) {
        return (more - 48, 1);
    }
    let more = more * 10 + two;
    let three = u64::from(text[place + 2]);
    if !is_digit(three) {
        return (more - 528, 2);
    }
    let more = more * 10 + three;
    let four = u64::from(text[place + 3]);
    if !is_digit(four) {
        return (more - 5328, 3);
    }
    (more * 10 + four - 53_328, 4)
}

/// Appends digits four at a time to a number of which some were read: gives its value so far, how many digits were read, and
/// whether these are all.
#[inline(always)]
fn with_fours(text: &[u8], from: usize, read: u64) -> (u64, usize, bool)
    requires within { from ≤ length text.now }
    requires read { DigitsRead text.now from read }
    ensures more { from ≤ result.1 }
    ensures within { result.1 ≤ length text.now }
    ensures read { DigitsRead text.now result.1 result.0 }
    ensures end { IsTrue result.2 → is_ascii_digit (get_or text.now result.1 0) ≡ false }
{
    let mut number = read;
    let mut place = from;
    while place < 15 && text.len() - place >= 4 {
        let (more, few) = with_four(text, place, number);
        if few < 4 {
            return (more, place + few, true);
        }
        number = more;
        place += 4;
    }
    (number, place, false)
}

/// The number with one more digit at its end; None if that is above the greatest.
fn with_digit(number: u64, digit: u8) -> Option<u64>
    requires { digit < 10 }
    ensures { SomeIff result (number * 10 + digit < 2 ^ 64) (number * 10 + digit) }
{
    let most = u64::MAX / 10;
    if number >= most && (number > most || u64::from(digit) > u64::MAX % 10) {
        return None;
    }
    Some(number * 10 + u64::from(digit))
}

/// The value of all leading digits and how many they are, where some were read already: the others are read one by one.
#[inline(never)]
fn one_by_one(text: &[u8], from: usize, read: u64) -> Option<(u64, usize)>
    requires within { from ≤ length text.now }
    requires read { DigitsRead text.now from read }
    ensures { MatchOption result (number_of (digits_of text.now) ≡ None) (λ f. DigitsRead text.now f.1 f.0 × (from ≤ f.1) × (f.1 ≤ length text.now) × (is_ascii_digit (get_or text.now f.1 0) ≡ false)) }
{
    let mut number = read;
    for i in from..text.len() {
        if !text[i].is_ascii_digit() {
            return Some((number, i));
        }
        let Some(more) = with_digit(number, text[i] - b'0') else {
            return None;
        };
        number = more;
    }
    Some((number, text.len()))
}

/// The value of all leading digits and how many they are, where some were read already; None if the value is too great.
#[inline(always)]
pub fn all_digits(text: &[u8], from: usize, read: u64) -> Option<(u64, usize)>
    requires within { from ≤ length text.now }
    requires read { DigitsRead text.now from read }
    ensures { MatchOption result (number_of (digits_of text.now) ≡ None) (λ f. DigitsRead text.now f.1 f.0 × (from ≤ f.1) × (f.1 ≤ length text.now) × (is_ascii_digit (get_or text.now f.1 0) ≡ false)) }
{
    let (number, place, end) = with_fours(text, from, read);
    if end {
        return Some((number, place));
    }
    one_by_one(text, place, number)
}
