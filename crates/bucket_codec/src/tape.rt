//! A tape: records one after another, each with its length in four bytes before it.
//!
//! Contracts see a reader as what its tape has still to give: the whole records that are left, and the byte at which the tape
//! is cut, if it is cut. A reader that gave its last record doesn't change any more, so each later call gives the same answer.
//! The sender writes records, `tune` reads them.

ghost use Rattle.std.specs.Prelude.{◌≡◌, ◌≤◌, ◌<◌, ◌+◌, ◌++◌, ◌^◌, true, None, MatchOption, MatchResult, IfErr, IfSome, OnOk, drop, length};
ghost use Rattle.air_model.specs.Tapes.{ends_inside, record_bytes, tape_read, with_record};
ghost use Rattle.bucket_codec.specs.Readers.{nothing_left, only_cut_at};

use crate::encoding::put_four;
use crate::offsets::LENGTH_BYTES;
use byteorder::{BigEndian, ByteOrder};
use std::error::Error;
use std::fmt;
use std::marker::Model;

/// The tape ends inside a record.
#[derive(Clone, Copy, Debug, PartialEq, Eq)]
pub enum TapeFault {
    /// The record begins, with its length, at byte `at`.
    Cut { at: u64 },
}

impl fmt::Display for TapeFault {
    fn fmt<W: fmt::Write>(&self, f: &mut fmt::Formatter<W>) -> fmt::Result {
        match self {
            TapeFault::Cut { at } => write!(f, "the tape ends inside the record at byte {at}"),
        }
    }
}

impl Error for TapeFault {}

/// Writes the length and the bytes of a record to the beginning of `out` and gives the number of bytes written.
pub fn tape_record(bytes: &[u8], out: &mut [u8]) -> usize
    requires short { length bytes.now < 2 ^ 32 }
    requires room { LENGTH_BYTES + length bytes.now ≤ length out.old }
    ensures len { result ≡ length (record_bytes bytes.now) }
    ensures bytes { out.new ≡ record_bytes bytes.now ++ drop result out.old }
{
    put_four(out, 0, bytes.len() as u32);
    out[LENGTH_BYTES..LENGTH_BYTES + bytes.len()].copy_from_slice(bytes);
    LENGTH_BYTES + bytes.len()
}

/// The first record of the rest of a tape; None if the tape ends inside it.
fn first_record<'a>(rest: &'a [u8]) -> Option<&'a [u8]>
    requires { 0 < length rest.now }
    ensures first { MatchOption result (ends_inside rest.now ≡ true) (λ r. rest.now ≡ record_bytes r.now ++ drop (LENGTH_BYTES + length r.now) rest.now) }
    ensures within { IfSome result (λ r. LENGTH_BYTES + length r.now ≤ length rest.now) }
    ensures short { IfSome result (λ r. length r.now < 2 ^ 32) }
{
    if rest.len() < LENGTH_BYTES {
        return None;
    }
    let len = BigEndian::read_u32(rest) as usize;
    if rest.len() - LENGTH_BYTES < len {
        return None;
    }
    Some(&rest[LENGTH_BYTES..LENGTH_BYTES + len])
}

/// The records of a tape, one after another, lent from its bytes.
#[derive(Drop)]
pub struct TapeReader<'a> {
    rest: &'a [u8],
    at: u64,
}

impl<'a> Model for TapeReader<'a> {
    ghost use Rattle.std.specs.Prelude.{◌<◌, ◌+◌, ◌^◌, length};
    ghost use Rattle.air_model.specs.Tapes.{TapeRead, read_from};

    ghost Value = { TapeRead };

    ghost view = { λ a. read_from (length a.rest.now) a.at a.rest.now };

    ghost invariant = { λ a. a.at + length a.rest.now < 2 ^ 64 };
}

impl<'a> TapeReader<'a> {
    /// A reader at the beginning of a tape.
    pub fn new(bytes: &'a [u8]) -> TapeReader<'a>
        ensures { result ≡ tape_read bytes.now }
    {
        TapeReader { rest: bytes, at: 0 }
    }

    /// The next whole record; None at the end of the tape.
    pub fn next(&mut self) -> Result<Option<&'a [u8]>, TapeFault>
        ensures { MatchResult result
            (λ o. MatchOption o ((self.old ≡ nothing_left) × (self.new ≡ self.old)) (λ r. self.old ≡ with_record r.now self.new))
            (λ e. (self.old ≡ only_cut_at e) × (self.new ≡ self.old)) }
    {
        let rest = self.rest;
        if rest.is_empty() {
            return Ok(None);
        }
        match first_record(rest) {
            None => Err(TapeFault::Cut { at: self.at }),
            Some(record) => {
                let len = LENGTH_BYTES + record.len();
                self.rest = &rest[len..];
                self.at += len as u64;
                Ok(Some(record))
            }
        }
    }

    /// The next record of a tape that isn't cut; None at its end.
    pub fn next_whole(&mut self) -> Option<&'a [u8]>
        requires { self.old.cut ≡ None }
        ensures { MatchOption result ((self.old ≡ nothing_left) × (self.new ≡ self.old)) (λ r. self.old ≡ with_record r.now self.new) }
    {
        match self.next() {
            Ok(record) => record,
            Err(_) => unreachable!(),
        }
    }
}

/// Reads a tape to its end, or to the record in which it is cut.
pub fn check_tape(tape: &[u8]) -> Result<(), TapeFault>
    ensures whole { OnOk result ((tape_read tape.now).cut ≡ None) }
    ensures cut { IfErr result (λ fault. (tape_read tape.now).cut ≡ (only_cut_at fault).cut) }
{
    let mut records = TapeReader::new(tape);
    while let Some(_record) = records.next()? {}
    Ok(())
}
