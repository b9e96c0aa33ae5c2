//! Whole files, read through any shelf up to a stated limit.
//!
//! The loop always ends: each round takes at least one byte or returns, and no round goes past the limit by more than one byte.
//! The answer for a file that can't be read says which count of faults went up.

ghost use Rattle.std.specs.Prelude.{◌≡◌, ◌≢◌, ◌<◌, ◌≤◌, ◌+◌, ℕ, List, Option, Err, length, IfOk, OnOk};
ghost use Rattle.std.specs.Io.KnownBytes.{IsAtEnd, Keeps, prepend_known};
ghost use Rattle.air_devices.specs.Counts.{KeepsCounts, NoCountFalls, Rose};
ghost use Rattle.air_devices.specs.Unchanged.{KeepsButLeft};
ghost use Rattle.air_devices.specs.WhatIsTold.{ToldIs};
ghost use Rattle.air_devices.specs.Reading.{IsTooLarge};

pub(crate) mod read_files;

use crate::shelves::Shelf;
use std::alloc::{AllocError, Global};
use std::error::Error;
use std::fmt;

/// Why a file wasn't read.
#[derive(Clone, Copy, Debug, PartialEq, Eq)]
pub enum ReadFileError {
    /// The shelf failed.
    Failed,
    /// The file has more bytes than the limit. If it is told, what is left is what comes after the limit and one more byte.
    TooLarge,
    /// There was no memory for the bytes.
    NoMemory,
}

impl fmt::Display for ReadFileError {
    fn fmt<W: fmt::Write>(&self, f: &mut fmt::Formatter<W>) -> fmt::Result {
        f.write_str(match self {
            ReadFileError::Failed => "the file can't be read",
            ReadFileError::TooLarge => "the file is too large",
            ReadFileError::NoMemory => "out of memory",
        })
    }
}

impl Error for ReadFileError {}

impl From<AllocError> for ReadFileError {
    ghost use Rattle.std.specs.Prelude.{◌≡◌};
    ghost use Rattle.air_devices.specs.declared.reading.ReadFileError.TheVariants.{NoMemory};

    ghost from_gives = { λ _ e. e ≡ NoMemory };

    fn from(_error: AllocError) -> Self {
        ReadFileError::NoMemory
    }
}

/// The most bytes that one read asks for.
const BLOCK: usize = 16_384;

/// Adds the next bytes of a file that was picked, as many as one read gives, and gives their number, which is 0 only at the
/// file's end.
#[tactic(auto, using(crate::proofs::ReadOnLemmas::reads_on))]
fn read_on<S: Shelf>(
    shelf: &mut S,
    name: &str,
    part: &mut [u8],
    bytes: &mut Vec<u8>,
) -> Result<usize, ReadFileError>
    requires { 0 < length part.old }
    ensures grown { IfOk result (λ count. length bytes.new.items ≡ length bytes.old.items + count) }
    ensures bound { IfOk result (λ count. count ≤ length part.old) }
    ensures read { OnOk result ((file : Option (List ℕ)) → Keeps file (prepend_known bytes.old.items ((S.state shelf.old).told.left name.now)) → Keeps file (prepend_known bytes.new.items ((S.state shelf.new).told.left name.now))) }
    ensures end { IfOk result (λ count. count ≡ 0 → IsAtEnd ((S.state shelf.new).told.left name.now)) }
    ensures small { result ≢ Err ReadFileError.TooLarge }
    ensures cause { result ≡ Err ReadFileError.Failed → Rose ((S.state shelf.old).faults.reading name.now) ((S.state shelf.new).faults.reading name.now) }
    ensures rest { KeepsButLeft name.now (S.state shelf.old).told (S.state shelf.new).told }
    ensures later { NoCountFalls (S.state shelf.old).faults (S.state shelf.new).faults }
    ensures calm { result ≢ Err ReadFileError.Failed → KeepsCounts (S.state shelf.old).faults (S.state shelf.new).faults }
{
    let Ok(count) = shelf.read(name, part) else {
        return Err(ReadFileError::Failed);
    };
    bytes.extend_from_slice(&part[..count])?;
    Ok(count)
}

/// The whole of a file that has at most `limit` bytes.
pub fn read_file<S: Shelf>(
    alloc: Global,
    shelf: &mut S,
    name: &str,
    limit: usize,
) -> Result<Vec<u8>, ReadFileError>
    ensures bytes { IfOk result (λ v. ToldIs ((S.state shelf.old).told.file name.now) v.items) }
    ensures fits { IfOk result (λ v. length v.items ≤ limit) }
    ensures end { OnOk result (IsAtEnd ((S.state shelf.new).told.left name.now)) }
    ensures large { result ≡ Err ReadFileError.TooLarge → IsTooLarge limit name.now (S.state shelf.old).told (S.state shelf.new).told }
    ensures cause { result ≡ Err ReadFileError.Failed → Rose ((S.state shelf.old).faults.reading name.now) ((S.state shelf.new).faults.reading name.now) }
    ensures rest { KeepsButLeft name.now (S.state shelf.old).told (S.state shelf.new).told }
    ensures later { NoCountFalls (S.state shelf.old).faults (S.state shelf.new).faults }
    ensures calm { result ≢ Err ReadFileError.Failed → KeepsCounts (S.state shelf.old).faults (S.state shelf.new).faults }
{
    if shelf.pick(name).is_err() {
        return Err(ReadFileError::Failed);
    }
    let mut bytes = Vec::new(alloc);
    let mut buf = [0u8; BLOCK];
    while bytes.len() <= limit {
        let want = (limit - bytes.len()).min(BLOCK - 1) + 1;
        let part = &mut buf[..want];
        let count = read_on(shelf, name, part, &mut bytes)?;
        if count == 0 {
            return Ok(bytes);
        }
    }
    Err(ReadFileError::TooLarge)
}
