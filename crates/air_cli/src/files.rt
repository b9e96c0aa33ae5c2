//! Named files, read whole or refused with the status of the reason.

ghost use Rattle.std.specs.Prelude.{◌≤◌, length, IfErr, IfOk};
ghost use Rattle.air_devices.specs.WhatIsTold.{ToldIs};
ghost use Rattle.air_cli.specs.NamedFiles.{ReadsInput, UnreadCause};

pub(crate) mod decks;
pub(crate) mod plans;
pub(crate) mod runnable;

use air_devices::{ReadFileError, Shelf, read_file};
use air_report::Status;
use std::alloc::Global;

/// All bytes of a named file that has at most `limit` bytes.
#[tactic(auto, unfolding(crate::specs::NamedFiles::UnreadCause))]
pub fn read_bytes<S: Shelf>(
    alloc: Global,
    shelf: &mut S,
    name: &str,
    limit: usize,
) -> Result<Vec<u8>, Status>
    ensures bytes { IfOk result (λ v. ToldIs ((S.state shelf.old).told.file name.now) v.items) }
    ensures fits { IfOk result (λ v. length v.items ≤ limit) }
    ensures refused { IfErr result (UnreadCause name.now limit (S.state shelf.old) (S.state shelf.new)) }
    ensures reads { ReadsInput name.now result (S.state shelf.old) (S.state shelf.new) }
{
    match read_file(alloc, shelf, name, limit) {
        Ok(bytes) => Ok(bytes),
        Err(ReadFileError::Failed) => Err(Status::ReadFault),
        Err(ReadFileError::TooLarge) => Err(Status::TooLarge {
            limit: limit as u64,
        }),
        Err(ReadFileError::NoMemory) => Err(Status::NoMemory),
    }
}
