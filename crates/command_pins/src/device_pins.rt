//! These pins say what `air_devices` reads of short files up to a limit, when it answers that one is too large or that a read failed, and how much it
//! leaves. They also say which failure a shelf over files keeps.

ghost use Rattle.std.specs.Prelude.{◌≡◌, ◌≢◌, ◌≤◌, [], ◌∷◌, Err, Some, IfOk, OnErr, OnOk, option_map};
ghost use Rattle.air_devices.specs.Memory.{told_by};

use air_devices::{Failed, FileCall, FileShelf, MemShelf, ReadFileError, Shelf, read_file};
use std::alloc::Global;
use std::rt::Files;

/// If a file is longer than the limit, one byte more than the limit is read, and the rest is left. The file isn't read as if it ended at the limit.
/// Promise: a refusal leaves its objects
pub fn read_past_the_limit_goes_on(
    alloc: Global,
    shelf: &mut MemShelf,
    name: &str,
) -> Result<Vec<u8>, ReadFileError>
    requires { (told_by shelf.old).file name.now ≡ Some (1 ∷ 2 ∷ 3 ∷ 4 ∷ []) }
    ensures left { result ≡ Err ReadFileError.TooLarge → (told_by shelf.new).left name.now ≡ Some (4 ∷ []) }
    ensures refused { OnOk result ⊥ }
{
    read_file(alloc, shelf, name, 2)
}

/// A file that has exactly as many bytes as the limit is read whole, by any shelf that tells it, and not refused as too large. It also refuses that a
/// read of fewer bytes than asked for is taken for the end.
/// Promise: every answer is a named one
pub fn file_at_the_limit_refused<S: Shelf>(
    alloc: Global,
    shelf: &mut S,
    name: &str,
) -> Result<Vec<u8>, ReadFileError>
    requires { (S.state shelf.old).told.file name.now ≡ Some (1 ∷ 2 ∷ 3 ∷ 4 ∷ []) }
    ensures whole { IfOk result (λ bytes. bytes.items ≡ 1 ∷ 2 ∷ 3 ∷ 4 ∷ []) }
    ensures fits { result ≢ Err ReadFileError.TooLarge }
{
    read_file(alloc, shelf, name, 4)
}

/// An empty file is within a limit of no byte.
/// Promise: every answer is a named one
pub fn empty_file_at_the_limit_refused(
    alloc: Global,
    shelf: &mut MemShelf,
    name: &str,
) -> Result<Vec<u8>, ReadFileError>
    requires { (told_by shelf.old).file name.now ≡ Some [] }
    ensures { result ≢ Err ReadFileError.TooLarge }
{
    read_file(alloc, shelf, name, 0)
}

/// A file is refused as unread only if a failure was counted, and with each other answer none was.
/// Promise: every answer is a named one
pub fn read_fault_without_a_fault(
    alloc: Global,
    shelf: &mut MemShelf,
    name: &str,
) -> Result<Vec<u8>, ReadFileError>
    requires { shelf.old.calls.faults ≡ 0 }
    ensures fault { result ≡ Err ReadFileError.Failed → 1 ≤ shelf.new.calls.faults }
    ensures calm { result ≢ Err ReadFileError.Failed → shelf.new.calls.faults ≡ 0 }
{
    read_file(alloc, shelf, name, 4)
}

/// After a print failed, the failure that is kept is of a print, regardless of the one kept before.
/// Promise: a refusal leaves its objects
pub fn first_failure_kept_for_the_last<R: Files + Print + Drop>(
    shelf: &mut FileShelf<R>,
    bytes: &[u8],
) -> Result<(), Failed>
    ensures { OnErr result (option_map (λ failure. failure.call) shelf.new.last ≡ Some FileCall.Print) }
{
    shelf.print(bytes)
}
