//! How a command ends: its text and its tape are delivered, or the line of its refusal is printed.

ghost use Rattle.std.specs.Prelude.{option_map, MatchResult};
ghost use Rattle.air_cli.specs.Private.Endings.{EndsGiven, EndsUnmade};

use crate::outputs::deliver;
use crate::outputs::refusals::refuse;
use crate::outputs::report_and_tape::ReportAndTape;
use air_devices::Shelf;
use air_report::Status;
use std::alloc::Global;

/// Delivers what a command made, with its tape to the output of this name, if one is named; or refuses. Out of memory it does nothing more.
pub(crate) fn give_or_refuse<S: Shelf>(
    alloc: Global,
    shelf: &mut S,
    output: Option<&str>,
    made: Result<ReportAndTape, Status>,
) -> Status
    ensures { MatchResult made
        (λ given. EndsGiven (option_map (λ name. name.now) output.entry) given (S.state shelf.old) (S.state shelf.new) result)
        (λ s. EndsUnmade s (S.state shelf.old) (S.state shelf.new) result) }
{
    match made {
        Ok(given) => deliver(shelf, output, &given),
        Err(status) => refuse_unmade(alloc, shelf, status),
    }
}

/// Refuses with this status. Out of memory it does nothing more.
pub(crate) fn refuse_unmade<S: Shelf>(alloc: Global, shelf: &mut S, status: Status) -> Status
    ensures { EndsUnmade status (S.state shelf.old) (S.state shelf.new) result }
{
    match status {
        Status::NoMemory => Status::NoMemory,
        _ => refuse(alloc, shelf, status),
    }
}
