//! What the system said of a call that failed.

use crate::notes::word;
use crate::plain_files::ReadsAgain;
use air_base::NoMemory;
use air_devices::{FileCall, FileFailure, NetFailure};
use air_report::Status;
use fault_notes::{ShownText, air_note};
use std::alloc::Global;
use std::io;

/// Whether a print failed because the pipe was closed, as with `| head`.
fn is_closed_pipe(failure: &FileFailure) -> bool {
    failure.call() == FileCall::Print && failure.error().kind() == io::ErrorKind::BrokenPipe
}

/// Whether a command failed to read, and then to print its refusal: the system's words on the read are lost.
fn is_of_the_line(failure: &FileFailure, status: Status) -> bool {
    failure.call() == FileCall::Print && status == Status::ReadFault
}

/// A hint on a name that couldn't be opened, and a command to follow it; both empty if there is no hint.
fn hint_on<'a>(failure: &FileFailure, words: &'a [String]) -> (&'static str, &'a str) {
    if failure.call() != FileCall::Pick {
        return ("", "");
    }
    let name = failure.name();
    if name == "-" {
        return ("; the name of standard input is /dev/stdin", "");
    }
    if name == "--help" || name == "-h" {
        return ("; for help: airdisk help ", word(words, 0));
    }
    ("", "")
}

/// A note on a file that can't be read, if the system's words are lost.
fn unread_note(alloc: Global) -> Result<String, NoMemory> {
    let mut note = String::new(alloc);
    note.push_str("airdisk: a file can't be read, and the line that says so can't be printed")?;
    Ok(note)
}

/// What the system said of the last call that failed, or `None`; also `None` if all that failed was a print to a closed pipe.
pub fn failure_note<F: ReadsAgain>(
    alloc: Global,
    words: &[String],
    files: &F,
    status: Status,
) -> Result<Option<String>, NoMemory> {
    match files.last_failure() {
        Some(failure) if is_of_the_line(failure, status) => Ok(Some(unread_note(alloc)?)),
        Some(failure) if !is_closed_pipe(failure) => {
            let said = format!(in alloc; "{failure}")?;
            let said = ShownText::whole(said.as_str());
            let (hint, command) = hint_on(failure, words);
            Ok(Some(format!(in alloc; "airdisk: {said}{hint}{command}")?))
        }
        _ => Ok(None),
    }
}

/// What the system said of the mast or the ear that failed after this number of datagrams, or `None` if it said nothing.
pub fn air_failure_note(
    alloc: Global,
    air: Option<&NetFailure>,
    after: u64,
) -> Result<Option<String>, NoMemory> {
    match air {
        Some(failure) => {
            let said = format!(in alloc; "{failure}")?;
            Ok(Some(air_note(alloc, said.as_str(), after)?))
        }
        None => Ok(None),
    }
}
