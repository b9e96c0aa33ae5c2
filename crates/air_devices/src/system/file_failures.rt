//! What the system said of a call that failed.
//!
//! Nothing here takes memory: as much of the name is kept as its own room has place for.

ghost use Rattle.std.specs.Prelude.{◌≡◌, ◌≤◌, length, take};

use arrayvec::ArrayString;
use std::{fmt, io};

/// How many bytes of a name there is room for, which is the system's own limit.
pub(crate) const NAME_ROOM: usize = 4096;

/// What was done.
#[derive(Clone, Copy, Debug, PartialEq, Eq)]
pub enum FileCall {
    Pick,
    Read,
    Create,
    Append,
    Print,
}

impl fmt::Display for FileCall {
    fn fmt<W: fmt::Write>(&self, f: &mut fmt::Formatter<W>) -> fmt::Result {
        f.write_str(match self {
            FileCall::Pick => "opening",
            FileCall::Read => "reading",
            FileCall::Create => "creating",
            FileCall::Append => "writing",
            FileCall::Print => "printing",
        })
    }
}

/// A call that failed: what was done, to which name, and the error.
#[derive(Drop)]
pub struct FileFailure {
    call: FileCall,
    name: ArrayString<NAME_ROOM>,
    error: io::Error,
}

impl FileFailure {
    /// The failure of a call that was given this name.
    pub(crate) fn new(call: FileCall, name: &str, error: io::Error) -> FileFailure
        ensures call { result.call ≡ call }
        ensures name { length name.now ≤ NAME_ROOM → result.name.bytes ≡ name.now }
        ensures beginning { result.name.bytes ≡ take (length result.name.bytes) name.now }
        ensures error { result.error ≡ error }
    {
        let mut kept = ArrayString::new();
        kept.push_str(beginning(name));
        FileFailure {
            call,
            name: kept,
            error,
        }
    }

    /// What was done.
    pub fn call(&self) -> FileCall
        ensures { result ≡ self.now.call }
    {
        self.call
    }

    /// The first 4,096 bytes of the name that the call was given; a print has none.
    pub fn name(&self) -> &str
        ensures { result.now ≡ self.now.name.bytes }
    {
        self.name.as_str()
    }

    /// The error.
    pub fn error(&self) -> io::Error
        ensures { result ≡ self.now.error }
    {
        self.error
    }
}

impl fmt::Display for FileFailure {
    fn fmt<W: fmt::Write>(&self, f: &mut fmt::Formatter<W>) -> fmt::Result {
        if self.name.as_str().is_empty() {
            return write!(f, "{}: {}", self.call, self.error);
        }
        write!(f, "{} {}: {}", self.call, self.name.as_str(), self.error)
    }
}

/// As much of a name as there is room for, up to the end of a character.
fn beginning(name: &str) -> &str
    ensures whole { length name.now ≤ NAME_ROOM → result.now ≡ name.now }
    ensures beginning { result.now ≡ take (length result.now) name.now }
    ensures fits { length result.now ≤ NAME_ROOM }
{
    if name.len() <= NAME_ROOM {
        return name;
    }
    &name[..name.floor_char_boundary(NAME_ROOM)]
}
