//! Why a text isn't a report of a deck.

ghost use Rattle.std.specs.Prelude.{◌≡◌};
ghost use Rattle.air_report.specs.Kinds.{report_kind_number};

use crate::reading::kinds::ReportFaultKind;
use air_base::NoMemory;
use std::error::Error;
use std::fmt;

/// Why there is no report.
#[derive(Clone, Copy, Debug, PartialEq, Eq)]
pub enum ReportError {
    /// The first faulty record of the text, counted from 1, and the least kind of fault that applies there.
    Fault { row: u32, kind: u8 },
    /// Out of memory.
    NoMemory,
}

impl ReportError {
    /// The fault of this kind at this record.
    pub(crate) fn at(row: u32, kind: ReportFaultKind) -> ReportError
        ensures { result ≡ ReportError.Fault row (report_kind_number kind) }
    {
        ReportError::Fault {
            row,
            kind: kind.code(),
        }
    }
}

/// What is wrong with a record that has a fault of this kind.
fn what(kind: u8) -> &'static str {
    match kind {
        1 => "its tag has another number of fields",
        2 => "a field isn't of its form, or a number is too great",
        3 => "its tag is unknown",
        4 => "a line of a later section stands before it",
        5 => "a commit isn't its updater's next",
        6 => "what it names isn't the deck's, or its items don't follow the query",
        7 => "a cycle hasn't begun before it",
        _ => "there is a fault",
    }
}

impl fmt::Display for ReportError {
    fn fmt<W: fmt::Write>(&self, f: &mut fmt::Formatter<W>) -> fmt::Result {
        match self {
            ReportError::Fault { row, kind } => {
                let what = what(*kind);
                write!(f, "record {row}: {what}")
            }
            ReportError::NoMemory => f.write_str("out of memory"),
        }
    }
}

impl Error for ReportError {}

impl From<NoMemory> for ReportError {
    ghost use Rattle.std.specs.Prelude.{◌≡◌};
    ghost use Rattle.air_report.specs.declared.reading.faults.ReportError.TheVariants.{NoMemory};

    ghost from_gives = { λ _ e. e ≡ NoMemory };

    fn from(_error: NoMemory) -> Self {
        ReportError::NoMemory
    }
}
