//! How a command ended, and the exit status of the program.

ghost use Rattle.std.specs.Prelude.{◌≡◌};
ghost use Rattle.air_report.specs.Statuses.{status_number};

pub(crate) mod refusal;

use air_base::NoMemory;

/// How a command ended.
#[derive(Clone, Copy, Debug, PartialEq, Eq)]
pub enum Status {
    /// The command ran to its end.
    Ok,
    /// The words are not a valid command.
    Words,
    /// The deck has a fault in this record, of this kind.
    Deck { row: u32, kind: u8 },
    /// An input file could not be read.
    ReadFault,
    /// The output or the text could not be written.
    WriteFault,
    /// Out of memory.
    NoMemory,
    /// The tape is cut in the record that begins at this byte.
    TapeCut { at: u64 },
    /// A file has more bytes than its limit.
    TooLarge { limit: u64 },
    /// The report has a fault in this record, of this kind.
    Report { row: u32, kind: u8 },
    /// A finding of the audit differs.
    Differs,
    /// The mast or the ear failed after this number of buckets.
    AirFault { at: u64 },
    /// The work would be too much: for an audit its commits times its lines, for a split its items times its items times its disks.
    TooMuch { product: u64 },
    /// The tape would have this number of bytes.
    TooLong { bytes: u64 },
    /// The program would have this number of slots; for a split, even the one with the fewest slots would.
    PlanTooLong { slots: u64 },
}

impl From<NoMemory> for Status {
    ghost use Rattle.std.specs.Prelude.{◌≡◌};
    ghost use Rattle.air_report.specs.declared.status.Status.TheVariants.{NoMemory};

    ghost from_gives = { λ _ s. s ≡ NoMemory };

    fn from(_error: NoMemory) -> Self {
        Status::NoMemory
    }
}

impl Status {
    /// The number of the status: the exit status of the program.
    pub fn code(&self) -> u8
        ensures { result ≡ status_number self.now }
    {
        match self {
            Status::Ok => 0,
            Status::Words => 1,
            Status::Deck { .. } => 2,
            Status::ReadFault => 3,
            Status::WriteFault => 4,
            Status::NoMemory => 5,
            Status::TapeCut { .. } => 6,
            Status::TooLarge { .. } => 7,
            Status::Report { .. } => 8,
            Status::Differs => 9,
            Status::AirFault { .. } => 10,
            Status::TooMuch { .. } => 11,
            Status::TooLong { .. } => 12,
            Status::PlanTooLong { .. } => 13,
        }
    }
}
