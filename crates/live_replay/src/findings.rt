//! What the audit finds of a line, and why there is no audit.

use air_base::NoMemory;
use std::alloc::{AllocError, AllocFailed};
use std::error::Error;
use std::fmt;

/// In what a line differs from its replay.
#[derive(Clone, Copy, Debug, PartialEq, Eq)]
pub enum Cause {
    /// A read's value is another.
    Value,
    /// A read that should pass doesn't; or the refused read passes or comes too late; or the reads lie nearer or farther apart than the
    /// verdict says.
    Verdict,
    /// The refused read clashes with another item.
    Clash,
    /// The total of a glance or a look is another.
    Total,
}

/// What is found of the line in a row: that it agrees, or the first cause why it differs.
#[derive(Clone, Copy, Debug, PartialEq, Eq)]
pub struct Finding {
    pub row: u32,
    pub differs: Option<Cause>,
}

/// Why there are no findings.
#[derive(Clone, Copy, Debug, PartialEq, Eq)]
pub enum AuditError {
    /// The product of commits and lines, which is above the limit.
    TooMuch { product: u64 },
    /// There was no memory.
    NoMemory,
}

impl From<NoMemory> for AuditError {
    ghost use Rattle.std.specs.Prelude.{◌≡◌};
    ghost use Rattle.live_replay.specs.declared.findings.AuditError.TheVariants.{NoMemory};

    ghost from_gives = { λ _ e. e ≡ NoMemory };

    fn from(_error: NoMemory) -> Self {
        AuditError::NoMemory
    }
}

impl From<AllocError> for AuditError {
    ghost use Rattle.std.specs.Prelude.{◌≡◌};
    ghost use Rattle.live_replay.specs.declared.findings.AuditError.TheVariants.{NoMemory};

    ghost from_gives = { λ _ e. e ≡ NoMemory };

    fn from(_error: AllocError) -> Self {
        AuditError::NoMemory
    }
}

impl<T: Drop> From<AllocFailed<T>> for AuditError {
    ghost use Rattle.std.specs.Prelude.{◌≡◌};
    ghost use Rattle.live_replay.specs.declared.findings.AuditError.TheVariants.{NoMemory};

    ghost from_gives = { λ _ e. e ≡ NoMemory };

    fn from(_error: AllocFailed<T>) -> Self {
        AuditError::NoMemory
    }
}

impl fmt::Display for AuditError {
    fn fmt<W: fmt::Write>(&self, f: &mut fmt::Formatter<W>) -> fmt::Result {
        match self {
            AuditError::TooMuch { product } => write!(f, "{product} replays are too many"),
            AuditError::NoMemory => f.write_str("out of memory"),
        }
    }
}

impl Error for AuditError {}
