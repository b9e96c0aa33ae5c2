//! The check of a policy: which of the held reads clashes with a new one.
//!
//! The crate of a policy has the type that makes its check. `checked` keeps the reads of an attempt under each of them.

ghost use Rattle.std.specs.Prelude.{◌≡◌};
ghost use Rattle.air_base.specs.declared.verdicts.Policy.{Policy};
ghost use Rattle.air_history.specs.Clashes.{clash_by_entries};
ghost use Rattle.air_history.specs.HeldReads.{IsNew};
ghost use Rattle.held_reads.specs.HeardReads.{heard_read};

use crate::held::HeldEntries;
use air_base::Clash;

/// The check of one policy.
pub trait PolicyCheck {
    ghost policy: { Policy };

    /// Returns the held read with the least item number that clashes with the new one, by the entries of both.
    fn clash(held: &HeldEntries, item: u16, cycle: u32, entries: &[u32]) -> Option<Clash>
        requires { IsNew held.now (heard_read item cycle entries.now) }
        ensures { result ≡ clash_by_entries policy held.now.reads (heard_read item cycle entries.now) };
}
