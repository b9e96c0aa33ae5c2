//! Why a record adds nothing to what was read.

use air_base::NoMemory;
use std::alloc::{AllocError, AllocFailed};

/// A fault of this kind applies, or there was no memory.
#[derive(Clone, Copy, Debug, PartialEq, Eq)]
pub enum Refusal<K> {
    Kind(K),
    NoMemory,
}

impl<K> From<AllocError> for Refusal<K> {
    ghost use Rattle.std.specs.Prelude.{◌≡◌};
    ghost use Rattle.item_catalog.specs.declared.records.refusals.Refusal.TheVariants.{NoMemory};

    ghost from_gives = { λ _ e. e ≡ NoMemory };

    fn from(_error: AllocError) -> Self {
        Refusal::NoMemory
    }
}

impl<K, T: Drop> From<AllocFailed<T>> for Refusal<K> {
    ghost use Rattle.std.specs.Prelude.{◌≡◌};
    ghost use Rattle.item_catalog.specs.declared.records.refusals.Refusal.TheVariants.{NoMemory};

    ghost from_gives = { λ _ e. e ≡ NoMemory };

    fn from(_error: AllocFailed<T>) -> Self {
        Refusal::NoMemory
    }
}

impl<K> From<NoMemory> for Refusal<K> {
    ghost use Rattle.std.specs.Prelude.{◌≡◌};
    ghost use Rattle.item_catalog.specs.declared.records.refusals.Refusal.TheVariants.{NoMemory};

    ghost from_gives = { λ _ e. e ≡ NoMemory };

    fn from(_error: NoMemory) -> Self {
        Refusal::NoMemory
    }
}
