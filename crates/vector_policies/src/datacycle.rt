//! The check of Datacycle, by write vectors: held reads stay current at the newest cycle with the new one.
//!
//! If the new cycle is the newest, the new vector decides; otherwise that of the first held read of the newest cycle. A
//! receiver's attempts use this check.

ghost use Rattle.air_base.specs.declared.verdicts.Policy.TheVariants.{Datacycle};

use air_base::Clash;
use held_reads::{CheckedReads, HeldEntries, PolicyCheck};

/// The check by write vectors at the newest cycle.
#[derive(Debug, Drop)]
pub struct DatacycleCheck;

impl PolicyCheck for DatacycleCheck {
    ghost policy = { Datacycle };

    /// The held read with the least item number that is stale at the newest cycle.
    #[tactic(auto, using(crate::proofs::PolicyLemmas::named_at_newest, crate::proofs::PolicyLemmas::none_at_newest, crate::proofs::PolicyLemmas::named_of_newest))]
    fn clash(held: &HeldEntries, item: u16, cycle: u32, vector: &[u32]) -> Option<Clash> {
        let newest = held.newest();
        if cycle >= newest {
            return held.least_reached(vector);
        }
        if held.first_entry(newest, item) < cycle {
            return None;
        }
        held.least_of_cycle(newest)
    }
}

/// The reads that an attempt holds under Datacycle, each with the write vector that was heard with it.
pub type DataHeld = CheckedReads<DatacycleCheck>;
