//! The check of R-Matrix, by write vectors: reads come in the order of cycles. A read is taken if no held one is stale at its
//! cycle, or if its item wasn't written since the first held cycle.
//!
//! A receiver's attempts use this check.

ghost use Rattle.air_base.specs.declared.verdicts.Policy.TheVariants.{RMatrix};

use air_base::Clash;
use held_reads::{CheckedReads, HeldEntries, PolicyCheck};

/// The check by write vectors at the new read's cycle.
#[derive(Debug, Drop)]
pub struct RMatrixCheck;

impl PolicyCheck for RMatrixCheck {
    ghost policy = { RMatrix };

    /// The held read with the least item number that is stale at the new cycle; None if the new item wasn't written since the
    /// first held cycle.
    #[tactic(auto, using(crate::proofs::PolicyLemmas::none_below_first, crate::proofs::PolicyLemmas::named_from_first))]
    fn clash(held: &HeldEntries, item: u16, _cycle: u32, vector: &[u32]) -> Option<Clash> {
        if vector[item as usize] < held.first() {
            return None;
        }
        held.least_reached(vector)
    }
}

/// The reads that an attempt holds under R-Matrix, each with the write vector that was heard with it; their cycles never fall.
pub type RHeld = CheckedReads<RMatrixCheck>;
