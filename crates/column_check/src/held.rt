//! The check of F-Matrix, by control columns: two reads clash if either's column has the other's item at the other's cycle or
//! later.
//!
//! One search tests the new column against all held cycles, the other each held column. A receiver's attempts use this check.

ghost use Rattle.std.specs.Prelude.{◌≡◌};
ghost use Rattle.air_base.specs.declared.verdicts.Policy.TheVariants.{FMatrix};
ghost use Rattle.column_check.specs.Private.LesserOfTwo.{lesser_of_both};

use air_base::Clash;
use held_reads::{CheckedReads, HeldEntries, PolicyCheck, lesser_clash};

/// The check by control columns.
#[derive(Debug, Drop)]
pub struct ColumnCheck;

impl PolicyCheck for ColumnCheck {
    ghost policy = { FMatrix };

    /// The held read with the least item number that clashes by its column or by the new one.
    #[tactic(auto, using(crate::proofs::BothLemmas::both_is))]
    fn clash(held: &HeldEntries, item: u16, cycle: u32, column: &[u32]) -> Option<Clash> {
        held.shows_held_once();
        let clash = held.least_reached(column);
        lesser_of_two(clash, held.least_having(item, cycle))
    }
}

/// The reads that an attempt holds under F-Matrix, each with its control column.
pub type Held = CheckedReads<ColumnCheck>;

/// Of two clashes, if there are any, the one with the lesser item number.
fn lesser_of_two(clash: Option<Clash>, other: Option<Clash>) -> Option<Clash>
    ensures { result ≡ lesser_of_both clash other }
{
    match other {
        Some(other) => Some(lesser_clash(clash, other)),
        None => clash,
    }
}
