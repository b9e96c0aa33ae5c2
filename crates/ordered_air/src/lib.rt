//! The law of air that comes in order of cycles: under F-Matrix a receiver that keeps no copies needs no column of a held read.
//!
//! An entry of a bucket is below its cycle. So if no held read is of a later cycle than the new one, no held column has the new read's item at its
//! cycle or later, and the new column alone says with which held reads the new one clashes. The function's contract is the law; its body is empty.
#![tactic(auto)]

ghost use Rattle.std.specs.Prelude.{◌≡◌, ◌<◌, ◌≤◌, nat_le, List, All};
ghost use Rattle.air_base.specs.declared.verdicts.Policy.TheVariants.{FMatrix};
ghost use Rattle.air_history.specs.Clashes.{HeardRead, clash_by_entries, entry_of, heard_clash};

/// If each held read has entries below its cycle and isn't of a later cycle than the new one, F-Matrix names the same clash by the new read's
/// entries alone: the held read of least item among those whose item the new read has at their cycle or later.
pub fn thin_law()
    ensures { (R : List HeardRead) (x : HeardRead) → All (λ r. All (λ e. e < r.cycle) r.entries × (r.cycle ≤ x.cycle)) R →
        clash_by_entries FMatrix R x ≡ heard_clash (λ r. nat_le r.cycle (entry_of x r.item)) R }
{}
