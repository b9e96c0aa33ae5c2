//! The laws of held reads, each the contract of a function that does nothing.

ghost use Rattle.std.specs.Prelude.{◌≡◌, ◌≢◌, ℕ, false, List, All, MatchOption};
ghost use Rattle.air_base.specs.declared.verdicts.Policy.TheVariants.{FMatrix};
ghost use Rattle.air_history.specs.declared.histories.Event.{Event};
ghost use Rattle.air_history.specs.Clashes.{HeardRead, clash_by_entries};
ghost use Rattle.air_history.specs.ClashLaws.{HasAiredEntries, HasCappedEntries};
ghost use Rattle.air_history.specs.Columns.{group_scheme};
ghost use Rattle.air_history.specs.HeldReads.{HeldReads, IsNew};
ghost use Rattle.column_check.specs.Searches.{disagree, IsLeastClash};

/// If no held read disagrees with the new one, F-Matrix names no clash; otherwise it names the one with the least item number.
pub fn names_least_law()
    ensures { (R : List HeardRead) (x : HeardRead) →
        MatchOption (clash_by_entries FMatrix R x) (All (λ r. disagree x r ≡ false) R) (IsLeastClash R x) }
{}

/// A read is a new one, so it may be tried, if its item isn't held and it has the column of a history at its cycle, or its group
/// column by groups of g, in full or as ages give it.
pub fn aired_is_new_law()
    ensures capped { (g : ℕ) (held : HeldReads) (H : List Event) (x : HeardRead) →
        HasCappedEntries (group_scheme g) held.n H x → All (λ r. r.item ≢ x.item) held.reads → IsNew held x }
    ensures full { (g : ℕ) (held : HeldReads) (H : List Event) (x : HeardRead) →
        HasAiredEntries (group_scheme g) held.n H x → All (λ r. r.item ≢ x.item) held.reads → IsNew held x }
{}
