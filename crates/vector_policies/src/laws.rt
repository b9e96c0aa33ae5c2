//! The law of held reads, the contract of a function that does nothing.

ghost use Rattle.std.specs.Prelude.{◌≢◌, List, All};
ghost use Rattle.air_base.specs.declared.verdicts.Policy.TheVariants.{Datacycle, RMatrix};
ghost use Rattle.air_history.specs.declared.histories.Event.{Event};
ghost use Rattle.air_history.specs.Clashes.{HeardRead};
ghost use Rattle.air_history.specs.ClashLaws.{HasAiredEntries, HasCappedEntries};
ghost use Rattle.air_history.specs.Columns.{scheme_of};
ghost use Rattle.air_history.specs.HeldReads.{HeldReads, IsNew};

/// A read may be tried if its item isn't held and a history has its vector at its cycle, in full or as ages give it.
pub fn aired_is_new_law()
    ensures capped_datacycle { (held : HeldReads) (H : List Event) (x : HeardRead) →
        HasCappedEntries (scheme_of Datacycle) held.n H x → All (λ r. r.item ≢ x.item) held.reads → IsNew held x }
    ensures capped_r_matrix { (held : HeldReads) (H : List Event) (x : HeardRead) →
        HasCappedEntries (scheme_of RMatrix) held.n H x → All (λ r. r.item ≢ x.item) held.reads → IsNew held x }
    ensures datacycle { (held : HeldReads) (H : List Event) (x : HeardRead) →
        HasAiredEntries (scheme_of Datacycle) held.n H x → All (λ r. r.item ≢ x.item) held.reads → IsNew held x }
    ensures r_matrix { (held : HeldReads) (H : List Event) (x : HeardRead) →
        HasAiredEntries (scheme_of RMatrix) held.n H x → All (λ r. r.item ≢ x.item) held.reads → IsNew held x }
{}
