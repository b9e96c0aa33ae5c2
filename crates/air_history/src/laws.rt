//! The laws of histories: how the definitions of `air_history` are related, for every history.
//!
//! Each function's contract is one law; the bodies are empty. A reader has to believe the definitions; the laws follow from
//! them. They are in a file of their own so that they are proved only once: no test and no edit has them proved again.

ghost use Rattle.std.specs.Prelude.{◌≡◌, ◌≢◌, ◌↔◌, ◌⊎◌, ℕ, ◌<◌, ◌≤◌, Bool, false, cond, List, [], ◌∷◌, ◌++◌, length, map, All, AllPairs, Contains, IfSome, IsTrue, None};
ghost use Rattle.air_base.specs.declared.limits.TheConstants.{MOST_READS, MOST_WRITES};
ghost use Rattle.air_base.specs.declared.verdicts.Policy.TheVariants.{FMatrix, Datacycle, RMatrix};
ghost use Rattle.air_history.specs.declared.histories.Event.{Event};
ghost use Rattle.air_history.specs.UpdateLists.{UpdateLists};
ghost use Rattle.air_history.specs.UpdateRules.{written_item, KeepsRules};
ghost use Rattle.air_history.specs.Places.{greatest_of};
ghost use Rattle.air_history.specs.Histories.{writes, reads, cycle_at, front};
ghost use Rattle.air_history.specs.Descents.{descends};
ghost use Rattle.air_history.specs.DescentLaws.{IsClosed};
ghost use Rattle.air_history.specs.Columns.{Scheme, aired_entries, column, column_entry, entry_at, group_scheme, vector_entry};
ghost use Rattle.air_history.specs.Tables.{table, BasesRead};
ghost use Rattle.air_history.specs.Reads.{ReadAt, IsRead, read_value};
ghost use Rattle.air_history.specs.Consistency.{alone, IsConsistent};
ghost use Rattle.air_history.specs.ConsistencyLaws.{SharesCycle};
ghost use Rattle.air_history.specs.Clashes.{HeardRead, read_at, is_late, clash_by_history, clash_by_entries, clash_of, group_clash, named_clash, IsCurrent, Takes};
ghost use Rattle.air_history.specs.ClashLaws.{HaveAiredEntries, IsAllowed, IsWrittenBetween, Accepts, IsSound};

/// Two lists break no rule if and only if each rule holds: reads and writes are within their limits, there is at least one
/// write, no item is twice among the reads or among the writes, each base is read, and a minus has a base.
pub fn rules_law()
    ensures { (u : UpdateLists) → KeepsRules u ↔
        ((length u.reads ≤ MOST_READS) × (1 ≤ length u.writes) × (length u.writes ≤ MOST_WRITES)
        × AllPairs (λ a b. a ≢ b) u.reads × AllPairs (λ a b. a ≢ b) (map written_item u.writes)
        × All (λ w. IfSome w.base (Contains u.reads)) u.writes
        × All (λ w. w.base ≡ None → w.minus ≡ false) u.writes) }
{}

/// The descent of a place is the least set that holds the place and, with each of its places, each place that this one reads
/// from.
pub fn descent_law()
    ensures itself { (G : List Event) (p : ℕ) → IsTrue (descends G p p) }
    ensures closed { (G : List Event) (p : ℕ) → IsClosed G (descends G p) }
    ensures least { (G : List Event) (p : ℕ) (S : ℕ → Bool) → IsTrue (S p) → IsClosed G S →
        (q : ℕ) → IsTrue (descends G p q) → IsTrue (S q) }
{}

/// Two reads are consistent if and only if neither's column has the other's item at the other's cycle or later. They are
/// inconsistent if and only if one's column has it.
pub fn pair_law()
    ensures consistent { (H : List Event) (r s : ReadAt) → IsRead r → IsRead s →
        IsConsistent H (r ∷ s ∷ []) ↔
        ((entry_at H s.cycle s.item r.item < r.cycle) × (entry_at H r.cycle r.item s.item < s.cycle)) }
    ensures inconsistent { (H : List Event) (r s : ReadAt) → IsRead r → IsRead s →
        (IsConsistent H (r ∷ s ∷ []) → ⊥) ↔
        ((r.cycle ≤ entry_at H s.cycle s.item r.item) ⊎ (s.cycle ≤ entry_at H r.cycle r.item s.item)) }
{}

/// Reads are consistent if and only if each two of them are.
pub fn whole_law()
    ensures { (H : List Event) (R : List ReadAt) → All IsRead R →
        IsConsistent H R ↔ AllPairs (λ r s. IsConsistent H (r ∷ s ∷ [])) R }
{}

/// One more read keeps reads consistent if and only if it is consistent with each of them.
pub fn more_law()
    ensures { (H : List Event) (R : List ReadAt) (x : ReadAt) → All IsRead R → IsRead x → IsConsistent H R →
        IsConsistent H (R ++ x ∷ []) ↔ All (λ r. IsConsistent H (r ∷ x ∷ [])) R }
{}

/// One more event changes the entry of item i in the column of item j. If the event writes both, the entry becomes the present
/// cycle. If it writes only j, the entry becomes the greatest entry of i in a column that the event reads. Otherwise it stays.
pub fn column_law()
    ensures { (G : List Event) (e : Event) (j i : ℕ) → column_entry (G ++ e ∷ []) j i ≡
        cond (writes e j)
        (cond (writes e i) (cycle_at G (length G)) (greatest_of (λ r. column_entry G r i) (reads e)))
        (column_entry G j i) }
{}

/// One more event puts the present cycle into the vector at the items that it writes, and leaves the others as they are.
pub fn vector_law()
    ensures { (G : List Event) (e : Event) (i : ℕ) →
        vector_entry (G ++ e ∷ []) i ≡ cond (writes e i) (cycle_at G (length G)) (vector_entry G i) }
{}

/// Consistent reads have the values that the updates from which they descend give when they run alone, in commit order.
pub fn values_law()
    ensures { (V : ℕ → ℕ) (H : List Event) (R : List ReadAt) → All BasesRead H → IsConsistent H R →
        All (λ r. table V (alone H R) r.item ≡ read_value V H r) R }
{}

/// Reads that share a cycle are consistent.
pub fn one_cycle_law()
    ensures { (H : List Event) (R : List ReadAt) (g : ℕ) → All IsRead R → SharesCycle H R g → IsConsistent H R }
{}

/// The clash by the entries is the clash by the history if the entries are the history's, in full or, for reads that aren't too
/// far apart, as ages give them.
pub fn clash_law()
    ensures { (scheme : Scheme) (n : ℕ) (H : List Event) (R : List HeardRead) (x : HeardRead) → HaveAiredEntries scheme n H R x →
        IsAllowed scheme.policy (map read_at R ++ read_at x ∷ []) →
        clash_of scheme n H (map read_at R) (read_at x) ≡ clash_by_entries scheme.policy R x }
{}

/// If the entries are the group columns of a history, in full or as ages give them, F-Matrix's clash by the entries is the held
/// read with the least item number among those that clash with the new one by groups.
pub fn group_clash_law()
    ensures { (g n : ℕ) (H : List Event) (R : List HeardRead) (x : HeardRead) → 0 < g → HaveAiredEntries (group_scheme g) n H R x →
        clash_by_entries FMatrix R x ≡ named_clash (λ r. group_clash H g n r (read_at x)) (map read_at R) }
{}

/// Groups of one item are no groups: the clash is that of F-Matrix, and an item is aired with its control column.
pub fn one_law()
    ensures clash { (n : ℕ) (H : List Event) (R : List ReadAt) (x : ReadAt) →
        clash_of (group_scheme 1) n H R x ≡ clash_by_history FMatrix H R x }
    ensures aired { (n : ℕ) (H : List Event) (c j : ℕ) → aired_entries (group_scheme 1) n H c j ≡ column n (front H c) j }
{}

/// If one group has all items, two reads of unequal cycles clash if and only if the older one's item was written in its cycle or
/// later, before the newer cycle.
pub fn all_law()
    ensures older { (g n : ℕ) (H : List Event) (r x : ReadAt) → n ≤ g → r.item < n → x.item < n → IsRead r → r.cycle < x.cycle →
        IsTrue (group_clash H g n r x) ↔ IsWrittenBetween H r.item r.cycle x.cycle }
    ensures newer { (g n : ℕ) (H : List Event) (r x : ReadAt) → n ≤ g → r.item < n → x.item < n → IsRead x → x.cycle < r.cycle →
        IsTrue (group_clash H g n r x) ↔ IsWrittenBetween H x.item x.cycle r.cycle }
{}

/// After consistent reads, F-Matrix has no clash if and only if the reads stay consistent.
pub fn stays_consistent_law()
    ensures { (H : List Event) (R : List ReadAt) (x : ReadAt) → All IsRead R → IsRead x → IsConsistent H R →
        (clash_by_history FMatrix H R x ≡ None) ↔ IsConsistent H (R ++ x ∷ []) }
{}

/// After current reads, Datacycle has no clash if and only if the reads stay current.
pub fn stays_current_law()
    ensures { (H : List Event) (R : List ReadAt) (x : ReadAt) → All IsRead R → IsRead x → IsCurrent H R →
        (clash_by_history Datacycle H R x ≡ None) ↔ IsCurrent H (R ++ x ∷ []) }
{}

/// R-Matrix has no clash with a read that isn't late if and only if it takes the read.
pub fn takes_law()
    ensures { (H : List Event) (R : List ReadAt) (x : ReadAt) → is_late RMatrix R x ≡ false →
        (clash_by_history RMatrix H R x ≡ None) ↔ Takes H R x }
{}

/// Reads that a scheme accepted one after another are consistent, and share the cycle that its policy gives them.
pub fn accepted_law()
    ensures { (scheme : Scheme) (n : ℕ) (H : List Event) (R : List ReadAt) → All IsRead R → Accepts scheme n H R →
        IsSound scheme.policy H R }
{}
