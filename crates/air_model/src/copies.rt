//! The laws of kept copies: how many stay, which one is dropped, and that no choice has a greater sum.
//!
//! `specs/Copies.antt` has the definitions. The cache and the session of a receiver depend on them.

ghost use Rattle.std.specs.Prelude.{◌≡◌, ◌≢◌, ℕ, ◌≤◌, min, List, ◌∷◌, ◌++◌, length, sum_by, All, AllPairs, IsTrue, IsPermutation};
ghost use Rattle.air_model.specs.Reads.{Read};
ghost use Rattle.air_model.specs.Copies.{HaveOwnItems, goes_before, keep, pix_of, with_copy};

/// When a new copy comes, the copies stay by rising item number.
pub fn keep_own_law()
    ensures { (room : ℕ) (pix : List ℕ) (copies : List Read) (x : Read) → HaveOwnItems copies →
        HaveOwnItems (keep room pix (with_copy x copies)) }
{}

/// If there is room for all copies, all stay.
pub fn keep_all_law()
    ensures { (room : ℕ) (pix : List ℕ) (copies : List Read) → length copies ≤ room →
        keep room pix copies ≡ copies }
{}

/// If there is one copy too many, the one that comes last in the order is dropped.
pub fn keep_one_law()
    ensures { (room : ℕ) (pix : List ℕ) (before behind : List Read) (least : Read) →
        length (before ++ behind) ≡ room → All (λ r. IsTrue (goes_before pix r least)) (before ++ behind) →
        keep room pix (before ++ least ∷ behind) ≡ before ++ behind }
{}

/// Of copies of different items, as many stay as there is room for, or all if there are fewer.
pub fn keep_count_law()
    ensures { (room : ℕ) (pix : List ℕ) (copies : List Read) → AllPairs (λ a b. a.item ≢ b.item) copies →
        length (keep room pix copies) ≡ min room (length copies) }
{}

/// No choice of as many copies has a greater sum of PIX numbers than those that stay: `chosen` and `rest` are any
/// two parts of the copies, in any order.
pub fn keep_most_law()
    ensures { (room : ℕ) (pix : List ℕ) (copies chosen rest : List Read) → IsPermutation (chosen ++ rest) copies →
        length chosen ≤ length (keep room pix copies) →
        sum_by (pix_of pix) chosen ≤ sum_by (pix_of pix) (keep room pix copies) }
{}
