//! How the listing, the spelling and the reading are related. Each law is the contract of a function that does nothing.

ghost use Rattle.std.specs.Prelude.{◌≡◌, ◌≤◌, ◌<◌, ◌+◌, ◌*◌, ◌++◌, ◌^◌, ℕ, List, All, nat_lt, true, drop, length, slice_index, take};
ghost use Rattle.std.specs.List.{count_by};
ghost use Rattle.air_history.specs.Ages.{capped};
ghost use Rattle.short_columns.specs.Listings.{listed_entry, listed, rise, unlisted};
ghost use Rattle.short_columns.specs.ShortColumns.{is_listing, two_at, pairs_at, short_entries, short_spelling};

/// The list of entries and the entries of the list give each other back.
pub fn listing_law()
    ensures entries_back { (entries : List ℕ) → unlisted (length entries) (listed entries) ≡ entries }
    ensures pairs_back { (n : ℕ) (pairs : List (ℕ × ℕ)) → rise (nat_lt 0) 0 n pairs ≡ true → listed (unlisted n pairs) ≡ pairs }
    ensures rise { (entries : List ℕ) → rise (nat_lt 0) 0 (length entries) (listed entries) ≡ true }
{}

/// How long lists and their bytes are, how many entries are listed, and which entry an item of a list has.
pub fn length_law()
    ensures listed { (entries : List ℕ) → length (listed entries) ≤ length entries }
    ensures count { (entries : List ℕ) → length (listed entries) ≡ count_by (nat_lt 0) entries }
    ensures unlisted { (n : ℕ) (pairs : List (ℕ × ℕ)) → length (unlisted n pairs) ≡ n }
    ensures spelling { (c : ℕ) (pairs : List (ℕ × ℕ)) → length (short_spelling c pairs) ≡ 2 + 3 * length pairs }
    ensures entry { (n item : ℕ) (pairs : List (ℕ × ℕ)) → item < n → slice_index (unlisted n pairs) item ≡ listed_entry item pairs }
{}

/// The spelling of a column's list is a listing, and it tells the column's entries, wherever it is.
pub fn spelling_law()
    ensures { (c at : ℕ) (entries front rest : List ℕ) → length front ≡ at → length entries < 2 ^ 16 → All (λ e. e < c) entries → All (λ e. capped e c ≡ e) entries →
        let bytes = front ++ (short_spelling c (listed entries) ++ rest) in
        (two_at at bytes ≡ length (listed entries)) × (is_listing c (length entries) at bytes ≡ true) × (short_entries c (length entries) at bytes ≡ entries) }
{}

/// A listing is the spelling of the list of the entries that it tells, and these can be aired.
pub fn reading_law()
    ensures { (c n at : ℕ) (bytes : List ℕ) → All (λ x. x < 256) bytes → 1 ≤ c → at + 2 + 3 * two_at at bytes ≤ length bytes → is_listing c n at bytes ≡ true →
        let entries = short_entries c n at bytes in
        (take (2 + 3 * two_at at bytes) (drop at bytes) ≡ short_spelling c (listed entries)) × All (λ e. e < c) entries × All (λ e. capped e c ≡ e) entries }
{}
