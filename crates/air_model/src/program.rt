//! The laws of the order, the cut and the broadcast program.
//!
//! Each function's contract is one law of the definitions in `Disks`, `Programs` and `Airings` of `specs/`; the bodies are
//! empty. `cut` and `plan` depend on them: each item is aired as often as its disk says, at one distance.

ghost use Rattle.std.specs.Prelude.{◌≡◌, ◌<◌, ◌↔◌, ℕ, ◌+◌, ◌-◌, ◌*◌, ◌%◌, List, Some, All, Contains, length, slice_get, sum_by};
ghost use Rattle.air_model.specs.Disks.{Disk, DiskSpec, all_items, cut, order};
ghost use Rattle.air_model.specs.Programs.{minor_len, num_chunks, num_minors, program};
ghost use Rattle.air_model.specs.Airings.{ComesEvery, IsNextWake, airings, chunks_of, disk_number, gap_of, next_wake};
ghost use Rattle.air_model.specs.ProgramLaws.{IsAirable, IsOrder};

/// The order is the only list that is in order and holds all items, each once.
pub fn order_law()
    ensures { (rates items : List ℕ) → IsOrder rates items ↔ (items ≡ order rates) }
{}

/// Disks cut from the order can be aired if their frequencies are above 0, and hold all items if their sizes add up to the
/// number of items.
pub fn cut_law()
    ensures { (rates : List ℕ) (specs : List DiskSpec) →
        (All (λ s. 0 < s.freq) specs → IsAirable (cut (order rates) specs))
        × (sum_by (λ s. s.size) specs ≡ length rates → all_items (cut (order rates) specs) ≡ order rates) }
{}

/// The number of minor cycles is the least common multiple of the frequencies: it is above 0, each frequency divides it, and it
/// divides each number that they all divide.
pub fn minors_law()
    ensures { (disks : List Disk) → All (λ d. 0 < d.freq) disks →
        (0 < num_minors disks) × All (λ d. num_minors disks % d.freq ≡ 0) disks
        × ((n : ℕ) → All (λ d. n % d.freq ≡ 0) disks → n % num_minors disks ≡ 0) }
{}

/// The number of slots is the number of minor cycles times their length.
pub fn slots_law()
    ensures { (disks : List Disk) → length (program disks) ≡ num_minors disks * minor_len (num_minors disks) disks }
{}

/// The number of an item's disk is that of the disk that holds it, and its chunks are that disk's.
pub fn disk_law()
    ensures { (disks : List Disk) (n : ℕ) (d : Disk) (i : ℕ) → IsAirable disks →
        slice_get disks n ≡ Some d → Contains d.items i →
        (disk_number disks i ≡ n) × (chunks_of disks i ≡ num_chunks (num_minors disks) d) }
{}

/// The number of slots that carry an item is the frequency of its disk.
pub fn airings_law()
    ensures { (disks : List Disk) (n : ℕ) (d : Disk) (i : ℕ) → IsAirable disks →
        slice_get disks n ≡ Some d → Contains d.items i → airings (program disks) i ≡ d.freq }
{}

/// Consecutive airings of an item around the cycle are one gap apart.
pub fn gap_law()
    ensures { (disks : List Disk) (n : ℕ) (d : Disk) (i : ℕ) → IsAirable disks →
        slice_get disks n ≡ Some d → Contains d.items i → ComesEvery (program disks) i (gap_of disks i) }
{}

/// An item's airings times its gap is the number of slots.
pub fn times_gap_law()
    ensures { (disks : List Disk) (n : ℕ) (d : Disk) (i : ℕ) → IsAirable disks →
        slice_get disks n ≡ Some d → Contains d.items i →
        airings (program disks) i * gap_of disks i ≡ length (program disks) }
{}

/// From each slot just one number is the least wait for an item; it follows from the gap and the wait from slot 0.
pub fn next_wake_law()
    ensures { (disks : List Disk) (n : ℕ) (d : Disk) (i : ℕ) → IsAirable disks →
        slice_get disks n ≡ Some d → Contains d.items i → (s : ℕ) → s < length (program disks) →
        ((k : ℕ) → IsNextWake (program disks) s i k ↔ (k ≡ next_wake (program disks) s i))
        × (next_wake (program disks) s i
        ≡ (next_wake (program disks) 0 i + (gap_of disks i - s % gap_of disks i)) % gap_of disks i) }
{}
