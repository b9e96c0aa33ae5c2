//! The laws of seeks, on records of any bytes and on those of a history, and of what is written.

ghost use Rattle.std.specs.Prelude.{◌≡◌, ◌<◌, ◌≤◌, ◌+◌, ◌*◌, ◌^◌, ◌++◌, ℕ, List, [], None, Some, count_by, length};
ghost use Rattle.std.specs.List.{Contains};
ghost use Rattle.air_history.specs.declared.histories.Event.{Event};
ghost use Rattle.air_history.specs.Histories.{starts};
ghost use Rattle.air_model.specs.AiredLaws.{CanAir};
ghost use Rattle.air_model.specs.Buckets.{Bucket, IsInRange, spelling};
ghost use Rattle.air_model.specs.Decks.{Deck, IsDeck, disks_in, script_history};
ghost use Rattle.air_model.specs.Programs.{minor_len, num_minors};
ghost use Rattle.air_model.specs.Outputs.{script_tape};
ghost use Rattle.air_model.specs.Tapes.{tape_of, tape_read};
ghost use Rattle.item_catalog.specs.DeckLimits.{WithinLimits};
ghost use Rattle.chunk_program.specs.Editions.{Plans, plans_in};
ghost use Rattle.chunk_program.specs.Plans.{AreShort};
ghost use Rattle.air_index.specs.BeamLaws.{data_of};
ghost use Rattle.air_index.specs.Indexes.{index_bytes, is_index};
ghost use Rattle.air_index.specs.IndexedTapes.{beam_tape_of, entries_for, indexed_piece, indexed_records, indexed_size, minors_after, records_from, slots_after};
ghost use Rattle.air_index.specs.OnAir.{IsIndex, IsSlot, ahead, marks_of, wait_for};
ghost use Rattle.air_index.specs.Records.{data_bytes, indexed_at};
ghost use Rattle.air_index.specs.SeekLaws.{AmountsFit, IsFoundAt, IsRightAnswer, history_records, opens_of};
ghost use Rattle.air_index.specs.Seeks.{sought};
ghost use Rattle.air_index.specs.declared.records.Indexed.TheVariants as variant;
ghost use Rattle.air_index.specs.declared.sought.Sought.TheVariants.{Found};

/// At most three records are opened.
pub fn opens_law()
    ensures { (records : List (List ℕ)) (i p : ℕ) → opens_of (sought records i p) ≤ 3 }
{}

/// What is found is a data record of the item, with the cycle and the value of its bucket.
pub fn found_law()
    ensures { (records : List (List ℕ)) (i p opens place cycle value : ℕ) → sought records i p ≡ Found opens place cycle value → IsFoundAt records i place cycle value }
{}

/// On a tape of one edition, what is found lies at most a minor cycle and a cycle of records, less one, after the place where the search
/// begins.
pub fn bound_law()
    ensures { (deck : Deck) (cycles : ℕ) (buckets : List (List ℕ)) (i p opens place cycle value : ℕ) →
        IsDeck deck → WithinLimits deck → AreShort deck → deck.replans ≡ [] → cycles < 2 ^ 32 →
        sought (indexed_records (plans_in deck) (length deck.items) cycles buckets) i p ≡ Found opens place cycle value →
        place + 1 ≤ p + minor_len (num_minors (disks_in deck 0)) (disks_in deck 0) + length (marks_of (disks_in deck 0)) }
{}

/// The indexed tape of a history of a deck is whole, and its records are read back from it.
pub fn records_back_law()
    ensures { (deck : Deck) (H : List Event) → CanAir deck H → WithinLimits deck →
        tape_read (tape_of (history_records deck H)) ≡ record { records = history_records deck H; cut = None } }
{}

/// On the indexed tape that a deck airs of any history whose amounts are below 2^64, an item of the catalog is found from a record of the tape on,
/// if and only if that record has it, or the first index record from there on and then a data record of the item are on the tape. At most three
/// records are opened.
pub fn seek_law()
    ensures { (deck : Deck) (H : List Event) (i p : ℕ) →
        IsDeck deck → AmountsFit H → starts H < 2 ^ 32 → WithinLimits deck → AreShort deck → i < length deck.items → p < length (history_records deck H) →
        (opens_of (sought (history_records deck H) i p) ≤ 3) × IsRightAnswer deck H i p (sought (history_records deck H) i p) }
{}

/// From each place of each cycle, every item of the catalog comes within the next cycle, and an index does.
pub fn ahead_law()
    ensures { (deck : Deck) (c q i : ℕ) → IsDeck deck → WithinLimits deck → i < length deck.items →
        Contains (ahead (plans_in deck) c q) (IsSlot (Some i)) × Contains (ahead (plans_in deck) c q) (IsIndex 0) }
{}

/// Indexed pieces one after another are the whole: those of some cycles, and then those of the next ones.
pub fn pieces_law()
    ensures { (plans : Plans) (n first a b : ℕ) (xs ys : List (List ℕ)) → length xs ≡ slots_after plans first a →
        indexed_piece plans n first (a + b) (xs ++ ys) ≡ indexed_piece plans n first a xs ++ indexed_piece plans n (first + a) b ys }
{}

/// An indexed piece has the bytes of the plain one, five more for each slot, and 17 + 4n for each minor cycle.
pub fn size_law()
    ensures { (plans : Plans) (n first cycles : ℕ) (buckets : List (List ℕ)) → length buckets ≡ slots_after plans first cycles →
        length (indexed_piece plans n first cycles buckets) ≡ length (tape_of buckets) + 5 * slots_after plans first cycles + minors_after plans first cycles * (17 + 4 * n) }
{}

/// An indexed piece has a data record for each slot, and an index record for each minor cycle.
pub fn records_law()
    ensures { (plans : Plans) (n first cycles : ℕ) (buckets : List (List ℕ)) →
        length (records_from plans n (first + 1) cycles buckets) ≡ slots_after plans first cycles + minors_after plans first cycles }
{}

/// In an indexed piece of a deck there are as many index records as minor cycles.
pub fn indexes_law()
    ensures { (deck : Deck) (first cycles : ℕ) (buckets : List (List ℕ)) → IsDeck deck → WithinLimits deck → AreShort deck → first + cycles < 2 ^ 32 →
        count_by is_index (records_from (plans_in deck) (length deck.items) (first + 1) cycles buckets) ≡ minors_after (plans_in deck) first cycles }
{}

/// The indexed tape of a history of a deck has the length that `beam_bytes` tells.
pub fn length_law()
    ensures { (deck : Deck) (H : List Event) →
        length (tape_of (history_records deck H)) ≡ indexed_size deck.settings.version (length deck.items) (plans_in deck) (starts H) }
{}

/// The data records of the indexed tape of a deck's script carry the records of its plain tape, in order.
pub fn beam_law()
    ensures { (deck : Deck) → CanAir deck (script_history deck) → WithinLimits deck → AreShort deck →
        data_of (tape_read (beam_tape_of deck)).records ≡ (tape_read (script_tape deck)).records }
{}

/// Each index record and each data record of a deck's indexed tape is read back.
pub fn reading_back_law()
    ensures { (deck : Deck) (c q : ℕ) → IsDeck deck → WithinLimits deck → AreShort deck →
        ((m : ℕ) → 1 ≤ c → c < 2 ^ 32 → m < 2 ^ 16 → indexed_at (index_bytes c m (entries_for (plans_in deck) (length deck.items) c q))
        ≡ Some (variant.Index (record { cycle = c; minor = m; entries = entries_for (plans_in deck) (length deck.items) c q })))
        × ((b : Bucket) → IsInRange b → indexed_at (data_bytes (wait_for (plans_in deck) c q) (spelling b)) ≡ Some (variant.Payload (wait_for (plans_in deck) c q) b)) }
{}
