//! The laws of what a board airs and of how long a tape is. The bodies are empty.
//!
//! They are in a module of their own so that they are checked once: no test and no edit has them proved again.

ghost use Rattle.std.specs.Prelude.{◌≡◌, ◌<◌, ℕ, cond, List, [], ◌∷◌, ◌++◌, length, map};
ghost use Rattle.std.specs.List.{range_with_len};
ghost use Rattle.air_history.specs.declared.histories.Event.{Event};
ghost use Rattle.air_history.specs.declared.histories.Event.TheVariants.{Start};
ghost use Rattle.air_history.specs.Histories.{is_start, starts};
ghost use Rattle.air_history.specs.Boards.{board_of};
ghost use Rattle.air_model.specs.Aired.{Air, SlotsFit, bucket_of, buckets_of, edition_at, history_tape, slots_at};
ghost use Rattle.air_sender.specs.BoardBuckets.{EntriesBelow, aired_board, board_buckets, form_of, last_cycle_buckets, spread};
ghost use Rattle.group_matrix.specs.GroupBoards.{grouped};
ghost use Rattle.air_sender.specs.TapeSizes.{tape_size};

/// The board of a history that ends with a start airs the history's buckets of that cycle, by groups if the air's scheme has groups.
pub fn own_cycle_law()
    ensures { (values : List ℕ) (air : Air) (G : List Event) → air.items ≡ length values → SlotsFit air →
        board_buckets (form_of air) (edition_at air (starts (G ++ Start ∷ []))) (slots_at air (starts (G ++ Start ∷ []))) (aired_board air.scheme (board_of values (G ++ Start ∷ [])))
        ≡ map (bucket_of values air (G ++ Start ∷ []) air.version (starts (G ++ Start ∷ []))) (range_with_len 0 (length (slots_at air (starts (G ++ Start ∷ []))))) }
{}

/// The entries of the board of a history that ends with a start are below its cycle.
pub fn below_law()
    ensures { (values : List ℕ) (G : List Event) → EntriesBelow (board_of values (G ++ Start ∷ [])) }
{}

/// So are the entries of its board by groups.
pub fn groups_below_law()
    ensures { (g : ℕ) (values : List ℕ) (G : List Event) → 0 < g → EntriesBelow (spread (grouped g (board_of values (G ++ Start ∷ [])))) }
{}

/// One more event airs the buckets of the cycle that it starts if it is a start, and nothing else.
pub fn grow_law()
    ensures { (values : List ℕ) (air : Air) (G : List Event) (e : Event) →
        buckets_of values air (G ++ e ∷ []) ≡ buckets_of values air G ++ cond (is_start e) (last_cycle_buckets values air (G ++ e ∷ [])) [] }
{}

/// The length of the tape of a history is the sum of the lengths of its records, cycle by cycle.
pub fn tape_size_law()
    ensures { (values : List ℕ) (air : Air) (H : List Event) →
        length (history_tape values air H) ≡ tape_size air.version air.items (slots_at air) (starts H) }
{}
