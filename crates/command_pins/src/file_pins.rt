//! These pins say what `files` of `air_cli` reads of a named file over a shelf in memory, and why it refuses one. They fix its bytes, the limit, the
//! row of a fault, the number of slots, and when a failure is counted.
#![tactic(auto, unfolding(air_cli::specs::NamedFiles::UnreadCause, air_cli::specs::NamedDecks::DeckCause, air_cli::specs::RunnableDecks::LengthCause, air_cli::specs::RunnableDecks::UnrunnableCause, item_catalog::specs::Grammar::HasFault))]

ghost use Rattle.std.specs.Prelude.{◌≡◌, ◌≢◌, ◌≤◌, ◌<◌, ℕ, List, [], ◌∷◌, length, Err, Some, IfOk, OnOk};
ghost use Rattle.air_model.specs.Decks.{Deck as PlainDeck, disks_in};
ghost use Rattle.air_model.specs.Programs.{program};
ghost use Rattle.air_devices.specs.Memory.{told_by};
ghost use Rattle.item_catalog.specs.Grammar.{Spells};

use air_cli::{plan_deck, read_bytes, read_deck_file, read_runnable_deck};
use air_devices::MemShelf;
use air_report::Status;
use chunk_program::Planned;
use item_catalog::{Deck, not_both_law};
use std::alloc::Global;

/// The bytes are those of the file of this name. A read fault is answered only if a failure was counted (always a read fault), and with each other
/// answer none was. A file that has exactly as many bytes as the limit isn't too large.
/// Promise: every answer is a named one
/// Promise: what each status leaves outside
/// Promise: output is a function of input
pub fn another_file_is_read(
    alloc: Global,
    shelf: &mut MemShelf,
    name: &str,
) -> Result<Vec<u8>, Status>
    requires file { (told_by shelf.old).file name.now ≡ Some (1 ∷ 2 ∷ []) }
    requires faults { shelf.old.calls.faults ≡ 0 }
    ensures bytes { IfOk result (λ bytes. bytes.items ≡ 1 ∷ 2 ∷ []) }
    ensures fault { result ≡ Err Status.ReadFault → 1 ≤ shelf.new.calls.faults }
    ensures calm { result ≢ Err Status.ReadFault → shelf.new.calls.faults ≡ 0 }
    ensures fits { (limit : ℕ) → result ≢ Err (Status.TooLarge limit) }
{
    read_bytes(alloc, shelf, name, 2)
}

/// A file that is too large is refused with the limit.
/// Promise: every answer is a named one
pub fn another_limit_told(
    alloc: Global,
    shelf: &mut MemShelf,
    name: &str,
) -> Result<Vec<u8>, Status>
    ensures { (limit : ℕ) → result ≡ Err (Status.TooLarge limit) → limit ≡ 10 }
{
    read_bytes(alloc, shelf, name, 10)
}

/// A deck that is too large is refused with the limit of decks.
/// Promise: every answer is a named one
pub fn limit_of_another_kind_told(
    alloc: Global,
    shelf: &mut MemShelf,
    name: &str,
) -> Result<Deck, Status>
    ensures { (limit : ℕ) → result ≡ Err (Status.TooLarge limit) → limit ≡ 67_108_864 }
{
    read_deck_file(alloc, shelf, name)
}

/// A deck is answered only if no read failed, and so is each refusal except for that of a read: out of memory, a file that is too large, and a fault
/// of the deck. So none of them is the result of a second reading after one that failed.
/// Promise: every answer is a named one
/// Promise: what each status leaves outside
pub fn reads_again_after_a_read_fault(
    alloc: Global,
    shelf: &mut MemShelf,
    name: &str,
) -> Result<Deck, Status>
    requires { shelf.old.calls.faults ≡ 0 }
    ensures deck { OnOk result (shelf.new.calls.faults ≡ 0) }
    ensures memory { result ≡ Err Status.NoMemory → shelf.new.calls.faults ≡ 0 }
    ensures large { (limit : ℕ) → result ≡ Err (Status.TooLarge limit) → shelf.new.calls.faults ≡ 0 }
    ensures fault { (row kind : ℕ) → result ≡ Err (Status.Deck row kind) → shelf.new.calls.faults ≡ 0 }
{
    read_deck_file(alloc, shelf, name)
}

/// A file that spells a deck isn't refused as a faulty one.
/// Promise: every answer is a named one
pub fn always_a_deck_fault(alloc: Global, shelf: &mut MemShelf, name: &str) -> Result<Deck, Status>
    requires { (text : List ℕ) × (deck : PlainDeck) × ((told_by shelf.old).file name.now ≡ Some text) × Spells text deck }
    ensures { (row kind : ℕ) → result ≢ Err (Status.Deck row kind) }
{
    not_both_law();
    read_deck_file(alloc, shelf, name)
}

/// The fault of an empty deck is at row 1, after its last record.
/// Promise: every answer is a named one
/// Promise: texts are exact
pub fn row_of_another_record(
    alloc: Global,
    shelf: &mut MemShelf,
    name: &str,
) -> Result<Deck, Status>
    requires { (told_by shelf.old).file name.now ≡ Some [] }
    ensures { (row kind : ℕ) → result ≡ Err (Status.Deck row kind) → row ≡ 1 }
{
    read_deck_file(alloc, shelf, name)
}

/// A deck is refused for a program only if one has more slots than a program may have.
/// Promise: every answer is a named one
pub fn short_program_told_as_too_long(
    alloc: Global,
    shelf: &mut MemShelf,
    name: &str,
) -> Result<Planned, Status>
    ensures { (slots : ℕ) → result ≡ Err (Status.PlanTooLong slots) → 16_384 < slots }
{
    read_runnable_deck(alloc, shelf, name)
}

/// A deck whose first program is too long is refused with the slots of that one, regardless of its replans.
/// Promise: every answer is a named one
pub fn too_long_by_another_number(alloc: Global, deck: Deck) -> Result<Planned, Status>
    requires { length (program (disks_in deck 0)) ≡ 20_160 }
    ensures { (slots : ℕ) → result ≡ Err (Status.PlanTooLong slots) → slots ≡ 20_160 }
{
    plan_deck(alloc, deck)
}
