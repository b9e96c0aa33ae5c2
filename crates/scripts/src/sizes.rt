//! How much of a script's tape is aired at a time.

ghost use Rattle.std.specs.Prelude.{◌≡◌, ◌<◌, ◌≤◌, ◌+◌, ◌*◌};
ghost use Rattle.air_base.specs.declared.limits.TheConstants.{MOST_ITEMS, MOST_SLOTS};
ghost use Rattle.bucket_codec.specs.declared.offsets.TheConstants.{ENTRY_BYTES, HEAD_BYTES, LENGTH_BYTES};
ghost use Rattle.item_catalog.specs.DeckLimits.{script_starts};
ghost use Rattle.scripts.specs.LongestCycles.{longest_cycle};

use air_sender::{cycle_len, own_form};
use chunk_program::Planned;

/// The most bytes of a tape that are aired at a time, where a cycle has no more.
pub const AIRED_PIECE_BYTES: u64 = 4_194_304;

/// The number of bytes of the tape that a cycle has, in the longest edition that the script reaches.
pub(crate) fn longest_cycle(planned: &Planned) -> u64
    ensures told { result ≡ longest_cycle planned.now }
    ensures some { 1 ≤ result }
    ensures few { result ≤ (LENGTH_BYTES + HEAD_BYTES + ENTRY_BYTES * MOST_ITEMS) * MOST_SLOTS }
{
    let deck = planned.deck();
    let items = deck.items();
    let version = own_form(planned).version;
    let plans = planned.plans();
    let last = plans.edition_at(deck.script_starts());
    let mut longest = 0u64;
    for edition in 0..last + 1 {
        let len = cycle_len(plans.program(edition), items, version);
        longest = longest.max(len);
    }
    longest
}

/// How many cycles are aired at a time: all that the script starts, or as many as have at most `AIRED_PIECE_BYTES` bytes of the tape in
/// each edition that the script reaches; but at least one.
pub fn piece_cycles(planned: &Planned) -> u32
    ensures some { 1 ≤ result }
    ensures few { 1 < result → result * longest_cycle planned.now ≤ AIRED_PIECE_BYTES }
    ensures within { 1 < result → result ≤ script_starts planned.now }
    ensures full { result < script_starts planned.now → AIRED_PIECE_BYTES < (result + 1) * longest_cycle planned.now }
{
    let cycle = longest_cycle(planned);
    let most = (AIRED_PIECE_BYTES / cycle) as u32;
    most.min(planned.deck().script_starts()).max(1)
}
