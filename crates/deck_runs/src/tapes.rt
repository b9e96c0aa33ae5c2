//! How long the tape of a run is, before it runs.

ghost use Rattle.std.specs.Prelude.{◌≡◌, ◌≤◌, MatchOption};
ghost use Rattle.air_base.specs.declared.limits.TheConstants.{MOST_TAPE_BYTES};
ghost use Rattle.deck_runs.specs.RunTapes.{IsLongRun, run_tape_len};

use air_base::limits::MOST_TAPE_BYTES;
use air_sender::{own_form, tape_bytes};
use chunk_program::Planned;

/// The number of bytes of the tape of each run of a deck.
pub(crate) fn run_bytes(planned: &Planned) -> u64
    ensures { result ≡ run_tape_len planned.now }
{
    let deck = planned.deck();
    let cycles = deck.settings().cycles;
    tape_bytes(planned.plans(), deck.items(), cycles, own_form(planned))
}

/// The number of bytes of the tape of each run of a deck, if that is more than a tape may have.
pub fn long_run(planned: &Planned) -> Option<u64>
    ensures { MatchOption result (run_tape_len planned.now ≤ MOST_TAPE_BYTES) (IsLongRun planned.now) }
{
    let bytes = run_bytes(planned);
    if bytes > MOST_TAPE_BYTES as u64 {
        Some(bytes)
    } else {
        None
    }
}
