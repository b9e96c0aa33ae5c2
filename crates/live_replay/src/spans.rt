//! Whether the reads of an attempt lie as far apart as its verdict says.

ghost use Rattle.std.specs.Prelude.{◌≡◌, ◌++◌, ◌∷◌, [], ℕ};
ghost use Rattle.air_history.specs.Ages.{span};
ghost use Rattle.air_model.specs.SessionLaws.{are_far};
ghost use Rattle.live_replay.specs.Findings.{places_read, read_in_cycle, spans_so};

use air_base::limits::AGE_CAP;
use air_base::{ReadOf, VerdictKind};

/// The span of reads with one more of this cycle. Its item doesn't matter.
fn span_of_line(reads: &[ReadOf], cycle: u32) -> u32
    ensures { (item : ℕ) → result ≡ span (places_read reads.now ++ read_in_cycle item cycle ∷ []) }
{
    let mut newest = cycle;
    let mut oldest = cycle;
    for read in reads {
        newest = newest.max(read.cycle);
        oldest = oldest.min(read.cycle);
    }
    newest - oldest
}

/// Whether reads with one more of this cycle lie too far apart for the version. Its item doesn't matter.
#[tactic(auto, unfolding(air_history::specs::Ages::spans_too_far))]
fn are_far_with(version: u8, reads: &[ReadOf], cycle: u32) -> bool
    ensures { (item : ℕ) → result ≡ are_far version (places_read reads.now ++ read_in_cycle item cycle ∷ []) }
{
    version >= 2 && span_of_line(reads, cycle) >= AGE_CAP
}

/// Whether reads lie too far apart for the version.
fn are_far(version: u8, reads: &[ReadOf]) -> bool
    ensures { result ≡ are_far version (places_read reads.now) }
{
    if reads.is_empty() {
        return false;
    }
    let last = reads.len() - 1;
    are_far_with(version, &reads[..last], reads[last].cycle)
}

/// Whether the reads of an attempt that ended so lie as far apart as its end says.
#[tactic(auto, unfolding(crate::specs::Findings::spans_so))]
pub fn spans_so(version: u8, reads: &[ReadOf], end: VerdictKind) -> bool
    ensures { result ≡ spans_so version (places_read reads.now) end }
{
    match end {
        VerdictKind::Accept | VerdictKind::Unfinished => !are_far(version, reads),
        VerdictKind::Abort { cycle, .. } => !are_far_with(version, reads, cycle),
        VerdictKind::Aged { cycle, .. } => {
            !are_far(version, reads) && are_far_with(version, reads, cycle)
        }
    }
}
