//! The numbers of a drill's line that are counted or added up.

ghost use Rattle.std.specs.Prelude.{◌≡◌, ◌<◌, ◌^◌};
ghost use Rattle.air_history.specs.Histories.{starts};
ghost use Rattle.scripts.specs.DrillLines.{commits, is_abort, is_accept, is_unfinished, lines_with, sum_of};

use air_base::VerdictKind;
use air_history::Event;
use air_model::reports::{CountsLine, VerdictLine};

/// The number of commits.
pub(crate) fn count_commits(events: &[Event]) -> u64
    ensures { result ≡ commits events.now }
{
    events.iter().filter(|event| !event.is_start()).count() as u64
}

/// The number of cycles.
#[tactic(auto, unfolding(air_history::specs::Histories::starts))]
pub(crate) fn count_starts(events: &[Event]) -> u64
    ensures { result ≡ starts events.now }
{
    events.iter().filter(|event| event.is_start()).count() as u64
}

/// The number of queries that were accepted.
pub(crate) fn count_accepted(lines: &[VerdictLine]) -> u64
    ensures { result ≡ lines_with is_accept lines.now }
{
    lines
        .iter()
        .filter(|line| matches!(line.verdict.kind, VerdictKind::Accept))
        .count() as u64
}

/// The number of attempts that were aborted.
pub(crate) fn count_aborted(lines: &[VerdictLine]) -> u64
    ensures { result ≡ lines_with is_abort lines.now }
{
    lines
        .iter()
        .filter(|line| matches!(line.verdict.kind, VerdictKind::Abort { .. }))
        .count() as u64
}

/// The number of queries that stayed unfinished.
pub(crate) fn count_unfinished(lines: &[VerdictLine]) -> u64
    ensures { result ≡ lines_with is_unfinished lines.now }
{
    lines
        .iter()
        .filter(|line| matches!(line.verdict.kind, VerdictKind::Unfinished))
        .count() as u64
}

/// What all readers opened.
pub(crate) fn sum_opened(lines: &[CountsLine]) -> u64
    requires { sum_of (λ c. c.opened) lines.now < 2 ^ 64 }
    ensures { result ≡ sum_of (λ c. c.opened) lines.now }
{
    lines.iter().map(|line| line.counts.opened).sum()
}

/// What all readers slept through.
pub(crate) fn sum_dozed(lines: &[CountsLine]) -> u64
    requires { sum_of (λ c. c.dozed) lines.now < 2 ^ 64 }
    ensures { result ≡ sum_of (λ c. c.dozed) lines.now }
{
    lines.iter().map(|line| line.counts.dozed).sum()
}

/// What all readers took from their copies.
pub(crate) fn sum_copied(lines: &[CountsLine]) -> u64
    requires { sum_of (λ c. c.copied) lines.now < 2 ^ 64 }
    ensures { result ≡ sum_of (λ c. c.copied) lines.now }
{
    lines.iter().map(|line| line.counts.copied).sum()
}
