//! Which held read a new one clashes with under each policy, without groups.
//!
//! The history alone decides: by the origins of reads, and by whether reads are consistent.

ghost use Rattle.std.specs.Prelude.{◌≡◌, ◌≤◌, All, IfOk, IfSome, Some};
ghost use Rattle.air_history.specs.Histories.{starts};
ghost use Rattle.air_history.specs.Reads.{first_cycle, last_cycle, newest_cycle};
ghost use Rattle.air_history.specs.Clashes.{clash_by_history, is_late, lesser, named_clash};
ghost use Rattle.live_replay.specs.Findings.{place_of_line, places_read};
ghost use Rattle.live_replay.specs.Private.NamedClashes.{NamesWithin, clash_named, named_by};

use crate::alone::{WalkLists, is_consistent};
use crate::replay::Replay;
use air_base::{Clash, NoMemory, Policy, ReadOf};

/// Which held reads a new one clashes with.
#[derive(Clone, Copy, Debug, PartialEq, Eq)]
pub enum ClashTest {
    /// Those whose items have other origins at this cycle.
    StaleAt(u32),
    /// Those of this cycle.
    OfCycle(u32),
    /// Those that aren't consistent with this read.
    ApartFrom(ReadOf),
}

/// Whether a held read is named.
#[tactic(auto, unfolding(air_history::specs::Reads::stale))]
fn is_named(
    replay: &Replay<'_>,
    test: ClashTest,
    held: &ReadOf,
    lists: &mut WalkLists,
) -> Result<bool, NoMemory>
    requires held { held.now.cycle ≤ starts replay.now.history }
    requires new { NamesWithin (starts replay.now.history) test }
    ensures { IfOk result (λ named. named ≡ named_by replay.now.history test (place_of_line held.now)) }
{
    match test {
        ClashTest::StaleAt(cycle) => Ok(!replay.same_origin(held.item, cycle, held.cycle)),
        ClashTest::OfCycle(cycle) => Ok(held.cycle == cycle),
        ClashTest::ApartFrom(read) => Ok(!is_consistent(replay, &[*held, read], lists)?),
    }
}

/// Of a read and a clash, the one of lesser item number.
pub fn lesser(read: &ReadOf, clash: Option<Clash>) -> Clash
    ensures { Some result ≡ lesser (place_of_line read.now) clash }
{
    match clash {
        Some(clash) if clash.item < read.item => clash,
        _ => Clash {
            item: read.item,
            cycle: read.cycle,
        },
    }
}

/// The named held read of the least item number.
#[tactic(auto, using(crate::proofs::PolicyLemmas::named_more, crate::proofs::PolicyLemmas::named_not, crate::proofs::PolicyLemmas::named_none))]
pub fn least_named(
    replay: &Replay<'_>,
    test: ClashTest,
    held: &[ReadOf],
    lists: &mut WalkLists,
) -> Result<Option<Clash>, NoMemory>
    requires held { All (λ r. r.cycle ≤ starts replay.now.history) held.now }
    requires new { NamesWithin (starts replay.now.history) test }
    ensures { IfOk result (λ clash. clash ≡ named_clash (named_by replay.now.history test) (places_read held.now)) }
{
    let mut least = None;
    for k in (0..held.len()).rev() {
        if is_named(replay, test, &held[k], lists)? {
            least = Some(lesser(&held[k], least));
        }
    }
    Ok(least)
}

/// The newest cycle of reads, 0 if there is none.
fn newest_cycle(reads: &[ReadOf]) -> u32
    ensures { result ≡ newest_cycle (places_read reads.now) }
{
    let mut newest = 0;
    for read in reads {
        newest = newest.max(read.cycle);
    }
    newest
}

/// The cycle of the first read, 0 if there is none.
fn first_cycle(reads: &[ReadOf]) -> u32
    ensures { result ≡ first_cycle (places_read reads.now) }
{
    if reads.is_empty() {
        return 0;
    }
    reads[0].cycle
}

/// The cycle of the last read, 0 if there is none.
#[tactic(auto, using(crate::proofs::PolicyLemmas::last_is))]
fn last_cycle(reads: &[ReadOf]) -> u32
    ensures { result ≡ last_cycle (places_read reads.now) }
{
    if reads.is_empty() {
        return 0;
    }
    reads[reads.len() - 1].cycle
}

/// Whether a read comes too late after held ones.
#[tactic(auto, unfolding(air_history::specs::Clashes::is_late))]
pub fn is_late(policy: Policy, held: &[ReadOf], read: &ReadOf) -> bool
    ensures { result ≡ is_late policy (places_read held.now) (place_of_line read.now) }
{
    match policy {
        Policy::FMatrix | Policy::Datacycle => false,
        Policy::RMatrix => read.cycle < last_cycle(held),
    }
}

/// Which held reads a new one clashes with, if it can clash.
#[tactic(auto, unfolding(air_history::specs::Clashes::clash_by_history))]
pub fn test_of(replay: &Replay<'_>, held: &[ReadOf], read: &ReadOf) -> Option<ClashTest>
    requires held { All (λ r. r.cycle ≤ starts replay.now.history) held.now }
    requires new { read.now.cycle ≤ starts replay.now.history }
    ensures new { IfSome result (NamesWithin (starts replay.now.history)) }
    ensures told { clash_named replay.now.history result (places_read held.now)
        ≡ clash_by_history replay.now.deck.settings.policy replay.now.history (places_read held.now) (place_of_line read.now) }
{
    match replay.policy() {
        Policy::FMatrix => Some(ClashTest::ApartFrom(*read)),
        Policy::Datacycle => {
            let newest = newest_cycle(held);
            if newest <= read.cycle {
                Some(ClashTest::StaleAt(read.cycle))
            } else if replay.same_origin(read.item, newest, read.cycle) {
                None
            } else {
                Some(ClashTest::OfCycle(newest))
            }
        }
        Policy::RMatrix => {
            if replay.same_origin(read.item, read.cycle, first_cycle(held)) {
                return None;
            }
            Some(ClashTest::StaleAt(read.cycle))
        }
    }
}
