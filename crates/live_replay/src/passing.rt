//! Which held read a new one clashes with, by groups or by the policy, and whether each read passes after those before it.

ghost use Rattle.std.specs.Prelude.{◌≡◌, ◌≤◌, false, length, All, IfOk};
ghost use Rattle.air_history.specs.Columns.{has_groups};
ghost use Rattle.air_history.specs.Histories.{starts};
ghost use Rattle.air_history.specs.Reads.{IsRead};
ghost use Rattle.air_history.specs.Clashes.{clash_by_history, clash_of};
ghost use Rattle.air_history.specs.ClashLaws.{passes};
ghost use Rattle.air_model.specs.Aired.{scheme_in};
ghost use Rattle.live_replay.specs.Findings.{all_pass, place_of_line, places_read};
ghost use Rattle.live_replay.specs.Private.Groups.{IsItemRead};

use crate::alone::{WalkLists, is_consistent};
use crate::group_clashes::{all_pass_by_groups, clash_by_groups};
use crate::policies::{is_late, least_named, test_of};
use crate::replay::Replay;
use air_base::{Clash, NoMemory, Policy, ReadOf};
use std::alloc::Global;

/// The held read with which a new one clashes by the policy.
fn clash_by_policy(
    replay: &Replay<'_>,
    held: &[ReadOf],
    read: &ReadOf,
    lists: &mut WalkLists,
) -> Result<Option<Clash>, NoMemory>
    requires held { All (λ r. r.cycle ≤ starts replay.now.history) held.now }
    requires new { read.now.cycle ≤ starts replay.now.history }
    ensures { IfOk result (λ clash. clash
        ≡ clash_by_history replay.now.deck.settings.policy replay.now.history (places_read held.now) (place_of_line read.now)) }
{
    match test_of(replay, held, read) {
        None => Ok(None),
        Some(test) => least_named(replay, test, held, lists),
    }
}

/// The held read with which a new one clashes.
pub fn clash(
    alloc: Global,
    replay: &Replay<'_>,
    held: &[ReadOf],
    read: &ReadOf,
    lists: &mut WalkLists,
) -> Result<Option<Clash>, NoMemory>
    requires held { All (λ r. r.cycle ≤ starts replay.now.history) held.now }
    requires held_items { All (IsItemRead (length replay.now.deck.items)) held.now }
    requires new { read.now.cycle ≤ starts replay.now.history }
    requires new_item { IsItemRead (length replay.now.deck.items) read.now }
    ensures { IfOk result (λ clash. clash
        ≡ clash_of (scheme_in replay.now.deck) (length replay.now.deck.items) replay.now.history (places_read held.now) (place_of_line read.now)) }
{
    if replay.has_groups() {
        return clash_by_groups(alloc, replay, held, read);
    }
    clash_by_policy(replay, held, read, lists)
}

/// Whether a new read passes after held ones, without groups.
#[tactic(auto, unfolding(air_history::specs::ClashLaws::passes))]
fn passes(
    replay: &Replay<'_>,
    held: &[ReadOf],
    read: &ReadOf,
    lists: &mut WalkLists,
) -> Result<bool, NoMemory>
    requires held { All (λ r. r.cycle ≤ starts replay.now.history) held.now }
    requires new { read.now.cycle ≤ starts replay.now.history }
    requires bare { has_groups (scheme_in replay.now.deck) ≡ false }
    ensures { IfOk result (λ told. told
        ≡ passes (scheme_in replay.now.deck) (length replay.now.deck.items) replay.now.history (places_read held.now) (place_of_line read.now)) }
{
    if is_late(replay.policy(), held, read) {
        return Ok(false);
    }
    Ok(clash_by_policy(replay, held, read, lists)?.is_none())
}

/// Whether each read passes after those before it, without groups. This asks for each read by itself.
fn each_passes(
    replay: &Replay<'_>,
    reads: &[ReadOf],
    lists: &mut WalkLists,
) -> Result<bool, NoMemory>
    requires within { All (λ r. r.cycle ≤ starts replay.now.history) reads.now }
    requires bare { has_groups (scheme_in replay.now.deck) ≡ false }
    ensures { IfOk result (λ told. told
        ≡ all_pass (scheme_in replay.now.deck) (length replay.now.deck.items) replay.now.history (places_read reads.now)) }
{
    for k in 0..reads.len() {
        if !passes(replay, &reads[..k], &reads[k], lists)? {
            return Ok(false);
        }
    }
    Ok(true)
}

/// Whether each read passes after those before it. Under F-Matrix without groups this is one question about all reads.
pub fn all_pass(
    alloc: Global,
    replay: &Replay<'_>,
    reads: &[ReadOf],
    lists: &mut WalkLists,
) -> Result<bool, NoMemory>
    requires within { All (λ r. r.cycle ≤ starts replay.now.history) reads.now }
    requires items { All (IsItemRead (length replay.now.deck.items)) reads.now }
    requires begun { All IsRead (places_read reads.now) }
    ensures { IfOk result (λ told. told
        ≡ all_pass (scheme_in replay.now.deck) (length replay.now.deck.items) replay.now.history (places_read reads.now)) }
{
    if replay.has_groups() {
        return all_pass_by_groups(alloc, replay, reads);
    }
    match replay.policy() {
        Policy::FMatrix => is_consistent(replay, reads, lists),
        Policy::Datacycle | Policy::RMatrix => each_passes(replay, reads, lists),
    }
}
