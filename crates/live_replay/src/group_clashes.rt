//! Which held read a new one clashes with by groups.
//!
//! Of two reads the group of the newer one is asked: whether the last writers of its items descend from a commit that writes the older
//! read's item in that read's cycle or later.

ghost use Rattle.std.specs.Prelude.{◌≡◌, ◌<◌, ◌∷◌, [], length, All, IfOk, IsTrue};
ghost use Rattle.std.specs.List.{list_any};
ghost use Rattle.air_history.specs.Columns.{has_groups};
ghost use Rattle.air_history.specs.Clashes.{group_clash, named_clash};
ghost use Rattle.air_model.specs.Aired.{scheme_in};
ghost use Rattle.air_model.specs.Decks.{values_in};
ghost use Rattle.live_replay.specs.Findings.{all_pass, place_of_line, places_read};
ghost use Rattle.live_replay.specs.Private.Groups.{AreMarksOf, HaveMarks, IsItemRead, is_marked, writes_between};

use crate::groups::{GroupMarks, all_marks, marks_of};
use crate::policies::lesser;
use crate::replay::Replay;
use air_base::{Clash, NoMemory, ReadOf};
use std::alloc::Global;

/// Whether a place has a mark.
fn is_marked(marks: &GroupMarks, place: u64) -> bool
    ensures { result ≡ is_marked marks.now place }
{
    let place = place as usize;
    if place < marks.first {
        return false;
    }
    let at = place - marks.first;
    at < marks.marks.len() && marks.marks[at]
}

/// Whether a commit that has a mark writes a read's item in the read's cycle or later, before a cycle.
fn is_overwritten(replay: &Replay<'_>, read: &ReadOf, cycle: u32, marks: &GroupMarks) -> bool
    requires { read.now.item < length replay.now.deck.items }
    ensures { result ≡ list_any (λ w. is_marked marks.now w.place)
        (writes_between (values_in replay.now.deck) replay.now.history read.now.item read.now.cycle cycle) }
{
    for write in replay.writes_between(read.item, read.cycle, cycle) {
        if is_marked(marks, write.place) {
            return true;
        }
    }
    false
}

/// Whether a held read and a new one clash by groups.
fn group_clash(
    replay: &Replay<'_>,
    held: &ReadOf,
    held_marks: &GroupMarks,
    read: &ReadOf,
    marks: &GroupMarks,
) -> bool
    requires held { IsItemRead (length replay.now.deck.items) held.now }
    requires new { IsItemRead (length replay.now.deck.items) read.now }
    requires held_marks { AreMarksOf replay.now (read.now ∷ []) held.now held_marks.now }
    requires marks { AreMarksOf replay.now (held.now ∷ []) read.now marks.now }
    ensures { result ≡ group_clash replay.now.history replay.now.deck.settings.group (length replay.now.deck.items)
        (place_of_line held.now) (place_of_line read.now) }
{
    if held.cycle <= read.cycle {
        is_overwritten(replay, held, read.cycle, marks)
    } else {
        is_overwritten(replay, read, held.cycle, held_marks)
    }
}

/// The held read of the least item number among those with which a new one clashes by groups.
#[tactic(auto, using(crate::proofs::PolicyLemmas::named_more, crate::proofs::PolicyLemmas::named_not, crate::proofs::PolicyLemmas::named_none))]
fn least_clash(
    replay: &Replay<'_>,
    held: &[ReadOf],
    held_marks: &[GroupMarks],
    read: &ReadOf,
    marks: &GroupMarks,
) -> Option<Clash>
    requires held { All (IsItemRead (length replay.now.deck.items)) held.now }
    requires new { IsItemRead (length replay.now.deck.items) read.now }
    requires held_marks { HaveMarks replay.now (read.now ∷ []) held.now held_marks.now }
    requires marks { AreMarksOf replay.now held.now read.now marks.now }
    ensures { result ≡ named_clash (λ r. group_clash replay.now.history replay.now.deck.settings.group (length replay.now.deck.items)
        r (place_of_line read.now)) (places_read held.now) }
{
    let mut least = None;
    for k in (0..held.len()).rev() {
        if group_clash(replay, &held[k], &held_marks[k], read, marks) {
            least = Some(lesser(&held[k], least));
        }
    }
    least
}

/// The held read with which a new one clashes by groups.
pub fn clash_by_groups(
    alloc: Global,
    replay: &Replay<'_>,
    held: &[ReadOf],
    read: &ReadOf,
) -> Result<Option<Clash>, NoMemory>
    requires some { 0 < replay.now.deck.settings.group }
    requires held { All (IsItemRead (length replay.now.deck.items)) held.now }
    requires new { IsItemRead (length replay.now.deck.items) read.now }
    ensures { IfOk result (λ clash. clash ≡ named_clash (λ r. group_clash replay.now.history replay.now.deck.settings.group
        (length replay.now.deck.items) r (place_of_line read.now)) (places_read held.now)) }
{
    let held_marks = all_marks(alloc, replay, &[*read], held)?;
    let marks = marks_of(alloc, replay, held, read)?;
    Ok(least_clash(replay, held, &held_marks, read, &marks))
}

/// Whether each read passes after those before it, by groups. Each read's group is marked once, for the reads before it and after it.
pub fn all_pass_by_groups(
    alloc: Global,
    replay: &Replay<'_>,
    reads: &[ReadOf],
) -> Result<bool, NoMemory>
    requires some { IsTrue (has_groups (scheme_in replay.now.deck)) }
    requires reads { All (IsItemRead (length replay.now.deck.items)) reads.now }
    ensures { IfOk result (λ told. told ≡ all_pass (scheme_in replay.now.deck) (length replay.now.deck.items) replay.now.history (places_read reads.now)) }
{
    let marks = all_marks(alloc, replay, reads, reads)?;
    for k in 0..reads.len() {
        if least_clash(replay, &reads[..k], &marks[..k], &reads[k], &marks[k]).is_some() {
            return Ok(false);
        }
    }
    Ok(true)
}
