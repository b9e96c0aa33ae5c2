//! The finding of one line.

ghost use Rattle.std.specs.Prelude.{◌≡◌, ◌<◌, ◌≤◌, ◌&&◌, length, not, All, IfOk, if◌then◌else◌, Some, None};
ghost use Rattle.std.specs.List.{list_all};
ghost use Rattle.air_base.specs.declared.verdicts.VerdictKind.TheVariants.{Abort};
ghost use Rattle.air_history.specs.Histories.{starts};
ghost use Rattle.air_model.specs.Aired.{scheme_in};
ghost use Rattle.air_model.specs.Decks.{values_in};
ghost use Rattle.live_replay.specs.Findings.{has_value, is_clash, is_refused, look_cause, places_read, spans_so, verdict_cause};
ghost use Rattle.live_replay.specs.Private.Groups.{IsItemRead};
ghost use Rattle.live_replay.specs.Private.Lines.{EndFits, LineFits};
ghost use Rattle.live_replay.specs.declared.findings.Cause.{Cause};

use crate::alone::WalkLists;
use crate::findings::Cause;
use crate::passing::{all_pass, clash};
use crate::policies::is_late;
use crate::replay::Replay;
use crate::spans::spans_so;
use air_base::{NoMemory, ReadOf, VerdictKind};
use air_model::reports::{LookLine, VerdictLine};
use std::alloc::Global;

/// Whether each read has its value.
fn have_values(replay: &Replay<'_>, reads: &[ReadOf]) -> bool
    requires { All (λ r. r.item < length replay.now.deck.items) reads.now }
    ensures { result ≡ list_all (has_value (values_in replay.now.deck) replay.now.history) reads.now }
{
    for read in reads {
        if read.value != replay.value(read.item, read.cycle) {
            return false;
        }
    }
    true
}

/// Why an abort differs whose reads all pass and lie near enough: by its named read, and the item with which that clashes.
#[tactic(auto, unfolding(crate::specs::Findings::is_refused, crate::specs::Findings::is_clash))]
fn abort_cause(
    alloc: Global,
    replay: &Replay<'_>,
    reads: &[ReadOf],
    named: ReadOf,
    told: u16,
    lists: &mut WalkLists,
) -> Result<Option<Cause>, NoMemory>
    requires reads { All (λ r. r.cycle ≤ starts replay.now.history) reads.now }
    requires items { All (IsItemRead (length replay.now.deck.items)) reads.now }
    requires named { named.cycle ≤ starts replay.now.history }
    requires named_item { IsItemRead (length replay.now.deck.items) named }
    ensures { IfOk result (λ cause. cause ≡
        (if not (is_refused (scheme_in replay.now.deck) (length replay.now.deck.items) replay.now.history (places_read reads.now) (Abort named.item named.cycle told)) then Some Cause.Verdict
        else if not (is_clash (scheme_in replay.now.deck) (length replay.now.deck.items) replay.now.history (places_read reads.now) (Abort named.item named.cycle told)) then Some Cause.Clash
        else None)) }
{
    if is_late(replay.policy(), reads, &named) {
        return Ok(Some(Cause::Verdict));
    }
    match clash(alloc, replay, reads, &named, lists)? {
        None => Ok(Some(Cause::Verdict)),
        Some(held) if held.item == told => Ok(None),
        Some(_) => Ok(Some(Cause::Clash)),
    }
}

/// Why the end of an attempt differs whose reads all pass.
#[tactic(auto, unfolding(crate::specs::Findings::is_refused, crate::specs::Findings::is_clash))]
fn end_cause(
    alloc: Global,
    replay: &Replay<'_>,
    reads: &[ReadOf],
    end: VerdictKind,
    lists: &mut WalkLists,
) -> Result<Option<Cause>, NoMemory>
    requires reads { All (λ r. r.cycle ≤ starts replay.now.history) reads.now }
    requires items { All (IsItemRead (length replay.now.deck.items)) reads.now }
    requires end { EndFits (length replay.now.deck.items) (starts replay.now.history) end }
    ensures { IfOk result (λ cause. cause ≡
        (if not (is_refused (scheme_in replay.now.deck) (length replay.now.deck.items) replay.now.history (places_read reads.now) end
        && spans_so replay.now.deck.settings.version (places_read reads.now) end) then Some Cause.Verdict
        else if not (is_clash (scheme_in replay.now.deck) (length replay.now.deck.items) replay.now.history (places_read reads.now) end) then Some Cause.Clash
        else None)) }
{
    if !spans_so(replay.version(), reads, end) {
        return Ok(Some(Cause::Verdict));
    }
    match end {
        VerdictKind::Abort { item, cycle, clash } => {
            abort_cause(
                alloc,
                replay,
                reads,
                read_in_cycle(item, cycle),
                clash,
                lists,
            )
        }
        VerdictKind::Aged { item, cycle } => {
            if is_late(replay.policy(), reads, &read_in_cycle(item, cycle)) {
                return Ok(Some(Cause::Verdict));
            }
            Ok(None)
        }
        VerdictKind::Accept | VerdictKind::Unfinished => Ok(None),
    }
}

/// A read of an item in a cycle, of no value.
fn read_in_cycle(item: u16, cycle: u32) -> ReadOf
    ensures { result ≡ record { item = item; cycle = cycle; value = 0 } }
{
    ReadOf {
        item,
        cycle,
        value: 0,
    }
}

/// Why the line of a verdict differs, if it does.
#[tactic(auto, unfolding(crate::specs::Findings::verdict_cause))]
pub fn verdict_cause(
    alloc: Global,
    replay: &Replay<'_>,
    line: &VerdictLine,
    lists: &mut WalkLists,
) -> Result<Option<Cause>, NoMemory>
    requires { LineFits (length replay.now.deck.items) (starts replay.now.history) line.now }
    ensures { IfOk result (λ cause. cause ≡ verdict_cause replay.now.deck replay.now.history line.now) }
{
    let reads = line.reads.as_slice();
    if !have_values(replay, reads) {
        return Ok(Some(Cause::Value));
    }
    if !all_pass(alloc, replay, reads, lists)? {
        return Ok(Some(Cause::Verdict));
    }
    end_cause(alloc, replay, reads, line.verdict.kind, lists)
}

/// Why the line of a glance or a look differs, if it does.
#[tactic(auto, unfolding(crate::specs::Findings::look_cause))]
pub fn look_cause(replay: &Replay<'_>, line: &LookLine) -> Option<Cause>
    ensures { result ≡ look_cause replay.now.deck replay.now.history line.now }
{
    if line.total == replay.total(line.cycle) {
        return None;
    }
    Some(Cause::Total)
}
