//! The conductor's job by groups of two items, called twice by itself: for one cycle, and after two commits for two more.

ghost use Rattle.std.specs.Prelude.{◌≡◌, ◌<◌, ◌≤◌, ◌+◌, ◌*◌, ℕ, [], length, slice_get, IfSome, OnOk, Some};
ghost use Rattle.air_base.specs.declared.limits.TheConstants.{MOST_DECK_BYTES};
ghost use Rattle.air_base.specs.declared.verdicts.Policy.TheVariants.{FMatrix};
ghost use Rattle.air_history.specs.Boards.{board_of};
ghost use Rattle.air_history.specs.Histories.{starts};
ghost use Rattle.air_model.specs.Decks.{values_in};
ghost use Rattle.bucket_codec.specs.declared.offsets.TheConstants.{ENTRY_BYTES, HEAD_BYTES};
ghost use Rattle.chunk_program.specs.Editions.{plans_in};
ghost use Rattle.cycle_snapshot.specs.SnapshotStates.{new_publisher};
ghost use Rattle.deck_runs.specs.PublishedBatches.{AreInStep, GoesOn, PublishesOn};
ghost use Rattle.station.specs.PassStates.{new_pass};

use crate::decks::{BucketRow, MEETING, tape_of};
use crate::jobs::{Conductor, new_conductor, update};
use air_base::{Form, NoMemory, Policy};
use air_devices::OpenGate;
use chunk_program::Plans;
use cycle_snapshot::{Publisher, publisher};
use deck_runs::{ConductFault, group_conductor_job};
use group_matrix::GroupBoard;
use item_catalog::{Deck, read_deck};
use station::{Station, UpdaterPass};
use std::alloc::Global;
use std::sync::Wait;
use std::test::Fail;

/// Does the job by groups for this number of cycles.
fn conduct_by_groups<R: Wait>(
    wait: &R,
    alloc: Global,
    station: &Station,
    deck: &Deck,
    plans: &Plans,
    source: &mut Publisher,
    conductor: &mut Conductor,
    groups: &mut GroupBoard,
    cycles: u32,
) -> Result<(), ConductFault>
    requires own { conductor.old.pass.station ≡ station.now }
    requires values { conductor.old.pass.values ≡ values_in deck.now }
    requires step { AreInStep conductor.old.pass source.old conductor.old.board }
    requires room { starts conductor.old.pass.seen + cycles ≤ source.old.most }
    requires most { source.old.most ≡ deck.now.settings.cycles }
    requires buffer { HEAD_BYTES + ENTRY_BYTES * length deck.now.items ≤ length conductor.old.buf.items }
    requires plans { plans.now ≡ plans_in deck.now }
    requires groups { (length groups.old.values ≡ length deck.now.items) × (1 ≤ groups.old.group) }
    requires columns { deck.now.settings.policy ≡ FMatrix }
    ensures pass { GoesOn conductor.old.pass conductor.new.pass }
    ensures publisher { PublishesOn source.old source.new }
    ensures step { OnOk result (AreInStep conductor.new.pass source.new conductor.new.board) }
    ensures started { OnOk result (starts conductor.new.pass.seen ≡ starts conductor.old.pass.seen + cycles) }
    ensures groups { (groups.new.group ≡ groups.old.group) × (length groups.new.values ≡ length groups.old.values) }
    ensures buffer { length conductor.new.buf.items ≡ length conductor.old.buf.items }
{
    deck.shows_well_made();
    let settings = deck.settings();
    let form = Form {
        policy: settings.policy,
        version: settings.version,
    };
    group_conductor_job(
        wait,
        alloc,
        station,
        &mut conductor.pass,
        source,
        &mut conductor.board,
        groups,
        plans,
        form,
        cycles,
        &mut conductor.mast,
        &mut conductor.buf,
        &OpenGate,
    )
}

/// Does the job for one cycle, then that of an updater, and then the job for two cycles more.
fn conduct_around_commits<R: Wait>(
    wait: &R,
    alloc: Global,
    station: &Station,
    deck: &Deck,
    plans: &Plans,
    source: &mut Publisher,
    updater: &mut UpdaterPass,
    conductor: &mut Conductor,
    groups: &mut GroupBoard,
) -> Result<Result<(), ConductFault>, NoMemory>
    requires new { updater.old ≡ new_pass station.now deck.now updater.old.number }
    requires number { updater.old.number < length deck.now.updates }
    requires pass { conductor.old.pass ≡ new_pass station.now deck.now (length deck.now.updates) }
    requires board { conductor.old.board ≡ board_of (values_in deck.now) [] }
    requires buffer { HEAD_BYTES + ENTRY_BYTES * length deck.now.items ≤ length conductor.old.buf.items }
    requires publisher { source.old ≡ new_publisher source.old.id (values_in deck.now) deck.now.settings.cycles }
    requires plans { plans.now ≡ plans_in deck.now }
    requires groups { (length groups.old.values ≡ length deck.now.items) × (1 ≤ groups.old.group) }
    requires columns { deck.now.settings.policy ≡ FMatrix }
    requires cycles { deck.now.settings.cycles ≡ 3 }
{
    let first = conduct_by_groups(
        wait, alloc, station, deck, plans, source, conductor, groups, 1,
    );
    if let Err(fault) = first {
        return Ok(Err(fault));
    }
    update(wait, alloc, station, deck, updater)?;
    Ok(conduct_by_groups(
        wait, alloc, station, deck, plans, source, conductor, groups, 2,
    ))
}

/// The pass of the deck's last updater; `None` if it has none.
fn last_updater(
    station: &Station,
    deck: &Deck,
    passes: &mut Vec<UpdaterPass>,
) -> Option<UpdaterPass>
    requires count { length passes.old.items ≡ length deck.now.updates }
    requires each { (by : ℕ) (p : _) → slice_get passes.old.items by ≡ Some p → p ≡ new_pass station.now deck.now by }
    ensures new { IfSome result (λ p. p ≡ new_pass station.now deck.now p.number) }
    ensures number { IfSome result (λ p. p.number < length deck.now.updates) }
{
    passes.pop()
}

/// What the conductor of a deck under F-Matrix answers, which has three cycles and one updater, and the tape of what it sent by groups of two, over a
/// mast with room for this number of bytes. The answer is `None` for another deck.
fn aired_by_groups<R: Wait>(
    wait: &R,
    alloc: Global,
    text: &[u8],
    room: usize,
) -> Result<Option<(Result<(), ConductFault>, Vec<u8>)>, Fail>
    requires { length text.now ≤ MOST_DECK_BYTES }
{
    let deck = read_deck(alloc, text)?;
    deck.shows_well_made();
    let settings = deck.settings();
    let (Policy::FMatrix, 3) = (settings.policy, settings.cycles) else {
        return Ok(None);
    };
    let plans = Plans::plan(alloc, &deck)?;
    let values = deck.values(alloc)?;
    let (station, mut passes, pass) = Station::new(alloc, &deck)?;
    let Some(mut updater) = last_updater(&station, &deck, &mut passes) else {
        return Ok(None);
    };
    let mut conductor = new_conductor(alloc, &deck, &values, pass, room)?;
    let mut groups = GroupBoard::new(alloc, deck.items(), 2)?;
    let (mut source, _monitors) = publisher(wait, alloc, &values, 1, settings.cycles)?;
    let answer = conduct_around_commits(
        wait,
        alloc,
        &station,
        &deck,
        &plans,
        &mut source,
        &mut updater,
        &mut conductor,
        &mut groups,
    );
    source.close(wait);
    let tape = Vec::from_slice(alloc, conductor.mast.sent())?;
    Ok(Some((answer?, tape)))
}

/// Both commits come in cycle 1: item 0 has 11, and item 1 has 16 by way of item 0. The own column of item 0 is 1 0, since it read nothing, and that
/// of item 1 is 1 1; so their group's is 1 1.
const GROUPS_TAPE: [BucketRow; 6] = [
    (1, 0, 10, [0, 0]),
    (1, 1, 20, [0, 0]),
    (2, 0, 11, [1, 1]),
    (2, 1, 16, [1, 1]),
    (3, 0, 11, [1, 1]),
    (3, 1, 16, [1, 1]),
];

#[test]
fn the_job_by_groups_airs_the_columns_of_groups(rt: HostRuntime) -> Result<(), Fail> {
    let aired = aired_by_groups(&rt, rt.alloc(), MEETING, 216)?;
    let tape = tape_of(rt.alloc(), &GROUPS_TAPE)?;
    assert_eq!(rt; aired, Some((Ok(()), tape)));
    Ok(())
}

#[test]
fn where_the_mast_has_no_room_the_job_by_groups_tells_what_was_sent(
    rt: HostRuntime,
) -> Result<(), Fail> {
    let aired = aired_by_groups(&rt, rt.alloc(), MEETING, 108)?;
    let tape = tape_of(rt.alloc(), &GROUPS_TAPE[..3])?;
    // the second call sent one bucket
    assert_eq!(rt; aired, Some((Err(ConductFault::Mast { sent: 1 }), tape)));
    Ok(())
}
