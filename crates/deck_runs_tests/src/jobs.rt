//! The three jobs of a run, each called once, one after the other on one thread: what each answers, and what it leaves.
//!
//! The updater commits before the conductor begins, so that each cycle airs what it left. The monitor looks before and after. If the mast fails in a
//! cycle, that cycle was started and published, and the board is that of all events that the pass has seen.

ghost use Rattle.std.specs.Prelude.{◌≡◌, ◌<◌, ◌≤◌, ◌+◌, ◌*◌, [], length, IfOk};
ghost use Rattle.air_base.specs.declared.limits.TheConstants.{MOST_DECK_BYTES};
ghost use Rattle.air_history.specs.Boards.{board_of};
ghost use Rattle.air_model.specs.Decks.{values_in};
ghost use Rattle.bucket_codec.specs.declared.offsets.TheConstants.{ENTRY_BYTES, HEAD_BYTES};
ghost use Rattle.chunk_program.specs.Editions.{plans_in};
ghost use Rattle.cycle_snapshot.specs.SnapshotStates.{new_publisher};
ghost use Rattle.station.specs.PassStates.{new_pass};

use crate::boards::{BoardEnd, end_of, written_early};
use crate::decks::{BucketRow, CHANGING, CHANGING_TAPE, MEETING, tape_of, tape_of_three};
use air_base::{Form, NoMemory};
use air_devices::{MemMast, OpenGate};
use air_model::reports::LookLine;
use bucket_codec::offsets::{ENTRY_BYTES, HEAD_BYTES};
use chunk_program::Plans;
use control_matrix::Board;
use cycle_snapshot::{Monitor, Publisher, publisher};
use deck_runs::{ConductFault, conductor_job, monitor_job, updater_job};
use item_catalog::{Deck, read_deck};
use station::{ConductorPass, Station, UpdaterPass};
use std::alloc::Global;
use std::sync::Wait;
use std::test::Fail;

/// What the conductor answered, and what the jobs left: the number of commits and starts that their passes made, the lines of the monitor, the board,
/// and the tape of what was sent.
#[derive(Debug, Drop, PartialEq, Eq)]
struct JobsEnd {
    conducted: Result<(), ConductFault>,
    made: u32,
    started: u32,
    first: LookLine,
    last: LookLine,
    board: BoardEnd,
    tape: Vec<u8>,
}

/// The conductor: its pass, its board, its publisher, its mast, and room for the bytes of a bucket.
#[derive(Drop)]
pub struct Conductor {
    pub pass: ConductorPass,
    pub board: Board,
    pub mast: MemMast,
    pub buf: Vec<u8>,
}

/// Does the job of an updater that has made no commit.
pub fn update<R: Wait>(
    wait: &R,
    alloc: Global,
    station: &Station,
    deck: &Deck,
    pass: &mut UpdaterPass,
) -> Result<u32, NoMemory>
    requires new { pass.old ≡ new_pass station.now deck.now pass.old.number }
    requires number { pass.old.number < length deck.now.updates }
{
    deck.shows_well_made();
    let number = pass.by();
    let mine = deck.updates(number);
    updater_job(wait, alloc, station, pass, mine, &OpenGate)?;
    Ok(pass.made())
}

/// Does the job of a conductor that has started no cycle.
fn conduct<R: Wait>(
    wait: &R,
    alloc: Global,
    station: &Station,
    deck: &Deck,
    plans: &Plans,
    source: &mut Publisher,
    conductor: &mut Conductor,
) -> Result<(), ConductFault>
    requires pass { conductor.old.pass ≡ new_pass station.now deck.now (length deck.now.updates) }
    requires board { conductor.old.board ≡ board_of (values_in deck.now) [] }
    requires buffer { HEAD_BYTES + ENTRY_BYTES * length deck.now.items ≤ length conductor.old.buf.items }
    requires publisher { source.old ≡ new_publisher source.old.id (values_in deck.now) deck.now.settings.cycles }
    requires plans { plans.now ≡ plans_in deck.now }
{
    deck.shows_well_made();
    let settings = deck.settings();
    let form = Form {
        policy: settings.policy,
        version: settings.version,
    };
    conductor_job(
        wait,
        alloc,
        station,
        &mut conductor.pass,
        source,
        &mut conductor.board,
        plans,
        form,
        settings.cycles,
        &mut conductor.mast,
        &mut conductor.buf,
        &OpenGate,
    )
}

/// Does the jobs one after another; `None` if there is no monitor.
fn work<R: Wait>(
    wait: &R,
    alloc: Global,
    station: &Station,
    deck: &Deck,
    plans: &Plans,
    source: &mut Publisher,
    monitors: &mut Vec<Monitor>,
    updater: &mut UpdaterPass,
    conductor: &mut Conductor,
) -> Result<Option<JobsEnd>, NoMemory>
    requires new { updater.old ≡ new_pass station.now deck.now updater.old.number }
    requires number { updater.old.number < length deck.now.updates }
    requires pass { conductor.old.pass ≡ new_pass station.now deck.now (length deck.now.updates) }
    requires board { conductor.old.board ≡ board_of (values_in deck.now) [] }
    requires buffer { HEAD_BYTES + ENTRY_BYTES * length deck.now.items ≤ length conductor.old.buf.items }
    requires publisher { source.old ≡ new_publisher source.old.id (values_in deck.now) deck.now.settings.cycles }
    requires plans { plans.now ≡ plans_in deck.now }
{
    let Some(mut monitor) = monitors.pop() else {
        return Ok(None);
    };
    let first = monitor_job(&mut monitor, 2, &OpenGate)?;
    let made = update(wait, alloc, station, deck, updater)?;
    let conducted = conduct(wait, alloc, station, deck, plans, source, conductor);
    let last = monitor_job(&mut monitor, 100, &OpenGate)?;
    Ok(Some(JobsEnd {
        conducted,
        made,
        started: conductor.pass.started(),
        first,
        last,
        board: end_of(alloc, &conductor.board)?,
        tape: Vec::from_slice(alloc, conductor.mast.sent())?,
    }))
}

/// A conductor of the pass, with the board of the first values, and a mast with room for this number of bytes.
pub fn new_conductor(
    alloc: Global,
    deck: &Deck,
    values: &[u64],
    pass: ConductorPass,
    room: usize,
) -> Result<Conductor, NoMemory>
    requires { values.now ≡ values_in deck.now }
    ensures pass { IfOk result (λ c. c.pass ≡ pass) }
    ensures board { IfOk result (λ c. c.board ≡ board_of (values_in deck.now) []) }
    ensures buffer { IfOk result (λ c. HEAD_BYTES + ENTRY_BYTES * length deck.now.items ≤ length c.buf.items) }
{
    deck.shows_well_made();
    Ok(Conductor {
        pass,
        board: Board::new(alloc, values)?,
        mast: MemMast::new(alloc, room, Vec::new(alloc))?,
        buf: vec![in alloc; 0; HEAD_BYTES + ENTRY_BYTES * deck.items() as usize]?,
    })
}

/// What the jobs of a deck of one updater and one monitor leave, over a mast with room for this number of bytes; `None` for another deck.
fn left_by_jobs<R: Wait>(
    wait: &R,
    alloc: Global,
    text: &[u8],
    room: usize,
) -> Result<Option<JobsEnd>, Fail>
    requires { length text.now ≤ MOST_DECK_BYTES }
{
    let deck = read_deck(alloc, text)?;
    let plans = Plans::plan(alloc, &deck)?;
    let values = deck.values(alloc)?;
    let (station, mut passes, pass) = Station::new(alloc, &deck)?;
    let Some(mut updater) = passes.pop() else {
        return Ok(None);
    };
    let mut conductor = new_conductor(alloc, &deck, &values, pass, room)?;
    deck.shows_well_made();
    let settings = deck.settings();
    let (mut source, mut monitors) = publisher(wait, alloc, &values, 1, settings.cycles)?;
    let left = work(
        wait,
        alloc,
        &station,
        &deck,
        &plans,
        &mut source,
        &mut monitors,
        &mut updater,
        &mut conductor,
    );
    source.close(wait);
    Ok(left?)
}

/// Both commits come before all cycles: item 0 has 11, and item 1 has 16 by way of item 0.
const JOBS_TAPE: [BucketRow; 6] = [
    (1, 0, 11, [0, 0]),
    (1, 1, 16, [0, 0]),
    (2, 0, 11, [0, 0]),
    (2, 1, 16, [0, 0]),
    (3, 0, 11, [0, 0]),
    (3, 1, 16, [0, 0]),
];

/// What a monitor of number 0 sees.
fn line(cycle: u32, total: u64) -> LookLine {
    LookLine {
        monitor: 0,
        cycle,
        total,
    }
}

#[test]
fn each_job_is_done_where_memory_is_ample(rt: HostRuntime) -> Result<(), Fail> {
    let left = left_by_jobs(&rt, rt.alloc(), MEETING, 216)?;
    let wanted = JobsEnd {
        conducted: Ok(()),
        made: 2,
        started: 3,
        first: line(0, 30),
        last: line(3, 27),
        board: written_early(rt.alloc(), 3, &[11, 16])?,
        tape: tape_of(rt.alloc(), &JOBS_TAPE)?,
    };
    assert_eq!(rt; left, Some(wanted));
    Ok(())
}

#[test]
fn where_the_mast_has_no_room_the_conductor_tells_what_was_sent(
    rt: HostRuntime,
) -> Result<(), Fail> {
    let left = left_by_jobs(&rt, rt.alloc(), MEETING, 108)?;
    let wanted = JobsEnd {
        conducted: Err(ConductFault::Mast { sent: 3 }),
        made: 2,
        started: 2,
        first: line(0, 30),
        last: line(2, 27),
        board: written_early(rt.alloc(), 2, &[11, 16])?,
        tape: tape_of(rt.alloc(), &JOBS_TAPE[..3])?,
    };
    assert_eq!(rt; left, Some(wanted));
    Ok(())
}

#[test]
fn the_conductor_counts_the_buckets_of_both_editions(rt: HostRuntime) -> Result<(), Fail> {
    let left = left_by_jobs(&rt, rt.alloc(), CHANGING, 239)?;
    let wanted = JobsEnd {
        conducted: Err(ConductFault::Mast { sent: 5 }),
        made: 1,
        started: 2,
        first: line(0, 60),
        last: line(2, 61),
        board: written_early(rt.alloc(), 2, &[11, 20, 30])?,
        tape: tape_of_three(rt.alloc(), &CHANGING_TAPE[..5])?,
    };
    assert_eq!(rt; left, Some(wanted));
    Ok(())
}
