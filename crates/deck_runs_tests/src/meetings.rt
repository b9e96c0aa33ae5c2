//! A run in which an updater, the conductor and a monitor meet, as no run on one thread can.

ghost use Rattle.std.specs.Prelude.{◌≤◌, length};
ghost use Rattle.air_base.specs.declared.limits.TheConstants.{MOST_DECK_BYTES};

use crate::cases::{Case, Events, Other, RunLines, Tape, first_other};
use crate::decks::{BucketRow, MEETING, MEETING_BY_TWOS};
use meeting_gate::MeetingGate;
use std::alloc::Global;
use std::sync::Wait;
use std::test::Fail;
use std::thread::Threads;

/// The first commit comes before all cycles, the second in cycle 2: then item 1 has 16, by way of item 0.
const MEETING_TAPE: [BucketRow; 6] = [
    (1, 0, 11, [0, 0]),
    (1, 1, 20, [0, 0]),
    (2, 0, 11, [0, 0]),
    (2, 1, 20, [0, 0]),
    (3, 0, 11, [0, 0]),
    (3, 1, 16, [0, 2]),
];

/// The same by groups of two items: item 0 is aired with what item 1 came from.
const TAPE_BY_TWOS: [BucketRow; 6] = [
    (1, 0, 11, [0, 0]),
    (1, 1, 20, [0, 0]),
    (2, 0, 11, [0, 0]),
    (2, 1, 20, [0, 0]),
    (3, 0, 11, [0, 2]),
    (3, 1, 16, [0, 2]),
];

/// Where the updater, the conductor and the monitor meet, and then the tape isn't as expected.
fn meet<'a, R: Threads + Wait + Sync>(
    rt: &R,
    alloc: Global,
    deck: &'a [u8],
    tape: &'a [BucketRow],
) -> Result<([u64; 8], Option<Other>), Fail>
    requires { length deck.now ≤ MOST_DECK_BYTES }
{
    let case = Case {
        deck,
        room: 216,
        run: Ok(RunLines {
            events: Events::Listed(&[Some((0, 0)), None, None, Some((0, 1)), None]),
            glances: &[(2, 2, Some(31))],
            looks: &[(3, 3, Some(27))],
        }),
        tape: Tape::Buckets(tape),
    };
    let gate = MeetingGate::new();
    let other = first_other(rt, alloc, &case, &gate)?;
    Ok((gate.counts(), other))
}

#[test]
fn a_commit_a_cycle_and_a_look_meet(rt: HostRuntime) -> Result<(), Fail> {
    let met = meet(&rt, rt.alloc(), MEETING, &MEETING_TAPE)?;
    assert_eq!(rt; met, ([1, 1, 1, 1, 1, 1, 1, 0], None));
    Ok(())
}

#[test]
fn by_groups_they_meet_alike_and_the_groups_columns_are_aired(rt: HostRuntime) -> Result<(), Fail> {
    let met = meet(&rt, rt.alloc(), MEETING_BY_TWOS, &TAPE_BY_TWOS)?;
    assert_eq!(rt; met, ([1, 1, 1, 1, 1, 1, 1, 0], None));
    Ok(())
}
