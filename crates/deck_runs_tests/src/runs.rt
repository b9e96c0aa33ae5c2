//! Runs whose outcome doesn't depend on the schedule.

use crate::cases::{Case, Events, RunLines, Tape, first_other};
use crate::decks::{BUSY, BucketRow, EditionRow, QUIET, QUIET_CHANGING};
use air_devices::OpenGate;
use deck_runs::RunFault;
use std::test::Fail;

/// The tape of a run without updates.
const QUIET_TAPE: [BucketRow; 4] = [
    (1, 0, 10, [0, 0]),
    (1, 1, 20, [0, 0]),
    (2, 0, 10, [0, 0]),
    (2, 1, 20, [0, 0]),
];

/// The tape of a run without updates whose second cycle is of edition 1.
const QUIET_CHANGING_TAPE: [EditionRow; 7] = [
    (0, 1, 0, 0, 10),
    (0, 1, 1, 1, 20),
    (0, 1, 2, 2, 30),
    (1, 2, 0, 0, 10),
    (1, 2, 1, 1, 20),
    (1, 2, 2, 0, 10),
    (1, 2, 3, 2, 30),
];

#[test]
fn without_updates_each_cycle_airs_the_first_values(rt: HostRuntime) -> Result<(), Fail> {
    let case = Case {
        deck: QUIET,
        room: 144,
        run: Ok(RunLines {
            events: Events::Listed(&[None, None]),
            glances: &[(0, 2, Some(30)), (0, 2, Some(30))],
            looks: &[(2, 2, Some(30)), (2, 2, Some(30))],
        }),
        tape: Tape::Buckets(&QUIET_TAPE),
    };
    assert_eq!(rt; first_other(&rt, rt.alloc(), &case, &OpenGate)?, None);
    Ok(())
}

#[test]
fn all_updates_are_committed_and_all_cycles_aired(rt: HostRuntime) -> Result<(), Fail> {
    let case = Case {
        deck: BUSY,
        room: 480,
        run: Ok(RunLines {
            events: Events::Counted(4, 4),
            glances: &[(0, 4, None)],
            looks: &[(4, 4, None)],
        }),
        tape: Tape::Bytes(480),
    };
    assert_eq!(rt; first_other(&rt, rt.alloc(), &case, &OpenGate)?, None);
    Ok(())
}

#[test]
fn where_the_mast_fails_the_first_buckets_were_sent(rt: HostRuntime) -> Result<(), Fail> {
    let case = Case {
        deck: QUIET,
        room: 108,
        run: Err(RunFault::Mast { sent: 3 }),
        tape: Tape::Buckets(&QUIET_TAPE[..3]),
    };
    assert_eq!(rt; first_other(&rt, rt.alloc(), &case, &OpenGate)?, None);
    Ok(())
}

#[test]
fn each_cycle_is_aired_with_the_program_in_force(rt: HostRuntime) -> Result<(), Fail> {
    let case = Case {
        deck: QUIET_CHANGING,
        room: 280,
        run: Ok(RunLines {
            events: Events::Listed(&[None, None]),
            glances: &[(0, 2, Some(60))],
            looks: &[(2, 2, Some(60))],
        }),
        tape: Tape::Editions(&QUIET_CHANGING_TAPE),
    };
    assert_eq!(rt; first_other(&rt, rt.alloc(), &case, &OpenGate)?, None);
    Ok(())
}

#[test]
fn where_the_mast_fails_the_buckets_of_both_editions_are_counted(
    rt: HostRuntime,
) -> Result<(), Fail> {
    let case = Case {
        deck: QUIET_CHANGING,
        room: 239,
        run: Err(RunFault::Mast { sent: 5 }),
        tape: Tape::Editions(&QUIET_CHANGING_TAPE[..5]),
    };
    assert_eq!(rt; first_other(&rt, rt.alloc(), &case, &OpenGate)?, None);
    Ok(())
}
