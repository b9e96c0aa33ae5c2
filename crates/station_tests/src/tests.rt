//! Calls one after another with answers by hand, and all side by side.
//!
//! At the end the closed history has each call once, in its caller's order. Each receipt has its place there and says what a core answers there. Each
//! start gave its number and the events since the start before, including itself.

use crate::crews::{HistoryCounts, close, open, work_all};
use crate::replays::Mark::{Commit, Start};
use crate::replays::{gives, says};
use crate::workers::{Conductor, Worker};
use std::alloc::Global;
use std::sync::Wait;
use std::test::Fail;
use std::thread::Threads;

/// Two items and two updaters: the first adds 1 to item 0, the second puts item 0 plus 5 into item 1, and item 1 minus 2 into
/// item 0.
const CALLED: &[u8] =
    b"item,0,10,1\nitem,1,20,1\ndisk,2,1\nupdate,0,0,0=0+1\nupdate,1,0 1,1=0+5 0=1-2\n";

/// The number of commits that each updater made, and the number of cycles that the conductor started.
fn made(one: &Worker, two: &Worker, conductor: &Conductor) -> [u32; 3] {
    [one.pass.made(), two.pass.made(), conductor.pass.started()]
}

/// Makes calls one after another on one thread. The answer is what is found then, and whether each call was answered as computed by hand.
fn call_each<R: Wait>(
    wait: &R,
    alloc: Global,
) -> Result<Option<(HistoryCounts, [bool; 10])>, Fail> {
    let Some((station, mut conductor, mut one, mut two)) = open(alloc, CALLED)? else {
        return Ok(None);
    };
    let before = made(&one, &two, &conductor);
    conductor.start_all(wait, alloc, &station, 1);
    one.commit_all(wait, alloc, &station, 1);
    two.commit_all(wait, alloc, &station, 1);
    let between = made(&one, &two, &conductor);
    conductor.start_all(wait, alloc, &station, 2);
    one.commit_all(wait, alloc, &station, 1);
    let starts = &conductor.starts;
    let told = [
        says(&one.receipts, 0, 1, 1, &[10], &[11]),
        says(&two.receipts, 0, 2, 1, &[11, 20], &[16, 18]),
        says(&one.receipts, 1, 5, 3, &[18], &[19]),
        gives(starts, 0, 1, &[Start]),
        gives(starts, 1, 2, &[Commit(0, 0), Commit(1, 0), Start]),
        gives(starts, 2, 3, &[Start]),
        !gives(starts, 1, 2, &[Start]),
        before == [0, 0, 0],
        between == [1, 1, 1],
        made(&one, &two, &conductor) == [2, 1, 3],
    ];
    match close(alloc, station, conductor, one, two, &[10, 20])? {
        Some(found) => Ok(Some((found, told))),
        None => Ok(None),
    }
}

#[test]
fn calls_answer_one_after_another(rt: HostRuntime) -> Result<(), Fail> {
    let found = (6, 3, [2, 1, 3], Ok([19, 16]));
    assert_eq!(rt; call_each(&rt, rt.alloc())?, Some((found, [true; 10])));
    Ok(())
}

/// Three items and two updaters: the first adds 1 to item 0 and puts the sum into item 2, the second adds 2 to item 0 and 3
/// to item 1.
const SHARED: &[u8] =
    b"item,0,10,1\nitem,1,20,1\nitem,2,30,1\ndisk,3,1\nupdate,0,0,0=0+1 2=0+1\nupdate,1,0 1,0=0+2 1=1+3\n";

/// Lets each updater make this number of commits while this number of cycles is started, and closes the station.
fn let_work<R: Threads + Wait + Sync>(
    rt: &R,
    alloc: Global,
    commits: u32,
    cycles: u32,
) -> Result<Option<HistoryCounts>, Fail> {
    let Some((station, mut conductor, mut one, mut two)) = open(alloc, SHARED)? else {
        return Ok(None);
    };
    work_all(
        rt,
        alloc,
        &station,
        &mut conductor,
        &mut one,
        &mut two,
        commits,
        cycles,
    );
    Ok(close(alloc, station, conductor, one, two, &[10, 20, 30])?)
}

#[test]
fn two_updaters_with_a_thousand_commits_and_fifty_starts(rt: HostRuntime) -> Result<(), Fail> {
    let found = [
        let_work(&rt, rt.alloc(), 1000, 50)?,
        let_work(&rt, rt.alloc(), 3, 0)?,
        let_work(&rt, rt.alloc(), 0, 0)?,
    ];
    let told = [
        Some((2050, 50, [1000, 1000, 50], Ok([3010, 3020]))),
        Some((6, 0, [3, 3, 0], Ok([19, 29]))),
        Some((0, 0, [0, 0, 0], Ok([10, 20]))),
    ];
    assert_eq!(rt; found, told);
    Ok(())
}
