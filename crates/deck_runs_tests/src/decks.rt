//! The decks that are run, and tapes of two items, bucket by bucket.

use std::alloc::{AllocError, Global};

/// Two items on one disk of two slots; an updater that puts 11 into item 0, and then item 0's value and 5 more into item 1; three
/// cycles, and one monitor.
pub const MEETING: &[u8] =
    b"item,0,10,2\nitem,1,20,1\ndisk,2,1\nreader,0,0,1\nquery,0,0 1\nupdate,0,,0=11\nupdate,0,0,1=0+5\nset,cycles,3\nset,monitors,1\n";

/// The same by groups of two items.
pub const MEETING_BY_TWOS: &[u8] =
    b"item,0,10,2\nitem,1,20,1\ndisk,2,1\nreader,0,0,1\nquery,0,0 1\nupdate,0,,0=11\nupdate,0,0,1=0+5\nset,cycles,3\nset,monitors,1\nset,group,2\n";

/// `MEETING` with nothing to update, two cycles and two monitors: what is aired doesn't depend on the schedule.
pub const QUIET: &[u8] =
    b"item,0,10,2\nitem,1,20,1\ndisk,2,1\nreader,0,0,1\nquery,0,0 1\nset,cycles,2\nset,monitors,2\n";

/// Three updaters, each with an item of its own, four cycles, one monitor.
pub const BUSY: &[u8] =
    b"item,0,10,2\nitem,1,20,1\nitem,2,30,1\ndisk,3,1\nreader,0,0,1\nquery,0,0 1\nupdate,0,0,0=0+1\nupdate,0,0,0=0+1\nupdate,1,1,1=1+1\nupdate,2,2,2=2-1\nset,cycles,4\nset,monitors,1\n";

/// Three items on one disk of three slots; from cycle 2 on item 0 is aired twice, in four slots. An updater puts 11 into item 0; two cycles,
/// and one monitor.
pub const CHANGING: &[u8] =
    b"item,0,10,3\nitem,1,20,2\nitem,2,30,1\ndisk,3,1\nreplan,2,1 2,2 1\nreader,0,0,1\nquery,0,2 0\nupdate,0,,0=11\nset,cycles,2\nset,monitors,1\n";

/// The same with nothing to update.
pub const QUIET_CHANGING: &[u8] =
    b"item,0,10,3\nitem,1,20,2\nitem,2,30,1\ndisk,3,1\nreplan,2,1 2,2 1\nreader,0,0,1\nquery,0,2 0\nset,cycles,2\nset,monitors,1\n";

/// A bucket of two items under F-Matrix: its cycle, its slot, which is its item too, the item's value, and its column.
pub type BucketRow = (u8, u8, u8, [u8; 2]);

/// The tape of such buckets.
pub fn tape_of(alloc: Global, buckets: &[BucketRow]) -> Result<Vec<u8>, AllocError> {
    let mut tape = Vec::new(alloc);
    for (cycle, slot, value, [first, second]) in buckets {
        let (cycle, slot, value, first, second) = (*cycle, *slot, *value, *first, *second);
        tape.extend_from_slice(&[0, 0, 0, 32, 0x41, 0x44, 1, 1, 0, 0, 0, 2, 0, 0, 0, cycle])?;
        tape.extend_from_slice(&[0, slot, 0, slot, 0, 0, 0, 0, 0, 0, 0, value])?;
        tape.extend_from_slice(&[0, 0, 0, first, 0, 0, 0, second])?;
    }
    Ok(tape)
}

/// A bucket of three items whose entries are all 0: its edition, its cycle, its slot, its item, and the item's value.
pub type EditionRow = (u8, u8, u8, u8, u8);

/// The tape of a run in which 11 was put into item 0 before all cycles: the second cycle is of edition 1.
pub const CHANGING_TAPE: [EditionRow; 7] = [
    (0, 1, 0, 0, 11),
    (0, 1, 1, 1, 20),
    (0, 1, 2, 2, 30),
    (1, 2, 0, 0, 11),
    (1, 2, 1, 1, 20),
    (1, 2, 2, 0, 11),
    (1, 2, 3, 2, 30),
];

/// The tape of such buckets.
pub fn tape_of_three(alloc: Global, buckets: &[EditionRow]) -> Result<Vec<u8>, AllocError> {
    let mut tape = Vec::new(alloc);
    for (edition, cycle, slot, item, value) in buckets {
        let (edition, cycle, slot, item, value) = (*edition, *cycle, *slot, *item, *value);
        tape.extend_from_slice(&[0, 0, 0, 36, 0x41, 0x44, 1, 1, 0, edition, 0, 3])?;
        tape.extend_from_slice(&[0, 0, 0, cycle, 0, slot, 0, item])?;
        tape.extend_from_slice(&[0, 0, 0, 0, 0, 0, 0, value])?;
        tape.extend_from_slice(&[0, 0, 0, 0, 0, 0, 0, 0, 0, 0, 0, 0])?;
    }
    Ok(tape)
}
