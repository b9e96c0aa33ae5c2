//! A piece of a tape, judged once for all readers of a deck.
//!
//! What is judged of each member is the item that it carries, and how many members from there on fit the deck and are of one cycle. A
//! reader looks through the items for the next member that it wants, and only counts those before it. So a member that no reader
//! wants costs each of them a comparison of its item.

ghost use Rattle.std.specs.Prelude.{◌≡◌, ◌≢◌, ℕ, ◌<◌, ◌≤◌, ◌+◌, ◌-◌, ◌^◌, All, List, IfOk, IfSome, length, map, get_or};
ghost use Rattle.std.specs.List.{range_with_len};
ghost use Rattle.air_model.specs.Sessions.{SessionLine};
ghost use Rattle.receiver_core.specs.Receivers.{IsSettled, heard_count};
ghost use Rattle.listeners.specs.Listeners.{hears};
ghost use Rattle.listeners.specs.Private.JudgedPieces.{AreItemsOf, AreStretches, BeginsStretch, IsJudged, TellsItem, member_at};
ghost use Rattle.listeners.specs.Private.Sleeping.{listening};

use air_base::NoMemory;
use air_model::bucket::BucketFault;
use bucket_codec::BucketView;
use receiver_core::{Air, Receiver};
use std::alloc::Global;

/// The item of what is no bucket; that of an idle slot is the same.
const NO_ITEM: u16 = u16::MAX;

/// How many members from a place on are buckets that fit, and their cycle.
#[derive(Clone, Copy, Debug)]
pub(crate) struct Stretch {
    pub len: usize,
    pub cycle: u32,
}

/// No members.
const NO_STRETCH: Stretch = Stretch { len: 0, cycle: 0 };

/// The members of a piece, with what is judged of each.
#[derive(Drop)]
pub(crate) struct JudgedPiece<'a> {
    pub heard: Vec<Result<BucketView<'a>, BucketFault>>,
    pub items: Vec<u16>,
    pub stretches: Vec<Stretch>,
}

/// The item of a member, if it is a bucket with one.
fn item_in(heard: &Result<BucketView<'_>, BucketFault>) -> u16
    ensures { TellsItem result heard.now }
{
    match heard {
        Ok(bucket) => bucket.item(),
        Err(_) => NO_ITEM,
    }
}

/// The item of each member.
fn items_of(
    alloc: Global,
    heard: &[Result<BucketView<'_>, BucketFault>],
) -> Result<Vec<u16>, NoMemory>
    ensures { IfOk result (λ items. AreItemsOf heard.now items.items) }
{
    let mut items = Vec::with_capacity(alloc, heard.len())?;
    for member in heard {
        items.push(item_in(member))?;
    }
    Ok(items)
}

/// The stretch that begins with a member, by the one that begins after it.
fn stretch_before(air: &Air, heard: &Result<BucketView<'_>, BucketFault>, next: Stretch) -> Stretch
    requires { next.len + 1 < 2 ^ 64 }
    ensures { BeginsStretch air.now heard.now next result }
{
    let Ok(bucket) = heard else {
        return NO_STRETCH;
    };
    if !air.fits(bucket) {
        return NO_STRETCH;
    }
    let cycle = bucket.cycle();
    let len = if next.cycle == cycle { next.len + 1 } else { 1 };
    Stretch { len, cycle }
}

/// Finds the stretch that begins with each member, the last first.
fn find_stretches(
    air: &Air,
    heard: &[Result<BucketView<'_>, BucketFault>],
    stretches: &mut [Stretch],
)
    requires { length stretches.old ≡ length heard.now }
    ensures { AreStretches air.now heard.now stretches.new }
{
    let mut next = NO_STRETCH;
    let mut place = heard.len();
    while place > 0 {
        place -= 1;
        next = stretch_before(air, &heard[place], next);
        stretches[place] = next;
    }
}

/// The stretch that begins with each member.
fn stretches_of(
    alloc: Global,
    air: &Air,
    heard: &[Result<BucketView<'_>, BucketFault>],
) -> Result<Vec<Stretch>, NoMemory>
    ensures { IfOk result (λ stretches. AreStretches air.now heard.now stretches.items) }
{
    let mut stretches = vec![in alloc; NO_STRETCH; heard.len()]?;
    find_stretches(air, heard, &mut stretches);
    Ok(stretches)
}

impl<'a> JudgedPiece<'a> {
    /// The members of a piece, judged for readers who know this air.
    pub fn new(
        alloc: Global,
        air: &Air,
        heard: Vec<Result<BucketView<'a>, BucketFault>>,
    ) -> Result<JudgedPiece<'a>, NoMemory>
        ensures judged { IfOk result (IsJudged air.now) }
        ensures heard { IfOk result (λ piece. piece.heard.items ≡ heard.entry.items) }
    {
        let items = items_of(alloc, &heard)?;
        let stretches = stretches_of(alloc, air, &heard)?;
        Ok(JudgedPiece {
            heard,
            items,
            stretches,
        })
    }
}

/// How many of these items come before the wanted one; all of them where it isn't there.
fn wait_in(items: &[u16], wanted: Option<u16>) -> usize
    ensures within { result ≤ length items.now }
    ensures other { (j d : ℕ) → j < result → IfSome wanted (λ i. get_or items.now j d ≢ i) }
{
    match wanted {
        None => items.len(),
        Some(item) => first_of(items, item),
    }
}

/// The place of an item; the number of items where it isn't there.
fn first_of(items: &[u16], item: u16) -> usize
    ensures within { result ≤ length items.now }
    ensures other { (j d : ℕ) → j < result → get_or items.now j d ≢ item }
{
    let mut place = 0usize;
    while place < items.len() && items[place] != item {
        place += 1;
    }
    place
}

/// A settled receiver sleeps through the stretch that begins at a place, up to the next wanted member, or to the stretch's end: the place that is next.
pub(crate) fn sleep_in(receiver: &mut Receiver, piece: &JudgedPiece<'_>, from: usize) -> usize
    requires settled { IsSettled receiver.old }
    requires from { from < length piece.now.heard.items }
    requires counts { heard_count receiver.old.state.counts + (length piece.now.heard.items - from) < 2 ^ 64 }
    requires judged { IsJudged receiver.old.air piece.now }
    ensures next { (from ≤ result) × (result ≤ length piece.now.heard.items) }
    ensures settled { IsSettled receiver.new }
    ensures air { receiver.new.air ≡ receiver.old.air }
    ensures reader { receiver.new.reader ≡ receiver.old.reader }
    ensures counts { heard_count receiver.new.state.counts ≡ heard_count receiver.old.state.counts + (result - from) }
    ensures slept { (n : ℕ) (L : List SessionLine) → listening n receiver.new L
        ≡ hears (map (member_at piece.now.heard.items) (range_with_len from (result - from))) (listening n receiver.old L) }
{
    let stretch = piece.stretches[from];
    let wait = wait_in(&piece.items[from..from + stretch.len], receiver.wanted());
    if wait == 0 {
        return from;
    }
    receiver.doze(wait as u64, stretch.cycle);
    from + wait
}
