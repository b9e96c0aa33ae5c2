//! The rules of a session, each as one step of a receiver.
//!
//! Each function does to the state what words of `air_model` say.

ghost use Rattle.std.specs.Prelude.{◌≡◌, ◌≢◌, ◌<◌, ◌+◌, ◌^◌, [], length, max, IfSome, Ok, Some};
ghost use Rattle.air_base.specs.declared.verdicts.VerdictKind.TheVariants.{Abort, Aged};
ghost use Rattle.air_model.specs.Aired.{pix_at};
ghost use Rattle.air_model.specs.Buckets.{IsInRange, count_of, item_of, kind_of};
ghost use Rattle.air_model.specs.Copies.{keep, with_copy};
ghost use Rattle.air_model.specs.Judges.{by_entries};
ghost use Rattle.air_model.specs.Sessions.{accept_if_whole, hear, next_attempt, next_query, open_bucket, read_in, wanted, with_line};
ghost use Rattle.air_model.specs.Reads.{read_with};
ghost use Rattle.receiver_core.specs.Private.Attempts.{is_read_wanted, read_from_bucket};
ghost use Rattle.receiver_core.specs.Private.Offers.{without_clash};
ghost use Rattle.receiver_core.specs.FeedAnswers.{fed_of};
ghost use Rattle.receiver_core.specs.LastReads.{in_state};
ghost use Rattle.receiver_core.specs.Receivers.{heard_count};

use super::{Fed, Receiver};
use crate::airs::Air;
use air_base::{Clash, Verdict, VerdictKind};
use bucket_codec::{BucketView, ViewKind};
use pix_cache::PixCache;

impl Receiver {
    /// Hears one bucket: counts it as foreign, dozed or late, or opens it.
    pub(super) fn hear_bucket(&mut self, bucket: &BucketView<'_>) -> Fed
        requires given { self.old.state.lines ≡ [] }
        requires counts { heard_count self.old.state.counts + 1 < 2 ^ 64 }
        requires range { IsInRange bucket.now }
        ensures fed { result ≡ fed_of self.old (Ok bucket.now) }
        ensures heard { self.new ≡ in_state self.old (hear (by_entries self.old.air.scheme) self.old.air self.old.reader (Some bucket.now) self.old.state) }
    {
        if !self.air.fits(bucket) {
            self.counts.foreign += 1;
            return Fed::Foreign;
        }
        let cycle = bucket.cycle();
        self.come_to(cycle);
        if !self.wants(bucket) {
            self.counts.dozed += 1;
            return Fed::Dozed;
        }
        if self.held.is_late(cycle) {
            self.counts.late += 1;
            return Fed::Late;
        }
        self.open(bucket);
        Fed::Opened
    }

    /// Raises the newest cycle if this one is newer, and reorders the copies.
    pub(super) fn come_to(&mut self, cycle: u32)
        ensures { self.new ≡ record self.old { state = record self.old.state { now = max self.old.state.now cycle } } }
    {
        let now = self.latest.max(cycle);
        reorder(&mut self.copies, &self.air, self.latest, now);
        self.latest = now;
    }

    /// Tells whether the bucket has the wanted item.
    pub(super) fn wants(&self, bucket: &BucketView<'_>) -> bool
        ensures { result ≡ is_read_wanted (wanted self.now.reader self.now.state) (read_in bucket.now.cycle bucket.now.body) }
    {
        let Some(item) = self.wanted() else {
            return false;
        };
        match bucket.kind() {
            ViewKind::Idle => false,
            ViewKind::Column | ViewKind::Vector => item == bucket.item(),
        }
    }

    /// Holds the read, or ends the attempt: as aged, else as a clash. Offers the read to the copies in all cases.
    pub(super) fn open(&mut self, bucket: &BucketView<'_>)
        requires given { self.old.state.lines ≡ [] }
        requires counts { self.old.state.counts.opened + 1 < 2 ^ 64 }
        requires range { IsInRange bucket.now }
        requires busy { kind_of bucket.now.body ≢ 0 }
        requires counted { count_of bucket.now.body ≡ self.old.air.items }
        requires wanted { wanted self.old.reader self.old.state ≡ Some (item_of bucket.now.body) }
        ensures { self.new ≡ in_state self.old (open_bucket (by_entries self.old.air.scheme) self.old.air self.old.reader (read_from_bucket bucket.now) self.old.state) }
    {
        self.counts.opened += 1;
        let column = self.column.as_mut_slice();
        bucket.fill(column);
        let (item, cycle, value) = (bucket.item(), bucket.cycle(), bucket.value());
        if self.held.is_far(self.air.version(), cycle) {
            self.copies.keep(item, cycle, value, column);
            self.end_aged(item, cycle);
            return;
        }
        let clash = self.held.try_hold(item, cycle, value, column);
        offer(&mut self.copies, clash, item, cycle, value, column);
        match clash {
            None => self.accept_if_whole(),
            Some(clash) => self.abort(item, cycle, clash.item),
        }
    }

    /// Accepts the query if all its items are held, and begins the next one.
    pub(super) fn accept_if_whole(&mut self)
        requires given { self.old.state.lines ≡ [] }
        requires left { self.old.state.query < length self.old.reader.queries }
        ensures { self.new ≡ in_state self.old (accept_if_whole (by_entries self.old.air.scheme) self.old.air self.old.reader self.old.state) }
    {
        if self.wanted().is_none() {
            self.give(VerdictKind::Accept);
            self.next_query();
        }
    }

    /// Ends the attempt, since the read of an item in a cycle clashes with the held one of another.
    pub(super) fn abort(&mut self, item: u16, cycle: u32, clash: u16)
        requires given { self.old.state.lines ≡ [] }
        requires left { self.old.state.query < length self.old.reader.queries }
        ensures { self.new ≡ in_state self.old (next_attempt self.old.reader (with_line (by_entries self.old.air.scheme) (Abort item cycle clash) self.old.state)) }
    {
        self.give(VerdictKind::Abort { item, cycle, clash });
        self.next_attempt();
    }

    /// Ends the attempt, since the read of an item in a cycle lies too far from the held ones.
    pub(super) fn end_aged(&mut self, item: u16, cycle: u32)
        requires given { self.old.state.lines ≡ [] }
        requires left { self.old.state.query < length self.old.reader.queries }
        ensures { self.new ≡ in_state self.old (next_attempt self.old.reader (with_line (by_entries self.old.air.scheme) (Aged item cycle) self.old.state)) }
    {
        self.give(VerdictKind::Aged { item, cycle });
        self.next_attempt();
    }

    /// Gives the attempt at hand this verdict, which waits from now on.
    pub(super) fn give(&mut self, kind: VerdictKind)
        requires given { self.old.state.lines ≡ [] }
        ensures { self.new ≡ in_state self.old (with_line (by_entries self.old.air.scheme) kind self.old.state) }
    {
        self.last.set(self.held.line_reads());
        self.waiting = Some(Verdict {
            query: self.query,
            attempt: self.attempt,
            kind,
        });
    }

    /// Begins another attempt, or the next query after the last try.
    #[tactic(auto, unfolding(air_model::specs::Sessions::next_attempt))]
    pub(super) fn next_attempt(&mut self)
        requires { self.old.state.query < length self.old.reader.queries }
        ensures { self.new ≡ record self.old { state = next_attempt self.old.reader self.old.state } }
    {
        if self.attempt < self.reader.tries() {
            self.attempt += 1;
            self.held.clear();
            return;
        }
        self.next_query();
    }

    /// Begins the next query.
    #[tactic(auto, unfolding(air_model::specs::Sessions::next_query))]
    pub(super) fn next_query(&mut self)
        requires { self.old.state.query < length self.old.reader.queries }
        ensures { self.new ≡ record self.old { state = next_query self.old.state } }
    {
        self.query += 1;
        self.attempt = 1;
        self.held.clear();
    }
}

/// Puts the copies in the order of another cycle, if that is of another edition.
fn reorder(copies: &mut PixCache, air: &Air, before: u32, now: u32)
    requires numbers { length (pix_at air.now now) ≡ length copies.old.pix }
    requires order { copies.old.pix ≡ pix_at air.now before }
    ensures { copies.new ≡ record copies.old { pix = pix_at air.now now } }
{
    if before != now && air.edition_at(before) != air.edition_at(now) {
        copies.reorder(air.pix(now));
    }
}

/// Drops the copy of the item with which the read clashes, and offers the read to the copies.
fn offer(
    copies: &mut PixCache,
    clash: Option<Clash>,
    item: u16,
    cycle: u32,
    value: u64,
    column: &[u32],
)
    requires clash { IfSome clash (λ c. c.item < length copies.old.pix) }
    requires item { item < length copies.old.pix }
    requires column { length column.now ≡ length copies.old.pix }
    ensures { let x = read_with item cycle value column.now in
        copies.new ≡ record copies.old { copies = keep copies.old.room copies.old.pix (with_copy x (without_clash clash copies.old.copies)) } }
{
    if let Some(clash) = clash {
        copies.drop_copy(clash.item);
    }
    copies.keep(item, cycle, value, column);
}
