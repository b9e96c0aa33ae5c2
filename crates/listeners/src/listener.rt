//! A receiver, with the lines of the verdicts that it has handed out.
//!
//! It is seen as its reader's state with every line up to now. It takes the verdicts before each member, and hears it.

ghost use Rattle.std.specs.Prelude.{◌≡◌, ◌⊎◌, ℕ, true, false, Option, ◌<◌, ◌≤◌, ◌+◌, ◌-◌, ◌*◌, ◌^◌, ◌++◌, ◌∷◌, [], All, IfOk, OnOk, Some, length, map};
ghost use Rattle.std.specs.List.{range_with_len};
ghost use Rattle.std.specs.Result.{result_ok};
ghost use Rattle.air_ether.specs.declared.ether.TheConstants.{MOST_PUSHES};
ghost use Rattle.air_ether.specs.HeardPlaces.{IsPlacesAfter, left_before};
ghost use Rattle.air_ether.specs.HeardSoFar.{IsQuiet};
ghost use Rattle.air_model.specs.Buckets.{Bucket, IsInRange, entry_len, most_count};
ghost use Rattle.air_model.specs.Disks.{all_items};
ghost use Rattle.air_model.specs.Programs.{program as slots_of};
ghost use Rattle.air_model.specs.Reports.{line_by};
ghost use Rattle.air_sender.specs.BoardBuckets.{EntriesBelow, bucket_on};
ghost use Rattle.bucket_codec.specs.declared.offsets.TheConstants.{HEAD_BYTES};
ghost use Rattle.receiver_core.specs.Receivers.{heard_count};
ghost use Rattle.listeners.specs.AiredCycles.{AreFitting};
ghost use Rattle.listeners.specs.Listeners.{ChangesNoAttempt, end_state, hears, hears_one, listener_of};
ghost use Rattle.listeners.specs.Private.Endings.{lines_and_counts};
ghost use Rattle.listeners.specs.PlaceListeners.{given_at};
ghost use Rattle.listeners.specs.Private.JudgedPieces.{IsJudged, member_at};
ghost use Rattle.listeners.specs.Private.PlaceSteps.{AreMembers, places_to};

use crate::cycles::{hear_slot, sleep};
use crate::judged::{JudgedPiece, sleep_in};
use crate::last_buckets::LastBuckets;
use crate::places::{hear_place, sleep_places};
use crate::readers::Sessions;
use crate::verdicts::{SessionLine, end_queries, take_verdicts};
use air_base::{Counts, Form, NoMemory};
use air_ether::PlaceEther;
use air_model::bucket::BucketFault;
use air_model::reports::{CountsLine, VerdictLine};
use air_sender::Source;
use bucket_codec::BucketView;
use chunk_program::{Planned, Program};
use receiver_core::Receiver;
use std::alloc::Global;
use std::marker::Model;

/// A receiver of a deck, and its verdict lines so far.
#[derive(Drop)]
pub struct Listener {
    number: u32,
    receiver: Receiver,
    lines: Vec<SessionLine>,
}

impl Model for Listener {
    ghost use Rattle.air_model.specs.SessionLaws.{after};
    ghost use Rattle.listeners.specs.Listeners.{Listener};

    ghost Value = { Listener };

    ghost view = { λ l. record { number = l.number; air = l.receiver.air; reader = l.receiver.reader; state = after l.lines.items l.receiver.state } };
}

impl Listener {
    /// The deck's reader of a number, before it hears anything.
    pub fn new(alloc: Global, planned: &Planned, number: u32) -> Result<Listener, NoMemory>
        requires { number < length planned.now.readers }
        ensures { IfOk result (λ l. l ≡ listener_of planned.now number) }
    {
        Ok(Listener {
            number,
            receiver: Receiver::new(alloc, planned.deck(), number, planned.plans())?,
            lines: Vec::new(alloc),
        })
    }

    /// Takes the verdicts before the next member, and hears it. What `decode` answers is in range.
    pub fn hear(
        &mut self,
        alloc: Global,
        heard: &Result<BucketView<'_>, BucketFault>,
    ) -> Result<(), NoMemory>
        requires counts { heard_count self.old.state.counts + 1 < 2 ^ 64 }
        requires range { IfOk heard.now IsInRange }
        ensures heard { OnOk result (self.new ≡ hears_one (result_ok heard.now) self.old) }

        // What is refused or foreign changes no attempt.
        ensures alone { OnOk result (ChangesNoAttempt heard.now self.old self.new) }
    {
        take_verdicts(alloc, &mut self.receiver, &mut self.lines)?;
        self.receiver.hear(heard);
        Ok(())
    }

    /// Takes the verdicts before the bucket of a slot, and hears what a source airs in its cycle from this slot on, up to the next wanted
    /// bucket, or to the end: the slot after.
    pub(crate) fn hear_stretch<S: Source>(
        &mut self,
        alloc: Global,
        program: &Program,
        source: &S,
        form: Form,
        slot: u32,
        buf: &mut [u8],
    ) -> Result<u32, NoMemory>
        requires slot { slot < length (slots_of program.now.disks) }
        requires counts { heard_count self.old.state.counts + (length (slots_of program.now.disks) - slot) < 2 ^ 64 }
        requires fitting { AreFitting self.old.air form program.now.edition (slots_of program.now.disks) (S.board source.now) }
        requires own { length (all_items program.now.disks) ≡ self.old.air.items }
        requires version { (form.version ≡ 1) ⊎ (form.version ≡ 2) }
        requires few { length (S.board source.now).values ≤ most_count form.version }
        requires started { 1 ≤ (S.board source.now).cycle }
        requires below { EntriesBelow (S.board source.now) }
        requires allowed { S.airs form.policy }
        requires items { length (all_items program.now.disks) ≡ length (S.board source.now).values }
        requires room { HEAD_BYTES + entry_len form.version * length (S.board source.now).values ≤ length buf.old }
        ensures next { IfOk result (λ next. (slot < next) × (next ≤ length (slots_of program.now.disks))) }
        ensures heard { IfOk result (λ next. self.new
            ≡ hears (map (λ s. Some (bucket_on form program.now.edition (slots_of program.now.disks) (S.board source.now) s)) (range_with_len slot (next - slot))) self.old) }
        ensures buffer { length buf.new ≡ length buf.old }
    {
        take_verdicts(alloc, &mut self.receiver, &mut self.lines)?;
        let next = sleep(&mut self.receiver, program, source, form, slot);
        if next == program.slots() {
            return Ok(next);
        }
        hear_slot(&mut self.receiver, program, source, form, next, buf);
        Ok(next + 1)
    }

    /// If its ether gives a member of a cycle, takes the verdicts before it, and hears what the ether gives, up to the next bucket that is
    /// wanted or of a cycle before, or to the end of the cycle: whether it isn't the end.
    pub(crate) fn hear_places<S: Source>(
        &mut self,
        alloc: Global,
        ether: &mut PlaceEther,
        program: &Program,
        source: &S,
        form: Form,
        first: u64,
        recent: &LastBuckets,
        buf: &mut [u8],
    ) -> Result<bool, NoMemory>
        requires fitting { AreFitting self.old.air form program.now.edition (slots_of program.now.disks) (S.board source.now) }
        requires open { ether.old.ended ≡ false }
        requires last { first + length (slots_of program.now.disks) ≤ MOST_PUSHES }
        requires pushes { (first ≤ ether.old.pushes) × (ether.old.pushes ≤ first + length (slots_of program.now.disks)) }
        requires counts { heard_count self.old.state.counts + left_before (first + length (slots_of program.now.disks)) ether.old < 2 ^ 64 }
        requires version { (form.version ≡ 1) ⊎ (form.version ≡ 2) }
        requires few { length (S.board source.now).values ≤ most_count form.version }
        requires started { 1 ≤ (S.board source.now).cycle }
        requires below { EntriesBelow (S.board source.now) }
        requires allowed { S.airs form.policy }
        requires items { length (all_items program.now.disks) ≡ length (S.board source.now).values }
        requires room { HEAD_BYTES + entry_len form.version * length (S.board source.now).values ≤ length buf.old }
        ensures odds { OnOk result (ether.new.odds ≡ ether.old.odds) }
        ensures open { OnOk result (ether.new.ended ≡ false) }
        ensures pushes { OnOk result ((first ≤ ether.new.pushes) × (ether.new.pushes ≤ first + length (slots_of program.now.disks))) }
        ensures all { IfOk result (λ more. more ≡ false → (ether.new.pushes ≡ first + length (slots_of program.now.disks)) × IsQuiet ether.new) }
        ensures air { OnOk result (self.new.air ≡ self.old.air) }
        ensures counts { OnOk result (heard_count self.new.state.counts + left_before (first + length (slots_of program.now.disks)) ether.new
            ≤ heard_count self.old.state.counts + left_before (first + length (slots_of program.now.disks)) ether.old) }
        ensures fewer { IfOk result (λ more. more ≡ true → left_before (first + length (slots_of program.now.disks)) ether.new < left_before (first + length (slots_of program.now.disks)) ether.old) }
        ensures heard { (seed number given : ℕ) (member : ℕ → Option Bucket) → IsPlacesAfter seed number given ether.old →
            AreMembers form program.now.edition (slots_of program.now.disks) (S.board source.now) first recent.now member →
            IfOk result (λ more. (next : ℕ) × (given ≤ next) × IsPlacesAfter seed number next ether.new
            × (more ≡ false → next ≡ length (places_to seed number ether.old (first + length (slots_of program.now.disks))))
            × (self.new ≡ hears (map (given_at member (places_to seed number ether.old (first + length (slots_of program.now.disks)))) (range_with_len given (next - given))) self.old)) }
        ensures buffer { length buf.new ≡ length buf.old }
    {
        let last = first + u64::from(program.slots());
        let Some(start) = ether.next_before(last) else {
            return Ok(false);
        };
        take_verdicts(alloc, &mut self.receiver, &mut self.lines)?;
        let receiver = &mut self.receiver;
        let Some(place) = sleep_places(receiver, ether, program, source, form, first, start) else {
            return Ok(false);
        };
        hear_place(receiver, program, source, form, first, recent, place, buf);
        Ok(true)
    }

    /// Takes the verdicts before the member of a place, and hears a judged piece from there on, up to the next member that it wants, or
    /// to the end of the piece: the place after.
    pub(crate) fn hear_from(
        &mut self,
        alloc: Global,
        piece: &JudgedPiece<'_>,
        from: usize,
    ) -> Result<usize, NoMemory>
        requires from { from < length piece.now.heard.items }
        requires counts { heard_count self.old.state.counts + (length piece.now.heard.items - from) < 2 ^ 64 }
        requires range { All (λ heard. IfOk heard IsInRange) piece.now.heard.items }
        requires judged { IsJudged self.old.air piece.now }
        ensures next { IfOk result (λ next. (from < next) × (next ≤ length piece.now.heard.items)) }
        ensures heard { IfOk result (λ next. self.new ≡ hears (map (member_at piece.now.heard.items) (range_with_len from (next - from))) self.old) }
        ensures air { self.new.air ≡ self.old.air }
    {
        take_verdicts(alloc, &mut self.receiver, &mut self.lines)?;
        let next = sleep_in(&mut self.receiver, piece, from);
        if next == piece.heard.len() {
            return Ok(next);
        }
        self.receiver.hear(&piece.heard[next]);
        Ok(next + 1)
    }

    /// The lines of the session that is ended, and its counts.
    fn ended(self, alloc: Global) -> Result<(Vec<SessionLine>, Counts), NoMemory>
        ensures { IfOk result (λ told. (told.0.items, told.1) ≡ lines_and_counts (end_state self)) }
    {
        let mut receiver = self.receiver;
        let mut lines = self.lines;
        take_verdicts(alloc, &mut receiver, &mut lines)?;
        end_queries(alloc, &mut receiver, &mut lines)?;
        Ok((lines, receiver.counts()))
    }

    /// Ends the session: adds its verdict lines and its counts to those of the sessions before it. If memory runs out, these are dropped.
    pub fn end(self, alloc: Global, sessions: Sessions) -> Result<Sessions, NoMemory>
        ensures verdicts { IfOk result (λ s. s.verdicts.items ≡ sessions.verdicts.items ++ map (line_by self.number) (end_state self).lines) }
        ensures counts { IfOk result (λ s. s.counts.items ≡ sessions.counts.items ++ record { reader = self.number; counts = (end_state self).counts } ∷ []) }
    {
        let reader = self.number;
        let (lines, told) = self.ended(alloc)?;
        let mut sessions = sessions;
        add_lines(reader, lines, &mut sessions.verdicts)?;
        sessions.counts.push(CountsLine {
            reader,
            counts: told,
        })?;
        Ok(sessions)
    }
}

/// Adds a session's lines as those of the reader of a number.
fn add_lines(
    reader: u32,
    lines: Vec<SessionLine>,
    verdicts: &mut Vec<VerdictLine>,
) -> Result<(), NoMemory>
    ensures { OnOk result (verdicts.new.items ≡ verdicts.old.items ++ map (line_by reader) lines.items) }
{
    for line in lines {
        verdicts.push(VerdictLine {
            reader,
            verdict: line.verdict,
            reads: line.reads,
        })?;
    }
    Ok(())
}
