//! What an ether without bytes gives of a cycle, heard from the cycle's source: a bucket is encoded only where a reader opens it.
//!
//! A reader sleeps through the places of unwanted slots. A wanted slot's bucket is encoded, and a bucket of a cycle before is one of the
//! last that were pushed, which are kept as bytes.

ghost use Rattle.std.specs.Prelude.{◌≡◌, ◌⊎◌, ℕ, ◌<◌, ◌≤◌, ◌+◌, ◌-◌, ◌*◌, ◌^◌, false, List, Option, IfNone, IfSome, IsTrue, MatchOption, length, map};
ghost use Rattle.std.specs.List.{range_with_len};
ghost use Rattle.air_ether.specs.declared.ether.TheConstants.{MOST_PUSHES};
ghost use Rattle.air_ether.specs.HeardPlaces.{left_before};
ghost use Rattle.air_ether.specs.HeardSoFar.{IsQuiet};
ghost use Rattle.air_model.specs.Buckets.{Bucket, entry_len, most_count};
ghost use Rattle.air_model.specs.Disks.{all_items};
ghost use Rattle.air_model.specs.Programs.{program as slots_of};
ghost use Rattle.air_model.specs.Sessions.{SessionLine};
ghost use Rattle.air_sender.specs.BoardBuckets.{EntriesBelow};
ghost use Rattle.bucket_codec.specs.declared.offsets.TheConstants.{HEAD_BYTES};
ghost use Rattle.receiver_core.specs.Receivers.{IsSettled, heard_count};
ghost use Rattle.listeners.specs.declared.last_buckets.TheConstants.{KEPT_BUCKETS};
ghost use Rattle.listeners.specs.AiredCycles.{AreFitting};
ghost use Rattle.listeners.specs.Listeners.{hears, hears_one};
ghost use Rattle.listeners.specs.PlaceListeners.{given_at};
ghost use Rattle.listeners.specs.Private.PlaceSteps.{AreMembers, AreSkipped, GivesNext, HasGiven, IsUnwantedPlace, places_to};
ghost use Rattle.listeners.specs.Private.Sleeping.{listening};

use crate::cycles::hear_slot;
use crate::last_buckets::LastBuckets;
use air_base::Form;
use air_ether::PlaceEther;
use air_sender::Source;
use bucket_codec::decode;
use chunk_program::Program;
use receiver_core::Receiver;

/// Whether a place is one of this cycle whose slot doesn't carry the wanted item.
fn is_unwanted(program: &Program, first: u64, wanted: Option<u16>, place: u64) -> bool
    requires { place < first + length (slots_of program.now.disks) }
    ensures { IsTrue result → IsUnwantedPlace (slots_of program.now.disks) first wanted place }
{
    let _slots = program.slots();
    if place < first {
        return false;
    }
    let Some(item) = wanted else {
        return true;
    };
    match program.slot_item((place - first) as u32) {
        None => true,
        Some(own) => own != item,
    }
}

/// Skips places from one that was given on, as long as they are unwanted: how many were skipped, and the place that isn't; None at the end
/// of the cycle.
fn skip_unwanted(
    ether: &mut PlaceEther,
    program: &Program,
    first: u64,
    wanted: Option<u16>,
    start: u64,
) -> (u64, Option<u64>)
    requires open { ether.old.ended ≡ false }
    requires few { first + length (slots_of program.now.disks) ≤ MOST_PUSHES }
    requires pushes { (first ≤ ether.old.pushes) × (ether.old.pushes ≤ first + length (slots_of program.now.disks)) }
    requires start { (start < first + length (slots_of program.now.disks)) × (first ≤ start + KEPT_BUCKETS) }
    requires counts { left_before (first + length (slots_of program.now.disks)) ether.old + 1 < 2 ^ 64 }
    ensures odds { ether.new.odds ≡ ether.old.odds }
    ensures open { ether.new.ended ≡ false }
    ensures pushes { (first ≤ ether.new.pushes) × (ether.new.pushes ≤ first + length (slots_of program.now.disks)) }
    ensures some { IfNone result.1 (0 < result.0) }
    ensures all { IfNone result.1 (ether.new.pushes ≡ first + length (slots_of program.now.disks)) }
    ensures quiet { IfNone result.1 (IsQuiet ether.new) }
    ensures within { IfSome result.1 (λ p. (p < first + length (slots_of program.now.disks)) × (first ≤ p + KEPT_BUCKETS)) }
    ensures less { left_before (first + length (slots_of program.now.disks)) ether.new ≤ left_before (first + length (slots_of program.now.disks)) ether.old }
    ensures fewer { MatchOption result.1 (result.0 + left_before (first + length (slots_of program.now.disks)) ether.new ≤ left_before (first + length (slots_of program.now.disks)) ether.old + 1)
        (λ p. result.0 + left_before (first + length (slots_of program.now.disks)) ether.new ≤ left_before (first + length (slots_of program.now.disks)) ether.old) }
    ensures skipped { (seed number given : ℕ) → HasGiven seed number (first + length (slots_of program.now.disks)) given start ether.old →
        AreSkipped (slots_of program.now.disks) first wanted (places_to seed number ether.old (first + length (slots_of program.now.disks))) given result.0 }
    ensures given { (seed number given : ℕ) → HasGiven seed number (first + length (slots_of program.now.disks)) given start ether.old →
        GivesNext seed number (first + length (slots_of program.now.disks)) (given + result.0) result.1 ether.old ether.new }
{
    let last = first + u64::from(program.slots());
    let mut place = start;
    let mut skipped = 0u64;
    while is_unwanted(program, first, wanted, place) {
        skipped += 1;
        let Some(later) = ether.next_before(last) else {
            return (skipped, None);
        };
        place = later;
    }
    (skipped, Some(place))
}

/// A settled receiver sleeps through the places that its ether gives of a cycle, from one that was given on, up to the next that is wanted or
/// of a cycle before.
pub(crate) fn sleep_places<S: Source>(
    receiver: &mut Receiver,
    ether: &mut PlaceEther,
    program: &Program,
    source: &S,
    form: Form,
    first: u64,
    start: u64,
) -> Option<u64>
    requires settled { IsSettled receiver.old }
    requires fitting { AreFitting receiver.old.air form program.now.edition (slots_of program.now.disks) (S.board source.now) }
    requires open { ether.old.ended ≡ false }
    requires last { first + length (slots_of program.now.disks) ≤ MOST_PUSHES }
    requires pushes { (first ≤ ether.old.pushes) × (ether.old.pushes ≤ first + length (slots_of program.now.disks)) }
    requires start { (start < first + length (slots_of program.now.disks)) × (first ≤ start + KEPT_BUCKETS) }
    requires counts { heard_count receiver.old.state.counts + left_before (first + length (slots_of program.now.disks)) ether.old + 1 < 2 ^ 64 }
    ensures settled { IsSettled receiver.new }
    ensures air { receiver.new.air ≡ receiver.old.air }
    ensures reader { receiver.new.reader ≡ receiver.old.reader }
    ensures odds { ether.new.odds ≡ ether.old.odds }
    ensures open { ether.new.ended ≡ false }
    ensures pushes { (first ≤ ether.new.pushes) × (ether.new.pushes ≤ first + length (slots_of program.now.disks)) }
    ensures all { IfNone result (ether.new.pushes ≡ first + length (slots_of program.now.disks)) }
    ensures quiet { IfNone result (IsQuiet ether.new) }
    ensures within { IfSome result (λ p. (p < first + length (slots_of program.now.disks)) × (first ≤ p + KEPT_BUCKETS)) }
    ensures less { left_before (first + length (slots_of program.now.disks)) ether.new ≤ left_before (first + length (slots_of program.now.disks)) ether.old }
    ensures counts { MatchOption result
        (heard_count receiver.new.state.counts + left_before (first + length (slots_of program.now.disks)) ether.new ≤ heard_count receiver.old.state.counts + left_before (first + length (slots_of program.now.disks)) ether.old + 1)
        (λ p. heard_count receiver.new.state.counts + left_before (first + length (slots_of program.now.disks)) ether.new ≤ heard_count receiver.old.state.counts + left_before (first + length (slots_of program.now.disks)) ether.old) }
    ensures slept { (seed number given : ℕ) (recent : List (List ℕ)) (member : ℕ → Option Bucket) → HasGiven seed number (first + length (slots_of program.now.disks)) given start ether.old →
        AreMembers form program.now.edition (slots_of program.now.disks) (S.board source.now) first recent member →
        (next : ℕ) × (given ≤ next) × IfNone result (given < next) × GivesNext seed number (first + length (slots_of program.now.disks)) next result ether.old ether.new
        × ((n : ℕ) (L : List SessionLine) → listening n receiver.new L
        ≡ hears (map (given_at member (places_to seed number ether.old (first + length (slots_of program.now.disks)))) (range_with_len given (next - given))) (listening n receiver.old L)) }
{
    let (skipped, next) = skip_unwanted(ether, program, first, receiver.wanted(), start);
    if skipped == 0 {
        return next;
    }
    receiver.doze(skipped, source.its_cycle());
    next
}

/// A settled receiver hears the bucket of a place: one of this cycle, or one of the last before it.
pub(crate) fn hear_place<S: Source>(
    receiver: &mut Receiver,
    program: &Program,
    source: &S,
    form: Form,
    first: u64,
    recent: &LastBuckets,
    place: u64,
    buf: &mut [u8],
)
    requires settled { IsSettled receiver.old }
    requires counts { heard_count receiver.old.state.counts + 1 < 2 ^ 64 }
    requires within { (place < first + length (slots_of program.now.disks)) × (first ≤ place + KEPT_BUCKETS) }
    requires version { (form.version ≡ 1) ⊎ (form.version ≡ 2) }
    requires few { length (S.board source.now).values ≤ most_count form.version }
    requires started { 1 ≤ (S.board source.now).cycle }
    requires below { EntriesBelow (S.board source.now) }
    requires allowed { S.airs form.policy }
    requires items { length (all_items program.now.disks) ≡ length (S.board source.now).values }
    requires room { HEAD_BYTES + entry_len form.version * length (S.board source.now).values ≤ length buf.old }
    ensures air { receiver.new.air ≡ receiver.old.air }
    ensures reader { receiver.new.reader ≡ receiver.old.reader }
    ensures counts { heard_count receiver.new.state.counts ≡ heard_count receiver.old.state.counts + 1 }
    ensures heard { (member : ℕ → Option Bucket) → AreMembers form program.now.edition (slots_of program.now.disks) (S.board source.now) first recent.now member →
        (n : ℕ) (L : List SessionLine) → listening n receiver.new L ≡ hears_one (member place) (listening n receiver.old L) }
    ensures buffer { length buf.new ≡ length buf.old }
{
    let _slots = program.slots();
    if place < first {
        receiver.hear(&decode(recent.at(place)));
        return;
    }
    hear_slot(receiver, program, source, form, (place - first) as u32, buf);
}
