//! All readers of a deck, each of which hears its own ether of what is aired, cycle by cycle from the cycles' sources.

ghost use Rattle.std.specs.Prelude.{◌≡◌, ◌⊎◌, ◌<◌, ◌≤◌, ◌+◌, ◌*◌, ◌%◌, ◌++◌, ℕ, List, [], Some, IfOk, OnOk, All, length, map, get_or, slice_index_or};
ghost use Rattle.air_model.specs.Aired.{air_of, scheme_in};
ghost use Rattle.air_model.specs.Buckets.{bucket_in, entry_len, most_count, spelling};
ghost use Rattle.air_model.specs.Decks.{Deck};
ghost use Rattle.air_model.specs.Disks.{all_items};
ghost use Rattle.air_model.specs.Ethers.{heard_by};
ghost use Rattle.air_model.specs.Judges.{by_entries};
ghost use Rattle.air_model.specs.Outputs.{odds_in, sessions_over};
ghost use Rattle.air_model.specs.Programs.{program as slots_of};
ghost use Rattle.air_model.specs.Reports.{counts_lines, verdict_lines};
ghost use Rattle.air_sender.specs.BoardBuckets.{EntriesBelow, board_bytes, bucket_on};
ghost use Rattle.bucket_codec.specs.declared.offsets.TheConstants.{HEAD_BYTES};
ghost use Rattle.listeners.specs.declared.readers.TheConstants.{MOST_TAPE_RECORDS};
ghost use Rattle.listeners.specs.declared.last_buckets.TheConstants.{KEPT_BUCKETS};
ghost use Rattle.listeners.specs.AiredCycles.{AreFitting};
ghost use Rattle.listeners.specs.PlaceListeners.{AreGivenEach, AreGivenPlaces, AreRecent};
ghost use Rattle.listeners.specs.Private.PlaceSteps.{AllEndedPlaces, AllHearPlaces, AreKeptFrom, CanHearPlaces};

use crate::last_buckets::{KEPT_BUCKETS, LastBuckets};
use crate::listener::Listener;
use crate::place_listeners::PlaceListener;
use crate::readers::{Sessions, end_all};
use air_base::{Form, NoMemory};
use air_sender::{Source, encode_source};
use chunk_program::{Planned, Program};
use std::alloc::Global;

/// Keeps the last buckets of a source's cycle, the first of which has this place.
fn keep_last<S: Source>(
    alloc: Global,
    recent: &mut LastBuckets,
    program: &Program,
    source: &S,
    form: Form,
    first: u64,
    buf: &mut [u8],
) -> Result<(), NoMemory>
    requires version { (form.version ≡ 1) ⊎ (form.version ≡ 2) }
    requires few { length (S.board source.now).values ≤ most_count form.version }
    requires started { 1 ≤ (S.board source.now).cycle }
    requires below { EntriesBelow (S.board source.now) }
    requires allowed { S.airs form.policy }
    requires items { length (all_items program.now.disks) ≡ length (S.board source.now).values }
    requires room { HEAD_BYTES + entry_len form.version * length (S.board source.now).values ≤ length buf.old }
    requires last { first + length (slots_of program.now.disks) ≤ MOST_TAPE_RECORDS }
    ensures kept { (all : List (List ℕ)) → AreKeptFrom first (board_bytes form program.now.edition (slots_of program.now.disks) (S.board source.now)) recent.old all →
        OnOk result ((length recent.new ≡ KEPT_BUCKETS) × ((p : ℕ) → p < first + length (slots_of program.now.disks) → first + length (slots_of program.now.disks) ≤ p + KEPT_BUCKETS → get_or recent.new (p % KEPT_BUCKETS) [] ≡ slice_index_or all p [])) }
    ensures buffer { length buf.new ≡ length buf.old }
{
    let slots = program.slots();
    for slot in slots.saturating_sub(KEPT_BUCKETS as u32)..slots {
        let len = encode_source(program, source, form, slot, buf);
        recent.keep(alloc, first + u64::from(slot), &buf[..len])?;
    }
    Ok(())
}

/// Lets all readers hear what their ethers give of a source's cycle, one reader after another, and gives them back. If memory runs out, they
/// are dropped.
fn all_hear<S: Source>(
    alloc: Global,
    readers: Vec<PlaceListener>,
    program: &Program,
    source: &S,
    form: Form,
    first: u64,
    recent: &LastBuckets,
    buf: &mut [u8],
) -> Result<Vec<PlaceListener>, NoMemory>
    requires ready { All (CanHearPlaces form program.now.edition (slots_of program.now.disks) (S.board source.now) first) readers.items }
    requires version { (form.version ≡ 1) ⊎ (form.version ≡ 2) }
    requires few { length (S.board source.now).values ≤ most_count form.version }
    requires started { 1 ≤ (S.board source.now).cycle }
    requires below { EntriesBelow (S.board source.now) }
    requires allowed { S.airs form.policy }
    requires items { length (all_items program.now.disks) ≡ length (S.board source.now).values }
    requires room { HEAD_BYTES + entry_len form.version * length (S.board source.now).values ≤ length buf.old }
    ensures heard { IfOk result (λ now. AllHearPlaces form program.now.edition (slots_of program.now.disks) (S.board source.now) first recent.now readers.items now.items) }
    ensures buffer { length buf.new ≡ length buf.old }
{
    let mut readers = readers;
    for reader in readers.iter_mut() {
        reader.hear_cycle(alloc, program, source, form, first, recent, buf)?;
    }
    Ok(readers)
}

/// Lets all readers hear the rest of what their ethers give, one reader after another, and gives them back. If memory runs out, they are dropped.
fn end_each(
    alloc: Global,
    readers: Vec<PlaceListener>,
    recent: &LastBuckets,
) -> Result<Vec<PlaceListener>, NoMemory>
    requires { (deck : Deck) × (pushed : List (List ℕ)) × AreGivenEach deck pushed readers.items × AreRecent pushed recent.now × (length pushed ≤ MOST_TAPE_RECORDS) }
    ensures { IfOk result (λ now. AllEndedPlaces recent.now readers.items now.items) }
{
    let mut readers = readers;
    for reader in readers.iter_mut() {
        reader.end(alloc, recent)?;
    }
    Ok(readers)
}

/// The listeners of all readers.
fn listeners_of_places(
    alloc: Global,
    readers: Vec<PlaceListener>,
) -> Result<Vec<Listener>, NoMemory>
    ensures { IfOk result (λ ls. ls.items ≡ map (λ reader. reader.listener) readers.items) }
{
    let mut listeners = Vec::new(alloc);
    for reader in readers {
        let PlaceListener { listener, .. } = reader;
        listeners.push(listener)?;
    }
    Ok(listeners)
}

/// All readers of a deck, each with its own ether, and the last buckets that were aired.
#[derive(Drop)]
pub struct PlaceHearers {
    readers: Vec<PlaceListener>,
    recent: LastBuckets,
    pushes: u64,
}

impl PlaceHearers {
    /// Before anything is heard.
    pub fn new(alloc: Global, planned: &Planned) -> Result<PlaceHearers, NoMemory>
        ensures { IfOk result (AreGivenPlaces planned.now []) }
    {
        let mut readers = Vec::new(alloc);
        for r in 0..planned.deck().readers() {
            readers.push(PlaceListener::new(alloc, planned, r)?)?;
        }
        Ok(PlaceHearers {
            readers,
            recent: LastBuckets::new(alloc)?,
            pushes: 0,
        })
    }

    /// Lets all hear what a source airs in its cycle by a program, each through its own ether, and gives them back. If memory runs out, they
    /// are dropped. The buffer has room for a bucket's bytes.
    pub fn hear_cycle<S: Source>(
        self,
        alloc: Global,
        program: &Program,
        source: &S,
        form: Form,
        buf: &mut [u8],
    ) -> Result<PlaceHearers, NoMemory>
        requires given { (deck : Deck) × (pushed : List (List ℕ)) × AreGivenPlaces deck pushed self
            × AreFitting (air_of deck) form program.now.edition (slots_of program.now.disks) (S.board source.now) × (length pushed + length (slots_of program.now.disks) ≤ MOST_TAPE_RECORDS) }
        requires decodes { (s : ℕ) → s < length (slots_of program.now.disks) → bucket_in (spelling (bucket_on form program.now.edition (slots_of program.now.disks) (S.board source.now) s))
            ≡ Some (bucket_on form program.now.edition (slots_of program.now.disks) (S.board source.now) s) }
        requires version { (form.version ≡ 1) ⊎ (form.version ≡ 2) }
        requires few { length (S.board source.now).values ≤ most_count form.version }
        requires started { 1 ≤ (S.board source.now).cycle }
        requires below { EntriesBelow (S.board source.now) }
        requires allowed { S.airs form.policy }
        requires items { length (all_items program.now.disks) ≡ length (S.board source.now).values }
        requires room { HEAD_BYTES + entry_len form.version * length (S.board source.now).values ≤ length buf.old }
        ensures heard { (deck : Deck) (pushed : List (List ℕ)) → AreGivenPlaces deck pushed self → AreFitting (air_of deck) form program.now.edition (slots_of program.now.disks) (S.board source.now) →
            IfOk result (AreGivenPlaces deck (pushed ++ board_bytes form program.now.edition (slots_of program.now.disks) (S.board source.now))) }
        ensures buffer { length buf.new ≡ length buf.old }
    {
        let mut recent = self.recent;
        let first = self.pushes;
        let readers = all_hear(
            alloc,
            self.readers,
            program,
            source,
            form,
            first,
            &recent,
            buf,
        )?;
        keep_last(alloc, &mut recent, program, source, form, first, buf)?;
        let pushes = first + u64::from(program.slots());
        Ok(PlaceHearers {
            readers,
            recent,
            pushes,
        })
    }

    /// Ends the sessions of all, each of which has heard all that its ether gives of what was aired.
    pub fn end(self, alloc: Global) -> Result<Sessions, NoMemory>
        requires { (deck : Deck) × (pushed : List (List ℕ)) × AreGivenPlaces deck pushed self × (length pushed ≤ MOST_TAPE_RECORDS) }
        ensures verdicts { (deck : Deck) (pushed : List (List ℕ)) → AreGivenPlaces deck pushed self → IfOk result (λ s. s.verdicts.items
            ≡ verdict_lines (sessions_over (by_entries (scheme_in deck)) deck (λ r. heard_by deck.settings.seed r (odds_in deck) pushed))) }
        ensures counts { (deck : Deck) (pushed : List (List ℕ)) → AreGivenPlaces deck pushed self → IfOk result (λ s. s.counts.items
            ≡ counts_lines (sessions_over (by_entries (scheme_in deck)) deck (λ r. heard_by deck.settings.seed r (odds_in deck) pushed))) }
    {
        let readers = end_each(alloc, self.readers, &self.recent)?;
        let listeners = listeners_of_places(alloc, readers)?;
        let sessions = end_all(alloc, listeners)?;
        Ok(sessions)
    }
}
