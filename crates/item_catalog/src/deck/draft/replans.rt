//! Records of replans: a cycle, and the lists of sizes and of frequencies.
//!
//! A list may be as long as a record. So at most one more part is kept of it than a replan may have disks.

ghost use Rattle.std.specs.Prelude.{◌≡◌, ◌<◌, ◌≤◌, ◌||◌, IfOk, OnOk, [], drop, false, length, option_map};
ghost use Rattle.csv.specs.Records.{fields_of};
ghost use Rattle.air_base.specs.LeadingParts.{LeadingIs};
ghost use Rattle.air_base.specs.NumberLists.{list_of};
ghost use Rattle.air_base.specs.Numbers.{number_of};
ghost use Rattle.air_base.specs.Parts.{three_of};
ghost use Rattle.item_catalog.specs.Declarations.{replan_by};
ghost use Rattle.item_catalog.specs.Fields.{freq_of};
ghost use Rattle.item_catalog.specs.ListTests.{option_any};
ghost use Rattle.item_catalog.specs.Parts.{disks_said};
ghost use Rattle.item_catalog.specs.Private.Drafts.{AddsDeclaration, ReplanRead};
ghost use Rattle.item_catalog.specs.Private.ListKinds.{seen_replan_kind};
ghost use Rattle.item_catalog.specs.Private.ReplanLists.{PartsRead, keep_part};
ghost use Rattle.item_catalog.specs.Ranges.{outside};
ghost use Rattle.air_base.specs.declared.limits.TheConstants.{MOST_DISKS, MOST_FREQ, MOST_REPLANS, MOST_SIZE};

use crate::deck::draft::Draft;
use crate::faults::FaultKind;
use crate::parts::{DiskPart, ReplanPart, is_no_freq, narrow_freq};
use crate::records::fields::three;
use crate::records::refusals::Refusal;
use crate::scripts::stands_alone;
use air_base::limits::{MOST_CYCLES, MOST_DISKS, MOST_REPLANS, MOST_SIZE};
use air_base::{read_leading_number, read_u64};
use csv::ByteRecord;
use std::alloc::{AllocFailed, Global};

/// The frequency that the first part spells; `-` is None.
#[tactic(auto, using(crate::proofs::PartWords::dash_freq, crate::proofs::PartWords::number_freq, crate::proofs::PartWords::after_dash))]
fn leading_freq(text: &[u8]) -> Option<(Option<u64>, &[u8])>
    ensures { LeadingIs freq_of text.now (option_map (λ f. (f.0, f.1.now)) result) }
{
    if stands_alone(b'-', text) {
        return Some((None, &text[1..]));
    }
    match read_leading_number(text) {
        Some((freq, rest)) => Some((Some(freq), rest)),
        None => None,
    }
}

/// Takes one more size, and says whether it, or one before it, is no size of a disk.
fn take_size(sizes: &mut Vec<u16>, wrong: bool, size: u64) -> Result<bool, AllocFailed<u16>>
    ensures wrong { IfOk result (λ now. now ≡ (wrong || outside 1 MOST_SIZE size)) }
    ensures kept { IfOk result (λ now. now ≡ false → sizes.new.items ≡ keep_part sizes.old.items size) }
{
    if wrong || size < 1 || MOST_SIZE < size {
        return Ok(true);
    }
    if sizes.len() <= MOST_DISKS {
        sizes.push(size as u16)?;
    }
    Ok(false)
}

/// Takes one more frequency, and says whether it, or one before it, is no frequency of a disk.
fn take_freq(
    freqs: &mut Vec<Option<u32>>,
    wrong: bool,
    freq: Option<u64>,
) -> Result<bool, AllocFailed<Option<u32>>>
    ensures wrong { IfOk result (λ now. now ≡ (wrong || option_any (outside 1 MOST_FREQ) freq)) }
    ensures kept { IfOk result (λ now. now ≡ false → freqs.new.items ≡ keep_part freqs.old.items freq) }
{
    if wrong || is_no_freq(freq) {
        return Ok(true);
    }
    if freqs.len() <= MOST_DISKS {
        freqs.push(narrow_freq(freq))?;
    }
    Ok(false)
}

/// Reads the sizes of a list, and says whether some is no size of a disk; None if the text spells no list.
fn read_sizes(sizes: &mut Vec<u16>, text: &[u8]) -> Result<Option<bool>, AllocFailed<u16>>
    requires { sizes.old.items ≡ [] }
    ensures { IfOk result (λ read. PartsRead (outside 1 MOST_SIZE) read (list_of number_of text.now) sizes.new.items) }
{
    if text.is_empty() {
        return Ok(Some(false));
    }
    let mut wrong = false;
    let mut rest = text;
    loop {
        let Some((size, after)) = read_leading_number(rest) else {
            return Ok(None);
        };
        wrong = take_size(sizes, wrong, size)?;
        let Some((_, more)) = after.split_first() else {
            return Ok(Some(wrong));
        };
        rest = more;
    }
}

/// Reads the frequencies of a list, and says whether some is no frequency of a disk; None if the text spells no list.
fn read_freqs(
    freqs: &mut Vec<Option<u32>>,
    text: &[u8],
) -> Result<Option<bool>, AllocFailed<Option<u32>>>
    requires { freqs.old.items ≡ [] }
    ensures { IfOk result (λ read. PartsRead (option_any (outside 1 MOST_FREQ)) read (list_of freq_of text.now) freqs.new.items) }
{
    if text.is_empty() {
        return Ok(Some(false));
    }
    let mut wrong = false;
    let mut rest = text;
    loop {
        let Some((freq, after)) = leading_freq(rest) else {
            return Ok(None);
        };
        wrong = take_freq(freqs, wrong, freq)?;
        let Some((_, more)) = after.split_first() else {
            return Ok(Some(wrong));
        };
        rest = more;
    }
}

/// The disks of these sizes and as many frequencies.
fn disks_of(
    alloc: Global,
    sizes: &[u16],
    freqs: &[Option<u32>],
) -> Result<Vec<DiskPart>, AllocFailed<DiskPart>>
    requires { length sizes.now ≡ length freqs.now }
    ensures { IfOk result (λ disks. disks.items ≡ disks_said sizes.now freqs.now) }
{
    let mut disks = Vec::new(alloc);
    for k in 0..sizes.len() {
        disks.push(DiskPart {
            size: sizes[k],
            freq: freqs[k],
        })?;
    }
    Ok(disks)
}

/// The least kind that applies to a replan, after this many replans with this last cycle.
fn replan_kind(
    wrong: bool,
    replans: usize,
    last: u32,
    cycle: u64,
    sizes: usize,
    freqs: usize,
) -> Option<FaultKind>
    ensures { result ≡ seen_replan_kind wrong replans last cycle sizes freqs }
{
    if MOST_REPLANS <= replans
        || cycle < 2
        || MOST_CYCLES < cycle
        || cycle <= u64::from(last)
        || sizes < 1
        || MOST_DISKS < sizes
        || wrong
    {
        return Some(FaultKind::Limit);
    }
    if sizes != freqs {
        return Some(FaultKind::Lengths);
    }
    None
}

impl Draft {
    /// Reads the replan of a record, and adds nothing.
    fn read_replan(
        &self,
        alloc: Global,
        fields: &ByteRecord,
    ) -> Result<ReplanPart, Refusal<FaultKind>>
        ensures read { ReplanRead result (replan_by (three_of (drop 1 (fields_of fields.now)))) self.now }
        ensures room { OnOk result (length self.now.replans < MOST_REPLANS) }
        ensures few { IfOk result (λ read. length read.disks ≤ MOST_DISKS) }
    {
        let Some((cycle, sizes, freqs)) = three(fields) else {
            return Err(Refusal::Kind(FaultKind::Fields));
        };
        let Some(cycle) = read_u64(cycle) else {
            return Err(Refusal::Kind(FaultKind::Form));
        };
        let mut kept_sizes = Vec::new(alloc);
        let Some(wrong_size) = read_sizes(&mut kept_sizes, sizes)? else {
            return Err(Refusal::Kind(FaultKind::Form));
        };
        let mut kept_freqs = Vec::new(alloc);
        let Some(wrong_freq) = read_freqs(&mut kept_freqs, freqs)? else {
            return Err(Refusal::Kind(FaultKind::Form));
        };
        let wrong = wrong_size || wrong_freq;
        if let Some(kind) = replan_kind(
            wrong,
            self.replans.len(),
            self.last_replan_cycle,
            cycle,
            kept_sizes.len(),
            kept_freqs.len(),
        ) {
            return Err(Refusal::Kind(kind));
        }
        let disks = disks_of(alloc, &kept_sizes, &kept_freqs)?;
        Ok(ReplanPart::new(cycle as u32, disks))
    }

    /// Adds the replan of a record.
    pub fn add_replan(
        &mut self,
        alloc: Global,
        fields: &ByteRecord,
    ) -> Result<(), Refusal<FaultKind>>
        ensures { AddsDeclaration result (replan_by (three_of (drop 1 (fields_of fields.now)))) self.old self.new }
    {
        let replan = self.read_replan(alloc, fields)?;
        let cycle = replan.cycle();
        self.replans.push(replan)?;
        self.last_replan_cycle = cycle;
        Ok(())
    }
}
