//! The line that a record spells by itself.

ghost use Rattle.std.specs.Prelude.{◌≡◌, ◌<◌, drop, length};
ghost use Rattle.air_base.specs.Parts.{three_of, two_of};
ghost use Rattle.csv.specs.Records.{fields_of};
ghost use Rattle.item_catalog.specs.RecordFields.{five_of, four_of, seven_of, six_of};
ghost use Rattle.item_catalog.specs.ReadAnswers.{ReadsRecord};
ghost use Rattle.item_catalog.specs.Spelled.{or_fault};
ghost use Rattle.air_report.specs.LineTexts.{abort_by, abort_of, aged_by, aged_of, commit_by, counts_by, ended_by, seen_by, spelled_line, start_by, verdict_by};
ghost use Rattle.air_report.specs.declared.reading.kinds.ReportFaultKind.TheVariants as fault;

use crate::reading::kinds::ReportFaultKind;
use crate::reading::lines::{EventLine, ReportLine};
use crate::reading::reads::{read_item, read_place, read_reads, read_short};
use crate::reading::tags::{LineTag, read_tag};
use air_base::{Counts, Verdict, VerdictKind, read_u64};
use air_model::reports::{CountsLine, LookLine, VerdictLine};
use csv::ByteRecord;
use item_catalog::{Refusal, five, four, seven, six, three, two};
use std::alloc::Global;

/// The commit of a record.
fn read_commit(fields: &ByteRecord) -> Result<ReportLine, Refusal<ReportFaultKind>>
    ensures { ReadsRecord result (commit_by (two_of (drop 1 (fields_of fields.now)))) }
{
    let Some((by, seq)) = two(fields) else {
        return Err(Refusal::Kind(ReportFaultKind::Fields));
    };
    let Some(by) = read_short(by) else {
        return Err(Refusal::Kind(ReportFaultKind::Form));
    };
    let Some(seq) = read_short(seq) else {
        return Err(Refusal::Kind(ReportFaultKind::Form));
    };
    Ok(ReportLine::Event(EventLine::Commit { by, seq }))
}

/// The start of a record.
#[tactic(auto, using(crate::proofs::RecordLemmas::no_fields, crate::proofs::RecordLemmas::some_fields))]
fn read_start(fields: &ByteRecord) -> Result<ReportLine, Refusal<ReportFaultKind>>
    requires { 0 < length (fields_of fields.now) }
    ensures { ReadsRecord result (start_by (drop 1 (fields_of fields.now))) }
{
    if fields.len() != 1 {
        return Err(Refusal::Kind(ReportFaultKind::Fields));
    }
    Ok(ReportLine::Event(EventLine::Start))
}

/// The verdict line with these fields, if they spell one and the end of the attempt is known.
fn read_verdict(
    alloc: Global,
    kind: Option<VerdictKind>,
    reader: &[u8],
    query: &[u8],
    attempt: &[u8],
    reads: &[u8],
) -> Result<ReportLine, Refusal<ReportFaultKind>>
    ensures { ReadsRecord result (or_fault fault.Form (verdict_by kind reader.now query.now attempt.now reads.now)) }
{
    let Some(reader) = read_short(reader) else {
        return Err(Refusal::Kind(ReportFaultKind::Form));
    };
    let Some(query) = read_short(query) else {
        return Err(Refusal::Kind(ReportFaultKind::Form));
    };
    let Some(attempt) = read_short(attempt) else {
        return Err(Refusal::Kind(ReportFaultKind::Form));
    };
    let Some(reads) = read_reads(alloc, reads)? else {
        return Err(Refusal::Kind(ReportFaultKind::Form));
    };
    let Some(kind) = kind else {
        return Err(Refusal::Kind(ReportFaultKind::Form));
    };
    let verdict = Verdict {
        query,
        attempt,
        kind,
    };
    Ok(ReportLine::Verdict(VerdictLine {
        reader,
        verdict,
        reads,
    }))
}

/// The accept or the unfinished attempt of a record.
fn read_ended(
    alloc: Global,
    kind: VerdictKind,
    fields: &ByteRecord,
) -> Result<ReportLine, Refusal<ReportFaultKind>>
    ensures { ReadsRecord result (ended_by kind (four_of (drop 1 (fields_of fields.now)))) }
{
    let Some((reader, query, attempt, reads)) = four(fields) else {
        return Err(Refusal::Kind(ReportFaultKind::Fields));
    };
    read_verdict(alloc, Some(kind), reader, query, attempt, reads)
}

/// The end of an attempt by an abort, if the fields spell one.
fn abort_of(place: &[u8], clash: &[u8]) -> Option<VerdictKind>
    ensures { result ≡ abort_of place.now clash.now }
{
    let (item, cycle) = read_place(place)?;
    let clash = read_item(clash)?;
    Some(VerdictKind::Abort { item, cycle, clash })
}

/// The abort of a record.
fn read_abort(alloc: Global, fields: &ByteRecord) -> Result<ReportLine, Refusal<ReportFaultKind>>
    ensures { ReadsRecord result (abort_by (six_of (drop 1 (fields_of fields.now)))) }
{
    let Some((reader, query, attempt, reads, place, clash)) = six(fields) else {
        return Err(Refusal::Kind(ReportFaultKind::Fields));
    };
    read_verdict(alloc, abort_of(place, clash), reader, query, attempt, reads)
}

/// The end of an attempt whose next read is too far from those before it, if the field spells one.
fn aged_of(place: &[u8]) -> Option<VerdictKind>
    ensures { result ≡ aged_of place.now }
{
    let (item, cycle) = read_place(place)?;
    Some(VerdictKind::Aged { item, cycle })
}

/// The aged attempt of a record.
fn read_aged(alloc: Global, fields: &ByteRecord) -> Result<ReportLine, Refusal<ReportFaultKind>>
    ensures { ReadsRecord result (aged_by (five_of (drop 1 (fields_of fields.now)))) }
{
    let Some((reader, query, attempt, reads, place)) = five(fields) else {
        return Err(Refusal::Kind(ReportFaultKind::Fields));
    };
    read_verdict(alloc, aged_of(place), reader, query, attempt, reads)
}

/// The counts of a record.
fn read_counts(fields: &ByteRecord) -> Result<ReportLine, Refusal<ReportFaultKind>>
    ensures { ReadsRecord result (counts_by (seven_of (drop 1 (fields_of fields.now)))) }
{
    let Some((reader, opened, dozed, late, refused, foreign, copied)) = seven(fields) else {
        return Err(Refusal::Kind(ReportFaultKind::Fields));
    };
    let Some(reader) = read_short(reader) else {
        return Err(Refusal::Kind(ReportFaultKind::Form));
    };
    let Some(opened) = read_u64(opened) else {
        return Err(Refusal::Kind(ReportFaultKind::Form));
    };
    let Some(dozed) = read_u64(dozed) else {
        return Err(Refusal::Kind(ReportFaultKind::Form));
    };
    let Some(late) = read_u64(late) else {
        return Err(Refusal::Kind(ReportFaultKind::Form));
    };
    let Some(refused) = read_u64(refused) else {
        return Err(Refusal::Kind(ReportFaultKind::Form));
    };
    let Some(foreign) = read_u64(foreign) else {
        return Err(Refusal::Kind(ReportFaultKind::Form));
    };
    let Some(copied) = read_u64(copied) else {
        return Err(Refusal::Kind(ReportFaultKind::Form));
    };
    let counts = Counts {
        opened,
        dozed,
        late,
        refused,
        foreign,
        copied,
    };
    Ok(ReportLine::Counts(CountsLine { reader, counts }))
}

/// What a monitor saw, by a record.
fn read_seen(fields: &ByteRecord) -> Result<LookLine, Refusal<ReportFaultKind>>
    ensures { ReadsRecord result (seen_by (three_of (drop 1 (fields_of fields.now)))) }
{
    let Some((monitor, cycle, total)) = three(fields) else {
        return Err(Refusal::Kind(ReportFaultKind::Fields));
    };
    let Some(monitor) = read_short(monitor) else {
        return Err(Refusal::Kind(ReportFaultKind::Form));
    };
    let Some(cycle) = read_short(cycle) else {
        return Err(Refusal::Kind(ReportFaultKind::Form));
    };
    let Some(total) = read_u64(total) else {
        return Err(Refusal::Kind(ReportFaultKind::Form));
    };
    Ok(LookLine {
        monitor,
        cycle,
        total,
    })
}

/// The line that a record spells in this version.
pub fn read_line(
    alloc: Global,
    version: u8,
    fields: &ByteRecord,
) -> Result<ReportLine, Refusal<ReportFaultKind>>
    ensures { ReadsRecord result (spelled_line version (fields_of fields.now)) }
{
    match read_tag(version, fields) {
        Some(LineTag::Commit) => read_commit(fields),
        Some(LineTag::Start) => read_start(fields),
        Some(LineTag::Accept) => read_ended(alloc, VerdictKind::Accept, fields),
        Some(LineTag::Abort) => read_abort(alloc, fields),
        Some(LineTag::Aged) => read_aged(alloc, fields),
        Some(LineTag::Unfinished) => read_ended(alloc, VerdictKind::Unfinished, fields),
        Some(LineTag::Counts) => read_counts(fields),
        Some(LineTag::Glance) => Ok(ReportLine::Glance(read_seen(fields)?)),
        Some(LineTag::Look) => Ok(ReportLine::Look(read_seen(fields)?)),
        None => Err(Refusal::Kind(ReportFaultKind::Tag)),
    }
}
