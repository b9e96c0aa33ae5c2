//! The tests of a line against the deck, and against the cycles that began before it.

ghost use Rattle.std.specs.Prelude.{◌≡◌, ◌==◌, map};
ghost use Rattle.std.specs.List.{list_all, list_any};
ghost use Rattle.air_report.specs.LineFaults.{end_begun, follow, has_begun, is_attempt, is_begun, is_known, is_tried, leads, may_end, read_item};

use crate::reading::lines::ReportLine;
use air_base::{ReadOf, VerdictKind};
use air_model::reports::VerdictLine;
use item_catalog::Deck;

/// Whether the items of reads are the first of a query, in order.
fn leads(reads: &[ReadOf], query: &[u16]) -> bool
    ensures { result ≡ leads (map read_item reads.now) query.now }
{
    let mut left = query;
    for read in reads {
        let Some((item, more)) = left.split_first() else {
            return false;
        };
        if read.item != *item {
            return false;
        }
        left = more;
    }
    true
}

/// Whether the item was read.
fn was_read(reads: &[ReadOf], item: u16) -> bool
    ensures { result ≡ list_any (λ other. other == item) (map read_item reads.now) }
{
    for read in reads {
        if read.item == item {
            return true;
        }
    }
    false
}

/// Whether the items of reads follow a query, for an attempt with this end.
fn follow(query: &[u16], reads: &[ReadOf], end: VerdictKind) -> bool
    ensures { result ≡ follow query.now (map read_item reads.now) end }
{
    if !leads(reads, query) {
        return false;
    }
    match end {
        VerdictKind::Accept => reads.len() == query.len(),
        VerdictKind::Abort { item, clash, .. } => {
            reads.len() < query.len() && query[reads.len()] == item && was_read(reads, clash)
        }
        VerdictKind::Aged { item, .. } => reads.len() < query.len() && query[reads.len()] == item,
        VerdictKind::Unfinished => reads.len() < query.len(),
    }
}

/// Whether a verdict is on an attempt of the deck, regardless of how it ended.
fn is_attempt(deck: &Deck, line: &VerdictLine) -> bool
    ensures { result ≡ is_attempt deck.now line.now }
{
    deck.shows_well_made();
    if line.reader >= deck.readers() {
        return false;
    }
    let attempt = line.verdict.attempt;
    if attempt < 1 || deck.reader(line.reader).tries < attempt {
        return false;
    }
    if line.verdict.query >= deck.queries(line.reader) {
        return false;
    }
    let query = deck.query(line.reader, line.verdict.query);
    follow(query, line.reads.as_slice(), line.verdict.kind)
}

/// Whether an attempt may end like this in this version: aged only if buckets have ages.
fn may_end(version: u8, end: VerdictKind) -> bool
    ensures { result ≡ may_end version end }
{
    match end {
        VerdictKind::Aged { .. } => version >= 2,
        _ => true,
    }
}

/// Whether a verdict is on an attempt of the deck, with an end that it may have.
fn is_tried(deck: &Deck, line: &VerdictLine) -> bool
    ensures { result ≡ is_tried deck.now line.now }
{
    is_attempt(deck, line) && may_end(deck.settings().version, line.verdict.kind)
}

/// Whether all that a line names, except for updates and cycles, is the deck's.
pub fn is_known(deck: &Deck, line: &ReportLine) -> bool
    ensures { result ≡ is_known deck.now line.now }
{
    match line {
        ReportLine::Event(_) => true,
        ReportLine::Verdict(line) => is_tried(deck, line),
        ReportLine::Counts(line) => line.reader < deck.readers(),
        ReportLine::Glance(line) => line.monitor < deck.settings().monitors,
        ReportLine::Look(line) => line.monitor < deck.settings().monitors,
    }
}

/// Whether a cycle is one of the first `starts`.
fn has_begun(starts: u64, cycle: u32) -> bool
    ensures { result ≡ has_begun starts cycle }
{
    1 <= cycle && u64::from(cycle) <= starts
}

/// Whether the cycles of all reads have begun.
fn reads_begun(starts: u64, reads: &[ReadOf]) -> bool
    ensures { result ≡ list_all (λ read. has_begun starts read.cycle) reads.now }
{
    for read in reads {
        if !has_begun(starts, read.cycle) {
            return false;
        }
    }
    true
}

/// Whether the cycle of a read that was refused has begun.
fn end_begun(starts: u64, end: VerdictKind) -> bool
    ensures { result ≡ end_begun starts end }
{
    match end {
        VerdictKind::Abort { cycle, .. } | VerdictKind::Aged { cycle, .. } => {
            has_begun(starts, cycle)
        }
        _ => true,
    }
}

/// Whether each cycle that a line names has begun.
pub fn is_begun(starts: u64, line: &ReportLine) -> bool
    ensures { result ≡ is_begun starts line.now }
{
    match line {
        ReportLine::Event(_) => true,
        ReportLine::Verdict(line) => {
            reads_begun(starts, line.reads.as_slice()) && end_begun(starts, line.verdict.kind)
        }
        ReportLine::Counts(_) => true,
        ReportLine::Glance(line) => u64::from(line.cycle) <= starts,
        ReportLine::Look(line) => u64::from(line.cycle) <= starts,
    }
}
