//! Adds the lines of a report: each by its tag and its numbers, in the order in which a report has them.
//!
//! A verdict has several lines: the attempt, how it ended, and each read.

use air_base::{NoMemory, ReadOf, VerdictKind};
use air_model::reports::{CountsLine, LookLine, VerdictLine};
use air_report::EventLine;
use case_lines::add_line;

/// Adds the lines of a history.
pub fn add_events(lines: &[EventLine], came: &mut Vec<u8>) -> Result<(), NoMemory> {
    for line in lines {
        match line {
            EventLine::Start => add_line(b"start", &[], came)?,
            EventLine::Commit { by, seq } => {
                add_line(b"commit", &[u64::from(*by), u64::from(*seq)], came)?
            }
        }
    }
    Ok(())
}

/// Adds how an attempt ended.
fn add_kind(kind: VerdictKind, came: &mut Vec<u8>) -> Result<(), NoMemory> {
    match kind {
        VerdictKind::Accept => add_line(b"accept", &[], came),
        VerdictKind::Abort { item, cycle, clash } => {
            let numbers = [u64::from(item), u64::from(cycle), u64::from(clash)];
            add_line(b"abort", &numbers, came)
        }
        VerdictKind::Aged { item, cycle } => {
            add_line(b"aged", &[u64::from(item), u64::from(cycle)], came)
        }
        VerdictKind::Unfinished => add_line(b"unfinished", &[], came),
    }
}

/// Adds the item, the cycle and the value of each read.
fn add_reads(reads: &[ReadOf], came: &mut Vec<u8>) -> Result<(), NoMemory> {
    for read in reads {
        let numbers = [u64::from(read.item), u64::from(read.cycle), read.value];
        add_line(b"read", &numbers, came)?;
    }
    Ok(())
}

/// Adds the lines of verdicts: the reader, the query and the attempt, how it ended, and its reads.
pub fn add_verdicts(lines: &[VerdictLine], came: &mut Vec<u8>) -> Result<(), NoMemory> {
    for line in lines {
        let verdict = line.verdict;
        let numbers = [
            u64::from(line.reader),
            u64::from(verdict.query),
            u64::from(verdict.attempt),
        ];
        add_line(b"verdict", &numbers, came)?;
        add_kind(verdict.kind, came)?;
        add_reads(line.reads.as_slice(), came)?;
    }
    Ok(())
}

/// Adds the lines of counts: the reader, and what it opened, dozed, heard late, refused, found foreign and copied.
pub fn add_counts(lines: &[CountsLine], came: &mut Vec<u8>) -> Result<(), NoMemory> {
    for line in lines {
        let counts = line.counts;
        let numbers = [
            u64::from(line.reader),
            counts.opened,
            counts.dozed,
            counts.late,
            counts.refused,
            counts.foreign,
            counts.copied,
        ];
        add_line(b"counts", &numbers, came)?;
    }
    Ok(())
}

/// Adds lines of monitors: the monitor, the cycle and the total.
pub fn add_looks(word: &[u8], lines: &[LookLine], came: &mut Vec<u8>) -> Result<(), NoMemory> {
    for line in lines {
        let numbers = [u64::from(line.monitor), u64::from(line.cycle), line.total];
        add_line(word, &numbers, came)?;
    }
    Ok(())
}
