//! A report that is put together line by line, from numbers of any deck or of none, and then written.
//!
//! A case puts a line: its tag, and its numbers in the order of the report. `read` lines come before the verdict that has the reads, and a `commit`
//! puts 1 into item 0.

use crate::texts::tell;
use air_base::{Counts, NoMemory, ReadOf, Reads, Verdict, VerdictKind};
use air_history::{Event, History, Update, Write};
use air_model::reports::{CountsLine, LookLine, VerdictLine};
use air_report::{Report, write_report};
use case_lines::{BadCase, Parts};
use std::alloc::Global;
use std::mem;

/// The lines so far, and the reads of the next verdict.
#[derive(Drop)]
pub struct CaseReport {
    events: Vec<Event>,
    reads: Vec<ReadOf>,
    verdicts: Vec<VerdictLine>,
    counts: Vec<CountsLine>,
    glances: Vec<LookLine>,
    looks: Vec<LookLine>,
}

/// A commit: its updater, and the updater's number for it.
fn commit(alloc: Global, parts: &mut Parts<'_>) -> Result<Event, NoMemory> {
    let write = Write {
        item: 0,
        base: None,
        minus: false,
        amount: 1,
    };
    match Update::new(alloc, &[], &[write]) {
        Ok(update) => Ok(Event::Commit {
            by: parts.narrow(),
            seq: parts.narrow(),
            update,
        }),
        Err(_fault) => Err(NoMemory),
    }
}

/// A read: its item, its cycle and its value.
fn read_of(parts: &mut Parts<'_>) -> ReadOf {
    ReadOf {
        item: parts.small(),
        cycle: parts.narrow(),
        value: parts.number(),
    }
}

/// How an attempt of this tag ended: an abort has an item, a cycle and a clash, an aged attempt an item and a cycle.
fn kind_of(tag: &[u8], parts: &mut Parts<'_>) -> VerdictKind {
    match tag {
        b"accept" => VerdictKind::Accept,
        b"abort" => VerdictKind::Abort {
            item: parts.small(),
            cycle: parts.narrow(),
            clash: parts.small(),
        },
        b"aged" => VerdictKind::Aged {
            item: parts.small(),
            cycle: parts.narrow(),
        },
        _ => VerdictKind::Unfinished,
    }
}

/// The counts of a reader: what it opened, dozed, heard late, refused, found foreign and copied.
fn counts_of(parts: &mut Parts<'_>) -> CountsLine {
    CountsLine {
        reader: parts.narrow(),
        counts: Counts {
            opened: parts.number(),
            dozed: parts.number(),
            late: parts.number(),
            refused: parts.number(),
            foreign: parts.number(),
            copied: parts.number(),
        },
    }
}

/// What a monitor saw: the monitor, the cycle and the total.
fn look_of(parts: &mut Parts<'_>) -> LookLine {
    LookLine {
        monitor: parts.narrow(),
        cycle: parts.narrow(),
        total: parts.number(),
    }
}

/// The history of these events, of which there are fewer than a thousand.
#[tactic(auto, using(air_history::proofs::ScanLemmas::starts_within))]
fn history_of(events: Vec<Event>) -> Option<History> {
    if events.len() >= 1000 {
        return None;
    }
    Some(History::from_events(events))
}

impl CaseReport {
    /// No lines.
    pub fn new(alloc: Global) -> CaseReport {
        CaseReport {
            events: Vec::new(alloc),
            reads: Vec::new(alloc),
            verdicts: Vec::new(alloc),
            counts: Vec::new(alloc),
            glances: Vec::new(alloc),
            looks: Vec::new(alloc),
        }
    }

    /// Adds a verdict on an attempt: its reader, query and attempt, how it ended, and the reads that were put before it.
    fn put_verdict(
        &mut self,
        alloc: Global,
        tag: &[u8],
        parts: &mut Parts<'_>,
    ) -> Result<(), NoMemory> {
        let reads = mem::replace(&mut self.reads, Vec::new(alloc));
        self.verdicts.push(VerdictLine {
            reader: parts.narrow(),
            verdict: Verdict {
                query: parts.narrow(),
                attempt: parts.narrow(),
                kind: kind_of(tag, parts),
            },
            reads: Reads::from_vec(reads),
        })?;
        Ok(())
    }

    /// Adds the line that a tag and numbers spell.
    pub fn put(&mut self, alloc: Global, parts: &mut Parts<'_>) -> Result<(), NoMemory> {
        let tag = parts.next();
        match tag {
            b"start" => self.events.push(Event::Start)?,
            b"commit" => self.events.push(commit(alloc, parts)?)?,
            b"read" => self.reads.push(read_of(parts))?,
            b"accept" | b"abort" | b"aged" | b"unfinished" => {
                self.put_verdict(alloc, tag, parts)?
            }
            b"counts" => self.counts.push(counts_of(parts))?,
            b"glance" => self.glances.push(look_of(parts))?,
            b"look" => self.looks.push(look_of(parts))?,
            _ => parts.refuse(BadCase::NoSuchWord),
        }
        Ok(())
    }

    /// Writes the report of the lines after a text, and adds the text; after that there are no lines.
    pub fn write(
        &mut self,
        alloc: Global,
        parts: &mut Parts<'_>,
        came: &mut Vec<u8>,
    ) -> Result<(), NoMemory> {
        let draft = mem::replace(self, CaseReport::new(alloc));
        let Some(history) = history_of(draft.events) else {
            parts.refuse(BadCase::NoCall);
            return Ok(());
        };
        let report = Report {
            history,
            verdicts: draft.verdicts,
            counts: draft.counts,
            glances: draft.glances,
            looks: draft.looks,
        };
        let mut text = parts.text(alloc)?;
        write_report(alloc, &report, &mut text)?;
        tell(&text, came)
    }
}
