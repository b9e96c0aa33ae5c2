//! A report while it is read: the lines so far, with what they count.
//!
//! A call takes a record and adds its line if no kind of fault applies; else it answers the least kind. No clause says what a draft is after a fault:
//! it is dropped.

ghost use Rattle.std.specs.Prelude.{◌≡◌, [], Ok};
ghost use Rattle.csv.specs.Records.{fields_of};
ghost use Rattle.air_report.specs.LineTexts.{spelled_line};
ghost use Rattle.air_report.specs.LineFaults.{comes_after_later_section, comes_next, is_next};
ghost use Rattle.air_report.specs.ReportLines.{sections_of};
ghost use Rattle.air_report.specs.Private.RecordAnswers.{AddsLine, CanCommit, CanPush, Pushed, line_record_kind, with_one_line};

use crate::reading::kinds::ReportFaultKind;
use crate::reading::lines::{EventLine, ReportLine};
use crate::reading::parsing::read_line;
use crate::reading::rules::{is_begun, is_known};
use crate::reading::sections::ReadLines;
use air_base::limits::MOST_UPDATERS;
use csv::ByteRecord;
use item_catalog::{Deck, Refusal};
use std::alloc::Global;
use std::marker::Model;

/// The lines so far, the number of each updater's commits, and the number of starts.
#[derive(Debug, Drop)]
pub struct ReportDraft {
    lines: ReadLines,
    made: [u64; MOST_UPDATERS],
    starts: u64,
}

impl Model for ReportDraft {
    ghost use Rattle.air_report.specs.ReportLines.{ReportLines};
    ghost use Rattle.air_report.specs.Private.ReportFields.{DraftCounts};

    ghost Value = { ReportLines };

    ghost view = { λ d. d.lines };

    ghost invariant = { DraftCounts };
}

impl ReportDraft {
    /// No lines.
    pub fn new(alloc: Global) -> ReportDraft
        ensures { result ≡ sections_of [] }
    {
        ReportDraft {
            lines: ReadLines::new(alloc),
            made: [0; MOST_UPDATERS],
            starts: 0,
        }
    }

    /// Whether a line of a later section is among those before.
    fn comes_after_later_section(&self, line: &ReportLine) -> bool
        ensures { result ≡ comes_after_later_section self.now line.now }
    {
        let lines = &self.lines;
        let looks = !lines.looks.is_empty();
        let glances = !lines.glances.is_empty() || looks;
        let counts = !lines.counts.is_empty() || glances;
        match line {
            ReportLine::Event(_) => !lines.verdicts.is_empty() || counts,
            ReportLine::Verdict(_) => counts,
            ReportLine::Counts(_) => glances,
            ReportLine::Glance(_) => looks,
            ReportLine::Look(_) => false,
        }
    }

    /// Whether a line of the history is a start or its updater's next commit.
    fn is_next(&self, deck: &Deck, line: EventLine) -> bool
        ensures { result ≡ is_next deck.now self.now.events line }
    {
        match line {
            EventLine::Start => true,
            EventLine::Commit { by, seq } => {
                by < deck.updaters()
                    && u64::from(seq) == self.made[by as usize]
                    && (seq as usize) < deck.updates(by).len()
            }
        }
    }

    /// Whether a line is either no commit or its updater's next one.
    fn comes_next(&self, deck: &Deck, line: &ReportLine) -> bool
        ensures { result ≡ comes_next deck.now self.now.events line.now }
    {
        match line {
            ReportLine::Event(event) => self.is_next(deck, *event),
            _ => true,
        }
    }

    /// The least kind of fault that applies to a line, or `None`.
    fn kind_of(&self, deck: &Deck, line: &ReportLine) -> Option<ReportFaultKind>
        ensures { result ≡ line_record_kind deck.now self.now (Ok line.now) }
    {
        if self.comes_after_later_section(line) {
            return Some(ReportFaultKind::Order);
        }
        if !self.comes_next(deck, line) {
            return Some(ReportFaultKind::Update);
        }
        if !is_known(deck, line) {
            return Some(ReportFaultKind::Deck);
        }
        if !is_begun(self.starts, line) {
            return Some(ReportFaultKind::Cycle);
        }
        None
    }

    /// Adds a line of the history: a start, or its updater's next commit.
    fn push_event(&mut self, event: EventLine) -> Result<(), Refusal<ReportFaultKind>>
        requires { CanCommit self.old event }
        ensures { Pushed result (self.new ≡ with_one_line self.old (ReportLine.Event event)) }
    {
        self.lines.push_event(event)?;
        let _places = self.lines.history().len();
        match event {
            EventLine::Start => self.starts += 1,
            EventLine::Commit { by, seq } => self.made[by as usize] = u64::from(seq) + 1,
        }
        Ok(())
    }

    /// Adds a line to which no kind of fault applies.
    fn push(&mut self, line: ReportLine) -> Result<(), Refusal<ReportFaultKind>>
        requires { CanPush self.old line }
        ensures { Pushed result (self.new ≡ with_one_line self.old line) }
    {
        match line {
            ReportLine::Event(event) => self.push_event(event)?,
            ReportLine::Verdict(line) => self.lines.push_verdict(line)?,
            ReportLine::Counts(line) => self.lines.push_counts(line)?,
            ReportLine::Glance(line) => self.lines.push_glance(line)?,
            ReportLine::Look(line) => self.lines.push_look(line)?,
        }
        Ok(())
    }

    /// Adds the line that a record spells, or answers the least kind of fault that applies to the record.
    pub fn add(
        &mut self,
        alloc: Global,
        deck: &Deck,
        fields: &ByteRecord,
    ) -> Result<(), Refusal<ReportFaultKind>>
        ensures { AddsLine result deck.now (spelled_line deck.now.settings.version (fields_of fields.now)) self.old self.new }
    {
        deck.shows_well_made();
        let line = read_line(alloc, deck.settings().version, fields)?;
        if let Some(kind) = self.kind_of(deck, &line) {
            return Err(Refusal::Kind(kind));
        }
        self.push(line)
    }

    /// The lines.
    pub fn into_lines(self) -> ReadLines
        ensures { result ≡ self }
    {
        self.lines
    }
}
