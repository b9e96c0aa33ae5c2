//! The lines that were read, by section, and how a line is added.

ghost use Rattle.std.specs.Prelude.{◌≡◌, ◌++◌, ◌∷◌, [], if◌then◌else◌, is_ok};

use crate::reading::lines::EventLine;
use air_model::reports::{CountsLine, LookLine, VerdictLine};
use std::alloc::{AllocFailed, Global};
use std::marker::Model;

/// The lines of a report, section by section.
#[derive(Debug, Drop)]
pub struct ReadLines {
    pub events: Vec<EventLine>,
    pub verdicts: Vec<VerdictLine>,
    pub counts: Vec<CountsLine>,
    pub glances: Vec<LookLine>,
    pub looks: Vec<LookLine>,
}

impl Model for ReadLines {
    ghost use Rattle.air_report.specs.ReportLines.{ReportLines};

    ghost Value = { ReportLines };

    ghost view = { λ r. record { events = r.events.items; verdicts = r.verdicts.items; counts = r.counts.items; glances = r.glances.items; looks = r.looks.items } };
}

impl ReadLines {
    /// No lines.
    pub(crate) fn new(alloc: Global) -> ReadLines
        ensures { result ≡ record { events = []; verdicts = []; counts = []; glances = []; looks = [] } }
    {
        ReadLines {
            events: Vec::new(alloc),
            verdicts: Vec::new(alloc),
            counts: Vec::new(alloc),
            glances: Vec::new(alloc),
            looks: Vec::new(alloc),
        }
    }

    /// The lines of the history.
    pub(crate) fn history(&self) -> &[EventLine]
        ensures { result.now ≡ self.now.events }
    {
        &self.events
    }

    /// Adds a line of the history.
    pub(crate) fn push_event(&mut self, line: EventLine) -> Result<(), AllocFailed<EventLine>>
        ensures { self.new ≡ (if is_ok result then record self.old { events = self.old.events ++ line ∷ [] } else self.old) }
    {
        self.events.push(line)
    }

    /// Adds a line of verdicts.
    pub(crate) fn push_verdict(&mut self, line: VerdictLine) -> Result<(), AllocFailed<VerdictLine>>
        ensures { self.new ≡ (if is_ok result then record self.old { verdicts = self.old.verdicts ++ line ∷ [] } else self.old) }
    {
        self.verdicts.push(line)
    }

    /// Adds a line of counts.
    pub(crate) fn push_counts(&mut self, line: CountsLine) -> Result<(), AllocFailed<CountsLine>>
        ensures { self.new ≡ (if is_ok result then record self.old { counts = self.old.counts ++ line ∷ [] } else self.old) }
    {
        self.counts.push(line)
    }

    /// Adds a line of glances.
    pub(crate) fn push_glance(&mut self, line: LookLine) -> Result<(), AllocFailed<LookLine>>
        ensures { self.new ≡ (if is_ok result then record self.old { glances = self.old.glances ++ line ∷ [] } else self.old) }
    {
        self.glances.push(line)
    }

    /// Adds a line of looks.
    pub(crate) fn push_look(&mut self, line: LookLine) -> Result<(), AllocFailed<LookLine>>
        ensures { self.new ≡ (if is_ok result then record self.old { looks = self.old.looks ++ line ∷ [] } else self.old) }
    {
        self.looks.push(line)
    }
}
