//! The reports of `script`, `tune`, `listen` and `cast`, in memory.
//!
//! `script` reports on the deck's script and on what its readers heard of it. `tune` reports on what they heard of a given tape, and `listen` on what
//! they heard of an ear. `cast` reports on a run that readers may hear elsewhere.

ghost use Rattle.std.specs.Prelude.{◌≡◌, ◌<◌, ◌^◌, [], IfOk};
ghost use Rattle.air_history.specs.Histories.{starts};
ghost use Rattle.air_model.specs.Decks.{script_history};
ghost use Rattle.air_model.specs.Outputs.{cast_output, script_output, true_sessions};
ghost use Rattle.air_model.specs.Reports.{counts_lines, report_text, verdict_lines};

use air_base::NoMemory;
use air_history::{Event, History};
use air_report::{Report, write_report};
use chunk_program::Planned;
use deck_runs::Run;
use listeners::Sessions;
use scripts::AiredScript;
use std::alloc::Global;

/// The report of a deck's script, from its history and its readers' sessions.
pub(crate) fn script_report(
    alloc: Global,
    planned: &Planned,
    aired: AiredScript,
) -> Result<Vec<u8>, NoMemory>
    requires events { aired.events.items ≡ script_history planned.now }
    requires verdicts { aired.sessions.verdicts.items ≡ verdict_lines (true_sessions planned.now (script_history planned.now)) }
    requires counts { aired.sessions.counts.items ≡ counts_lines (true_sessions planned.now (script_history planned.now)) }
    ensures { IfOk result (λ text. text.items ≡ script_output planned.now) }
{
    planned.shows_planned();
    let report = report_of(alloc, aired.events, aired.sessions)?;
    Ok(report)
}

/// The report of the sessions of readers that know no history.
pub(crate) fn heard_report(alloc: Global, sessions: Sessions) -> Result<Vec<u8>, NoMemory>
    ensures { IfOk result (λ text. text.items
        ≡ report_text (record { history = []; verdicts = sessions.verdicts.items; counts = sessions.counts.items; glances = []; looks = [] })) }
{
    let report = report_of(alloc, Vec::new(alloc), sessions)?;
    Ok(report)
}

/// The report of a run that no reader heard here: its history, and what its monitors saw.
pub(crate) fn cast_report(alloc: Global, run: Run) -> Result<Vec<u8>, NoMemory>
    ensures { IfOk result (λ text. text.items ≡ cast_output run.history run.glances run.looks) }
{
    let report = Report {
        history: run.history,
        verdicts: Vec::new(alloc),
        counts: Vec::new(alloc),
        glances: run.glances,
        looks: run.looks,
    };
    let mut text = Vec::new(alloc);
    write_report(alloc, &report, &mut text)?;
    Ok(text)
}

/// The text of the report of a history and of readers' sessions; no monitor saw the history.
fn report_of(alloc: Global, events: Vec<Event>, sessions: Sessions) -> Result<Vec<u8>, NoMemory>
    requires { starts events.items < 2 ^ 32 }
    ensures { IfOk result (λ text. text.items
        ≡ report_text (record { history = events.items; verdicts = sessions.verdicts.items; counts = sessions.counts.items; glances = []; looks = [] })) }
{
    let report = Report {
        history: History::from_events(events),
        verdicts: sessions.verdicts,
        counts: sessions.counts,
        glances: Vec::new(alloc),
        looks: Vec::new(alloc),
    };
    let mut text = Vec::new(alloc);
    write_report(alloc, &report, &mut text)?;
    Ok(text)
}
