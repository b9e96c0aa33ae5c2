//! The script of a deck while it is read.
//!
//! Events are taken one by one, as long as no limit is passed. The starts and each updater's commits are counted at the same
//! time, so no record of the script is looked at again.

ghost use Rattle.std.specs.Prelude.{◌≡◌, ◌<◌, ◌≤◌, ◌++◌, ◌∷◌, ◌||◌, [], IfOk, OnOk, Some, None, get_or, length, nat_lt, option_map, false};
ghost use Rattle.air_base.specs.LeadingParts.{LeadingIs};
ghost use Rattle.air_base.specs.NumberLists.{list_of};
ghost use Rattle.air_model.specs.Decks.{scripted_commits};
ghost use Rattle.item_catalog.specs.Fields.{spelled_event};
ghost use Rattle.item_catalog.specs.Faults.{count_starts, script_passes, some_below};
ghost use Rattle.item_catalog.specs.Private.ScriptFields.{EventsRead, stands_alone};

use crate::parts::Updates;
use air_base::limits::{MOST_EVENTS, MOST_STARTS, MOST_UPDATERS};
use air_base::{ends_part, read_leading_number};
use std::alloc::{AllocFailed, Global};
use std::marker::Model;

/// The events so far, the number of starts among them, and each updater's number of commits.
#[derive(Debug, Drop)]
pub struct Script {
    events: Vec<Option<u32>>,
    starts: u32,
    commits: [u32; MOST_UPDATERS],
}

impl Model for Script {
    ghost use Rattle.std.specs.Prelude.{List, Option, ℕ};
    ghost use Rattle.item_catalog.specs.Private.ScriptFields.{ScriptKept};

    ghost Value = { List (Option ℕ) };

    ghost view = { λ s. s.events.items };

    ghost invariant = { ScriptKept };
}

impl Script {
    /// No events.
    pub fn new(alloc: Global) -> Self
        ensures { result ≡ [] }
    {
        Script {
            events: Vec::new(alloc),
            starts: 0,
            commits: [0; MOST_UPDATERS],
        }
    }

    /// For proofs only: tells the caller that the limits of the type hold. It does nothing at run time.
    fn shows_limits(&self)
        ensures events { length self.now ≤ MOST_EVENTS }
        ensures starts { count_starts self.now ≤ MOST_STARTS }
    {
        let _events = &self.events;
    }

    /// Whether one more event passes a limit.
    fn passes(&self, event: Option<u64>) -> bool
        ensures { result ≡ script_passes self.now (event ∷ []) }
    {
        self.events.len() >= MOST_EVENTS
            || match event {
                None => self.starts >= MOST_STARTS,
                Some(by) => by >= MOST_UPDATERS as u64,
            }
    }

    /// Adds a start.
    pub fn start(&mut self) -> Result<(), AllocFailed<Option<u32>>>
        requires { script_passes self.old (None ∷ []) ≡ false }
        ensures { OnOk result (self.new ≡ self.old ++ None ∷ []) }
    {
        self.events.push(None)?;
        self.starts += 1;
        Ok(())
    }

    /// Adds a commit of an updater.
    pub fn commit(&mut self, by: u64) -> Result<(), AllocFailed<Option<u32>>>
        requires { script_passes self.old (Some by ∷ []) ≡ false }
        ensures { OnOk result (self.new ≡ self.old ++ Some by ∷ []) }
    {
        self.events.push(Some(by as u32))?;
        self.commits[by as usize] += 1;
        Ok(())
    }

    /// Takes one more event, unless a limit was passed before or this event passes one. Says whether a limit is passed.
    fn take(&mut self, passed: bool, event: Option<u64>) -> Result<bool, AllocFailed<Option<u32>>>
        ensures passes { IfOk result (λ passes. passes ≡ (passed || script_passes self.old (event ∷ []))) }
        ensures taken { IfOk result (λ passes. passes ≡ false → self.new ≡ self.old ++ event ∷ []) }
    {
        if passed || self.passes(event) {
            return Ok(true);
        }
        match event {
            None => self.start()?,
            Some(by) => self.commit(by)?,
        }
        Ok(false)
    }

    /// Whether an updater commits more updates than it has.
    pub fn overdraws(&self, updates: &[Updates]) -> bool
        requires { length updates.now ≡ MOST_UPDATERS }
        ensures { result ≡ some_below MOST_UPDATERS (λ by. nat_lt (length (get_or updates.now by [])) (scripted_commits by self.now)) }
    {
        for by in 0..MOST_UPDATERS {
            if updates[by].len() < self.commits[by] as usize {
                return true;
            }
        }
        false
    }

    /// Reads further events, and adds them unless they pass a limit. Says whether they do; None if the text spells no list.
    pub fn read(&mut self, text: &[u8]) -> Result<Option<bool>, AllocFailed<Option<u32>>>
        ensures { IfOk result (λ read. EventsRead read (list_of spelled_event text.now) self.old self.new) }
    {
        self.shows_limits();
        if text.is_empty() {
            return Ok(Some(false));
        }
        let mut passed = false;
        let mut rest = text;
        loop {
            let Some((event, after)) = leading_event(rest) else {
                return Ok(None);
            };
            passed = self.take(passed, event)?;
            let Some((_, more)) = after.split_first() else {
                return Ok(Some(passed));
            };
            rest = more;
        }
    }

    /// The events, and the number of starts among them.
    pub fn into_events(self) -> (Vec<Option<u32>>, u32)
        ensures events { result.0.items ≡ self }
        ensures starts { result.1 ≡ count_starts self }
    {
        (self.events, self.starts)
    }
}

/// Whether the first part of a text is this byte alone.
pub fn stands_alone(byte: u8, text: &[u8]) -> bool
    ensures { result ≡ stands_alone byte text.now }
{
    match text.split_first() {
        None => false,
        Some((first, rest)) => *first == byte && ends_part(rest),
    }
}

/// The event that the first part spells; None is a start.
#[tactic(auto, using(crate::proofs::PartWords::start_event, crate::proofs::PartWords::number_event, crate::proofs::PartWords::after_start))]
fn leading_event(text: &[u8]) -> Option<(Option<u64>, &[u8])>
    ensures { LeadingIs spelled_event text.now (option_map (λ f. (f.0, f.1.now)) result) }
{
    if stands_alone(b's', text) {
        return Some((None, &text[1..]));
    }
    match read_leading_number(text) {
        Some((by, rest)) => Some((Some(by), rest)),
        None => None,
    }
}
