//! The player: a word sets something, has a command played, or asks for something of the last one.
//!
//! `quiet`, `main` and `meet` take the words of a command, with `''` for an empty one; `lines` takes the front of a line. The words that set
//! something are in `files` and `settings`, those of notes in `notes`.

ghost use Rattle.std.specs.Thread.{IsSync};

use crate::files::Files;
use crate::notes::add_note;
use crate::number_ranges::NumberRange;
use crate::settings::Settings;
use crate::telling::{add_air, add_end, add_numbers, count_lines};
use air_base::NoMemory;
use air_cli::{air_main, air_quiet};
use air_devices::{Gate, MemEar, MemMast, OpenGate};
use case_lines::{Parts, Player, add_line};
use meeting_gate::MeetingGate;
use std::alloc::Global;
use std::sync::Wait;
use std::thread::Threads;

/// The files, what is set for the next command, what the last one printed, and the threads on which commands run.
#[derive(Drop)]
pub struct Commands<'r, R> {
    rt: &'r R,
    files: Files,
    settings: Settings,
    printed: Vec<u8>,
}

/// The words of a command.
pub fn words_of(alloc: Global, parts: &mut Parts<'_>) -> Result<Vec<String>, NoMemory> {
    let mut words = Vec::new(alloc);
    for _ in 0..parts.left() {
        if parts.left() > 0 {
            let word = if parts.takes(b"''") {
                &[]
            } else {
                parts.next()
            };
            words.push(String::from_utf8_lossy(alloc, word)?)?;
        }
    }
    Ok(words)
}

impl<'r, R: Threads + Wait + Sync> Commands<'r, R> {
    /// Two empty files, and nothing set.
    pub fn new(rt: &'r R, alloc: Global) -> Commands<'r, R> {
        Commands {
            rt,
            files: Files::new(alloc),
            settings: Settings::new(alloc),
            printed: Vec::new(alloc),
        }
    }

    /// Plays a command that needs no waiting.
    fn play_quiet(
        &mut self,
        alloc: Global,
        words: &[String],
        came: &mut Vec<u8>,
    ) -> Result<(), NoMemory> {
        let mut shelf = self.files.shelf(alloc, &self.settings)?;
        let status = air_quiet(self.rt, alloc, words, &mut shelf);
        self.printed = Vec::from_slice(alloc, shelf.printed())?;
        add_end(alloc, self.settings.brief, status, &shelf, came)
    }

    /// Plays any command, with a gate that is called before and after each commit, cycle and look.
    fn play_main<G: Gate + Sync>(
        &mut self,
        alloc: Global,
        words: &[String],
        gate: &G,
        came: &mut Vec<u8>,
    ) -> Result<(), NoMemory> {
        let mut shelf = self.files.shelf(alloc, &self.settings)?;
        let fail = self.settings.air_fail.clone()?;
        let mut mast = MemMast::new(alloc, self.settings.room, fail)?;
        let fail = self.settings.air_fail.clone()?;
        let mut ear = MemEar::new(self.settings.datagrams(alloc)?, fail);
        let status = air_main(self.rt, alloc, words, &mut shelf, &mut mast, &mut ear, gate);
        self.printed = Vec::from_slice(alloc, shelf.printed())?;
        add_end(alloc, self.settings.brief, status, &shelf, came)?;
        add_air(&mast, &mut ear, self.settings.heard(), came)
    }

    /// Plays a command once, by the call for all commands or by the one for those that don't wait.
    fn play_once<G: Gate + Sync>(
        &mut self,
        alloc: Global,
        waits: bool,
        words: &[String],
        gate: &G,
        came: &mut Vec<u8>,
    ) -> Result<(), NoMemory> {
        if waits {
            self.play_main(alloc, words, gate, came)
        } else {
            self.play_quiet(alloc, words, came)
        }
    }

    /// Plays a command once for each number that is set in turn, and adds numbers with the same result together.
    fn play_each(
        &mut self,
        alloc: Global,
        waits: bool,
        words: &[String],
        range: NumberRange,
        came: &mut Vec<u8>,
    ) -> Result<(), NoMemory> {
        let mut told = Vec::new(alloc);
        let mut from = range.first;
        for number in range.first..range.end {
            self.settings.set_to(alloc, range.what, number)?;
            let mut one = Vec::new(alloc);
            self.play_once(alloc, waits, words, &OpenGate, &mut one)?;
            if number > from && one.as_slice() != told.as_slice() {
                range.add(from, number, &told, came)?;
                from = number;
            }
            told = one;
        }
        range.add(from, range.end, &told, came)
    }

    /// Plays a command, once or for each number.
    fn play_command(
        &mut self,
        alloc: Global,
        waits: bool,
        parts: &mut Parts<'_>,
        came: &mut Vec<u8>,
    ) -> Result<(), NoMemory> {
        let words = words_of(alloc, parts)?;
        match self.settings.each {
            Some(range) => self.play_each(alloc, waits, &words, range, came),
            None => self.play_once(alloc, waits, &words, &OpenGate, came),
        }
    }

    /// Plays a command whose threads meet, and adds how often each awaited call was made, and how often one was waited for in vain.
    fn play_meeting(
        &mut self,
        alloc: Global,
        parts: &mut Parts<'_>,
        came: &mut Vec<u8>,
    ) -> Result<(), NoMemory> {
        let words = words_of(alloc, parts)?;
        let gate = MeetingGate::new();
        self.play_main(alloc, &words, &gate, came)?;
        add_line(b"calls", &gate.counts(), came)
    }

    /// Plays a word that is no setting; nothing is set after it.
    fn play_word(
        &mut self,
        alloc: Global,
        word: &[u8],
        parts: &mut Parts<'_>,
        came: &mut Vec<u8>,
    ) -> Result<(), NoMemory> {
        match word {
            b"quiet" => self.play_command(alloc, false, parts, came)?,
            b"main" => self.play_command(alloc, true, parts, came)?,
            b"meet" => self.play_meeting(alloc, parts, came)?,
            b"lines" => add_line(b"lines", &[count_lines(&self.printed, parts.next())], came)?,
            b"statuses" => add_numbers(alloc, came)?,
            _ => add_note(alloc, &self.files, word, parts, came)?,
        }
        self.settings = Settings::new(alloc);
        Ok(())
    }
}

impl<R: Threads + Wait + Sync> Player for Commands<'_, R> {
    ghost needs = { IsSync R.row };

    fn play(
        &mut self,
        alloc: Global,
        word: &[u8],
        parts: &mut Parts<'_>,
        came: &mut Vec<u8>,
    ) -> Result<(), NoMemory> {
        if word == b"printed".as_slice() {
            self.files.begin(false, self.printed.clone()?);
            return Ok(());
        }
        if self.files.put(alloc, word, parts)? || self.settings.set(alloc, word, parts)? {
            return Ok(());
        }
        self.play_word(alloc, word, parts, came)
    }
}
