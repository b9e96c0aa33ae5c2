//! The program: words in, a status out.
//!
//! It gives its words and a shelf over files and standard output to a top call: to `air_main` for a command that waits, with a mast and an ear over
//! UDP on this machine, else to `air_quiet`, which ends. Environment variables set the rate of the mast and the silence of the ear (`settings`).
//! With a rate, updates wait at a gate (`gates`); else nothing waits. On standard error the ear reports on a terminal (`ears`), and a refusal has a
//! note (`notes`), made from `plain_files` that are read again. The exit status is the status's number. Help and version are answered here.
#![tactic(auto)]

mod ears;
mod gates;
mod notes;
mod plain_files;
mod settings;

use crate::ears::ToldEar;
use crate::gates::gate_of;
use crate::notes::{explain, explain_no_memory, say, word};
use crate::plain_files::PlainFiles;
use crate::settings::{AirSettings, SettingError, air_settings};
use air_base::NoMemory;
use air_cli::words::{Command, HELP, command_of, waits};
use air_cli::{air_main, air_quiet, refuse};
use air_devices::{FileShelf, UdpEar, UdpMast};
use air_report::Status;
use fault_notes::{command_help, no_text_note};
use std::alloc::Global;
use std::env::{self, Env};
use std::io::{self, IsTerminal, Write};
use std::process::ExitCode;
use std::rt::Files;

/// The version of the program.
const VERSION: &str = "airdisk 0.1.0\n";

/// What is left to do after the words and the settings were read.
#[derive(Drop)]
enum FirstStep {
    /// Nothing: this is the status.
    Done(Status),
    /// The command of these words, with what is set for it.
    Command(Vec<String>, AirSettings),
}

fn main(rt: HostRuntime) -> ExitCode {
    let alloc = rt.alloc();
    let (words, settings) = match read_words(&rt, alloc) {
        Ok(FirstStep::Command(words, settings)) => (words, settings),
        Ok(FirstStep::Done(status)) => return ExitCode::from(status.code()),
        Err(NoMemory) => return end_without_memory(&rt),
    };
    let Ok(gate) = gate_of(&rt, alloc, word(&words, 1), cast_rate(&words, settings)) else {
        return end_without_memory(&rt);
    };
    let Ok((files, sending, hearing, telling)) = four_runtimes(&rt) else {
        return end_without_memory(&rt);
    };
    let mut shelf = FileShelf::new(files);
    let mut mast = UdpMast::with_rate(sending, settings.rate);
    let ear = UdpEar::with_silence(hearing, settings.silence);
    let mut ear = ToldEar::new(ear, telling, rt.stderr().is_terminal());
    let status = if waits(&words) {
        air_main(&rt, alloc, &words, &mut shelf, &mut mast, &mut ear, &gate)
    } else {
        air_quiet(&rt, alloc, &words, &mut shelf)
    };
    let on_air = mast.last_failure().or(ear.ear().last_failure());
    let mut files = PlainFiles::new(&rt, shelf);
    explain(&rt, alloc, &words, &mut files, on_air, status);
    ExitCode::from(status.code())
}

/// The runtime four times, for the files, the mast, the ear and its reports.
fn four_runtimes<R: Clone + Drop>(rt: &R) -> Result<(R, R, R, R), NoMemory> {
    Ok((rt.clone()?, rt.clone()?, rt.clone()?, rt.clone()?))
}

/// The rate of the mast, if one is set and the words are those of a cast.
fn cast_rate(words: &[String], settings: AirSettings) -> Option<u32> {
    match command_of(words) {
        Some(Command::Cast { .. }) => settings.rate,
        _ => None,
    }
}

/// Says that the program is out of memory, and answers the status of that.
fn end_without_memory<R: Eprint>(rt: &R) -> ExitCode {
    explain_no_memory(rt);
    ExitCode::from(Status::NoMemory.code())
}

/// Answers what can be answered at once: help, version, and what is no text or no setting. Otherwise it reads the settings of the command.
fn read_words<R>(rt: &R, alloc: Global) -> Result<FirstStep, NoMemory>
where
    R: Files + Env + Print + Eprint + Alloc<A = Global> + Clone + Drop,
{
    let Some(words) = words_of(rt, alloc)? else {
        let note = no_text_note(alloc, HELP)?;
        let status = refuse_words(rt, alloc, note.as_str())?;
        return Ok(FirstStep::Done(status));
    };
    if let Some(status) = answer(rt, alloc, &words)? {
        return Ok(FirstStep::Done(status));
    }
    match air_settings(rt, alloc, word(&words, 0)) {
        Ok(settings) => Ok(FirstStep::Command(words, settings)),
        Err(SettingError::NoMemory) => Err(NoMemory),
        Err(SettingError::Wrong(note)) => {
            let status = refuse_words(rt, alloc, note.as_str())?;
            Ok(FirstStep::Done(status))
        }
    }
}

/// Prints the help or the version, if the words ask for it, and answers the status of that.
fn answer<R: Print + Eprint>(
    rt: &R,
    alloc: Global,
    words: &[String],
) -> Result<Option<Status>, NoMemory> {
    match words {
        [only] => Ok(answer_alone(rt, only)),
        [first, name] if first.as_str() == "help" => answer_help(rt, alloc, name),
        _ => Ok(None),
    }
}

/// Prints the help or the version, if a single word asks for it, and answers the status of that.
fn answer_alone<R: Print + Eprint>(rt: &R, only: &str) -> Option<Status> {
    if is_help(only) {
        return Some(print_text(rt, HELP));
    }
    if only == "--version" || only == "-V" {
        return Some(print_text(rt, VERSION));
    }
    None
}

/// Prints the lines of the help on a command, if there are some, and answers the status of that.
fn answer_help<R: Print + Eprint>(
    rt: &R,
    alloc: Global,
    name: &str,
) -> Result<Option<Status>, NoMemory> {
    match command_help(alloc, HELP, name)? {
        Some(text) => Ok(Some(print_text(rt, text.as_str()))),
        None => Ok(None),
    }
}

/// Whether a single word asks for the help.
fn is_help(only: &str) -> bool {
    only == "help" || only == "--help" || only == "-h"
}

/// Refuses the words, or a variable, with a note.
fn refuse_words<R: Files + Print + Eprint + Clone + Drop>(
    rt: &R,
    alloc: Global,
    note: &str,
) -> Result<Status, NoMemory> {
    say(rt, note);
    let mut shelf = FileShelf::new(rt.clone()?);
    Ok(refuse(alloc, &mut shelf, Status::Words))
}

/// The words of the command line without the program's own name, or `None` if one isn't text.
fn words_of<R: Env + Alloc<A = Global>>(
    rt: &R,
    alloc: Global,
) -> Result<Option<Vec<String>>, NoMemory> {
    let mut words = Vec::new(alloc);
    match env::args(rt) {
        Ok(args) => {
            for word in args.skip(1) {
                words.push(word)?;
            }
            Ok(Some(words))
        }
        Err(error) if error.kind() == io::ErrorKind::OutOfMemory => Err(NoMemory),
        Err(_) => Ok(None),
    }
}

/// Prints a text, and answers the status of that. A failure has a note on standard error, except for a closed pipe.
fn print_text<R: Print + Eprint>(rt: &R, text: &str) -> Status {
    match io::writer(rt).write_all(text.as_bytes()) {
        Ok(()) => Status::Ok,
        Err(error) => {
            if error.kind() != io::ErrorKind::BrokenPipe {
                let _ = eprintln!(rt; "airdisk: printing: {error}");
            }
            Status::WriteFault
        }
    }
}
