//! Settings of `cast` and `listen` that come from variables of the environment.

use air_base::{NoMemory, read_u64};
use air_devices::SILENCE;
use fault_notes::ShownText;
use std::alloc::Global;
use std::env::{self, Env, VarError};

/// A variable: its name, its least and its greatest number, and what the number means.
#[derive(Clone, Copy)]
struct Variable {
    name: &'static str,
    least: u32,
    most: u32,
    what: &'static str,
}

/// The rate of `cast`, in buckets a second.
const RATE: Variable = Variable {
    name: "AIRDISK_RATE",
    least: 1,
    most: 1_000_000,
    what: "the buckets a second",
};

/// The silence after which `listen` ends, in seconds; with 0 it never ends by itself.
const QUIET: Variable = Variable {
    name: "AIRDISK_SILENCE",
    least: 0,
    most: 1_000_000,
    what: "the seconds of silence",
};

/// The rate of a cast, if one is set, and the silence of a listener.
#[derive(Clone, Copy)]
pub struct AirSettings {
    pub rate: Option<u32>,
    pub silence: u32,
}

/// Why the settings can't be read.
#[derive(Drop)]
pub enum SettingError {
    /// A variable isn't a number in its range; with a note on it.
    Wrong(String),
    NoMemory,
}

impl From<NoMemory> for SettingError {
    fn from(_error: NoMemory) -> SettingError {
        SettingError::NoMemory
    }
}

/// A note on a variable whose text isn't a number in its range.
fn note_on(alloc: Global, variable: Variable, text: &str) -> Result<String, NoMemory> {
    let Variable {
        name,
        least,
        most,
        what,
    } = variable;
    let text = ShownText::field(text);
    Ok(format!(in alloc; "airdisk: {name} is {text}: {what} are a number from {least} to {most}")?)
}

/// The number of a variable, or `None` if it isn't set.
fn number_of<R: Env + Alloc<A = Global>>(
    rt: &R,
    alloc: Global,
    variable: Variable,
) -> Result<Option<u32>, SettingError> {
    let text = match env::var(rt, variable.name) {
        Ok(text) => text,
        Err(VarError::NotPresent) => return Ok(None),
        Err(VarError::OutOfMemory) => return Err(SettingError::NoMemory),
        Err(VarError::NotUnicode) => {
            return Err(SettingError::Wrong(note_on(alloc, variable, "no UTF-8")?));
        }
    };
    match read_u64(text.as_bytes()) {
        Some(number) if u64::from(variable.least) <= number && number <= u64::from(variable.most) =>
            { Ok(Some(number as u32)) }
        _ => Err(SettingError::Wrong(note_on(alloc, variable, text.as_str())?)),
    }
}

/// The settings for a command: only `cast` reads the rate, and only `listen` the silence.
pub fn air_settings<R: Env + Alloc<A = Global>>(
    rt: &R,
    alloc: Global,
    command: &str,
) -> Result<AirSettings, SettingError> {
    let mut settings = AirSettings {
        rate: None,
        silence: SILENCE,
    };
    if command == "cast" {
        settings.rate = number_of(rt, alloc, RATE)?;
    } else if command == "listen" {
        settings.silence = number_of(rt, alloc, QUIET)?.unwrap_or(SILENCE);
    }
    Ok(settings)
}
