//! The lines of the help that show a form of words.

use air_base::NoMemory;
use std::alloc::Global;
use strsim::osa_distance;

/// What comes before the words of a form.
const PROGRAM: &str = "airdisk ";

/// What separates a form from what it does.
const GAP: &str = "  ";

/// A command with this edit distance or more from a name isn't suggested.
const FAR: usize = 3;

/// A form of words, and whether no variable is set before the program.
#[derive(Clone, Copy)]
pub struct Usage {
    pub form: &'static str,
    is_plain: bool,
}

impl Usage {
    /// The form that a line of the help shows, or `None`.
    pub fn of_line(line: &'static str) -> Option<Usage> {
        let (setting, rest) = line.split_once(PROGRAM)?;
        let (form, _) = rest.split_once(GAP)?;
        Some(Usage {
            form,
            is_plain: setting.trim().is_empty(),
        })
    }

    /// The form that a line shows without a variable, of the given command or of any, or `None`.
    pub fn of_command(line: &'static str, command: Option<&str>) -> Option<Usage> {
        let usage = Usage::of_line(line)?;
        let is_asked = match command {
            Some(command) => usage.command() == command,
            None => true,
        };
        if usage.is_plain && is_asked {
            Some(usage)
        } else {
            None
        }
    }

    /// The first word of the form.
    pub fn command(self) -> &'static str {
        let first = match self.form.split_once(' ') {
            Some((first, _)) => first,
            None => self.form,
        };
        first.strip_suffix(',').unwrap_or(first)
    }

    /// The second spelling of an option; empty if there is none.
    fn other(self) -> &'static str {
        match self.form.split_once(", ") {
            Some((_, other)) => other,
            None => "",
        }
    }

    /// The words after the command; empty for an option, which has none.
    pub fn places(self) -> &'static str {
        match self.form.split_once(' ') {
            Some((_, places)) if !self.form.starts_with('-') => places,
            _ => "",
        }
    }
}

/// The command of the help nearest to a name, by edit distance and without regard to case, or `None` if each is far from it.
pub fn nearest_command(
    alloc: Global,
    help: &'static str,
    name: &str,
) -> Result<Option<&'static str>, NoMemory> {
    let small = name.to_ascii_lowercase(alloc)?;
    let mut nearest = None;
    let mut least = FAR;
    for line in help.split('\n') {
        if let Some(usage) = Usage::of_command(line, None) {
            let edits = if !name.is_empty() && usage.other() == name {
                0
            } else {
                osa_distance(alloc, small.as_str(), usage.command())?
            };
            if edits < least {
                least = edits;
                nearest = Some(usage.command());
            }
        }
    }
    Ok(nearest)
}
