//! Notes on words that aren't a valid command, and the help on one command. The commands and their forms are read from the text of the help.

pub(crate) mod usages;

use crate::prompts::usages::{Usage, nearest_command};
use crate::records::lists::parts_in;
use crate::words::sentences::{Sentence, range};
use crate::words::texts::why_no_number;
use air_base::{NoMemory, read_u64};
use item_catalog::MOST_DRILL_SIZE;
use std::alloc::Global;

/// The words of a form that stand for numbers, each with its least and its greatest number.
const NUMBERS: [(&str, u64, u64); 5] = [
    ("SEED", 0, u64::MAX),
    ("SIZE", 1, MOST_DRILL_SIZE as u64),
    ("PORT", 1, u16::MAX as u64),
    ("ITEM", 0, 65_534),
    ("FROM", 0, u32::MAX as u64),
];

/// What is wrong with a word in a place for a number, or `None`.
fn number_note<'a>(place: &str, word: &'a str) -> Option<Sentence<'a>> {
    for (name, least, most) in NUMBERS {
        if name == place {
            return match read_u64(word.as_bytes()) {
                Some(number) if least <= number && number <= most => None,
                Some(_) => {
                    let sentence = Sentence::words("#name# is #text#: ", word, name, "");
                    Some(sentence.with(0, most, range(least)))
                }
                None => {
                    let why = why_no_number(word);
                    Some(Sentence::words("#name# is #text#: #why#", word, name, why))
                }
            };
        }
    }
    None
}

/// The first word that doesn't suit its place in a form, or `None`.
fn form_note<'a>(places: &'static str, words: &'a [String]) -> Option<Sentence<'a>> {
    let mut rest = words;
    for place in places.split(' ') {
        let (word, more) = rest.split_first()?;
        rest = more;
        if word.is_empty() {
            return Some(Sentence::words("#name# is empty", "", place, ""));
        }
        let sentence = number_note(place, word);
        if sentence.is_some() {
            return sentence;
        }
    }
    None
}

/// What is wrong with the words after a command, by the forms of the command in the help.
fn command_note<'a>(
    help: &'static str,
    command: &'static str,
    words: &'a [String],
) -> Sentence<'a> {
    let count = words.len() as u64;
    let mut most = 0;
    for line in help.split('\n') {
        let Some(usage) = Usage::of_command(line, Some(command)) else {
            continue;
        };
        let places = parts_in(usage.places());
        if places == count
            && let Some(sentence) = form_note(usage.places(), words)
        {
            return sentence;
        }
        most = most.max(places);
    }
    let wording = if count < most {
        "too few words for #name#"
    } else if most < count {
        "too many words for #name#"
    } else {
        "the words of #name# are of no form"
    };
    Sentence::words(wording, "", command, "")
}

/// What is wrong with a command's name and the words after it, and the command that was meant, if it is known.
fn named_note<'a>(
    alloc: Global,
    help: &'static str,
    name: &'a str,
    words: &'a [String],
) -> Result<(Sentence<'a>, Option<&'static str>), NoMemory> {
    let command = nearest_command(alloc, help, name)?;
    let sentence = match command {
        Some(command) if command == name => command_note(help, command, words),
        Some(command) => {
            let wording = "there is no command #text#, and the nearest is #name#";
            Sentence::words(wording, name, command, "")
        }
        None => Sentence::words("there is no command #text#", name, "", ""),
    };
    Ok((sentence, command))
}

/// What is wrong with words that aren't a valid command, and the command that was meant, if it is known.
fn note_parts<'a>(
    alloc: Global,
    help: &'static str,
    words: &'a [String],
) -> Result<(Sentence<'a>, Option<&'static str>), NoMemory> {
    match words {
        [] => Ok((Sentence::words("no command is named", "", "", ""), None)),
        [help_word, name] if help_word.as_str() == "help" => named_note(alloc, help, name, &[]),
        [name, rest @ ..] => named_note(alloc, help, name, rest),
    }
}

/// What the usage has before a form.
fn before_form(is_first: bool) -> &'static str {
    if is_first {
        "\nusage: airdisk "
    } else {
        "\n       airdisk "
    }
}

/// Adds a form to the usage, as its first line or as another one.
fn add_form(form: &str, is_first: bool, note: &mut String) -> Result<(), NoMemory> {
    note.push_str(before_form(is_first))?;
    note.push_str(form)?;
    Ok(())
}

/// Adds the usage of a command, or of all commands if none is given.
fn add_usages(
    help: &'static str,
    command: Option<&'static str>,
    note: &mut String,
) -> Result<(), NoMemory> {
    let mut is_first = true;
    for line in help.split('\n') {
        if let Some(usage) = Usage::of_command(line, command) {
            add_form(usage.form, is_first, note)?;
            is_first = false;
        }
    }
    Ok(())
}

/// A note on words that aren't a valid command: what is wrong, and below it the usage of the command that was meant, or of all commands.
pub fn words_note(alloc: Global, help: &'static str, words: &[String]) -> Result<String, NoMemory> {
    let (sentence, command) = note_parts(alloc, help, words)?;
    let mut note = format!(in alloc; "airdisk: {sentence}")?;
    add_usages(help, command, &mut note)?;
    Ok(note)
}

/// A note on words that aren't all text, and below it the usage of all commands.
pub fn no_text_note(alloc: Global, help: &'static str) -> Result<String, NoMemory> {
    let mut note = String::new(alloc);
    note.push_str("airdisk: a word isn't UTF-8")?;
    add_usages(help, None, &mut note)?;
    Ok(note)
}

/// Whether a line of the help shows a form of this command.
fn is_of_command(line: &'static str, name: &str) -> bool {
    match Usage::of_line(line) {
        Some(usage) => usage.command() == name,
        None => false,
    }
}

/// Adds a line to a text.
fn add_line(line: &str, text: &mut String) -> Result<(), NoMemory> {
    text.push_str(line)?;
    text.push('\n')?;
    Ok(())
}

/// A text that isn't empty, or `None`.
fn some_text(text: String) -> Option<String> {
    if text.is_empty() {
        return None;
    }
    Some(text)
}

/// The lines of the help on a command, or `None` if there are none.
pub fn command_help(
    alloc: Global,
    help: &'static str,
    name: &str,
) -> Result<Option<String>, NoMemory> {
    let mut text = String::new(alloc);
    for line in help.split('\n') {
        if is_of_command(line, name) {
            add_line(line.trim_start(), &mut text)?;
        }
    }
    Ok(some_text(text))
}
