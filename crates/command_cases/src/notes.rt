//! Notes on refused files and words, on failed devices, and on decks that give no verdict.
//!
//! `air_note` takes the place of the failed call and what failed. `cut_note` takes the byte at which a tape's last record begins, and the pieces of
//! the tape in hexadecimal digits. `deck_note`, `report_note` and `known_note` take a row, a kind of fault, and a record that is put after the file.
//! `known_note` is of a report whose deck is known.
//!
//! With a help of a few commands, `words_note` takes words that aren't a valid command, `no_text_note` nothing, and `command_help` the name of a
//! command. `silence_note` takes the word `script` if the deck's script is looked at.

use crate::files::Files;
use crate::player::words_of;
use air_base::NoMemory;
use air_base::limits::MOST_DECK_BYTES;
use case_lines::{BadCase, Parts, add_line, add_lines, first_part};
use fault_notes::{
    CutTape, air_note, command_help, deck_note, no_text_note, report_note, silence_note, words_note,
};
use item_catalog::{Deck, DeckFault, read_deck};
use std::alloc::Global;

/// A help of a few commands.
const HELP: &str = "airdisk: a help for cases

  airdisk plan DECK           print a program
  airdisk script DECK         run a script
  airdisk script DECK TAPE    the same, and write a tape
  airdisk drill SEED SIZE     make a deck
  airdisk seek TAPE ITEM FROM  find an item
  airdisk cast DECK PORT      air a deck
  airdisk --help, -h          print this
  airdisk help [COMMAND]      print this, or some of it

  AIRDISK_RATE=N airdisk cast DECK PORT    send N buckets a second

No more stands here.
";

/// The file, and after it the record, if one is spelled.
fn with_record(alloc: Global, file: &[u8], parts: &mut Parts<'_>) -> Result<Vec<u8>, NoMemory> {
    let mut text = Vec::from_slice(alloc, file)?;
    if parts.left() > 0 {
        text.extend_from_slice(&parts.text(alloc)?)?;
        text.push(b'\n')?;
    }
    Ok(text)
}

/// The deck of the text, or `None` if the text is refused.
fn deck_of(alloc: Global, text: &[u8]) -> Option<Deck> {
    if text.len() > MOST_DECK_BYTES {
        return None;
    }
    read_deck(alloc, text).ok()
}

/// The note on a tape that is fed by pieces, and is cut in the record that begins at a byte.
fn cut_note(alloc: Global, name: &str, parts: &mut Parts<'_>) -> Result<String, NoMemory> {
    let at = parts.number();
    let mut tape = CutTape::new();
    let mut rest = parts.rest();
    for _ in 0..rest.len() {
        if !rest.is_empty() {
            let (piece, more) = first_part(rest, b' ');
            tape.feed(&parts.decode(alloc, piece)?);
            rest = more;
        }
    }
    tape.note(alloc, name, at)
}

/// The note on a row of a file, or of the file with a record after it.
fn row_note(
    alloc: Global,
    files: &Files,
    name: &str,
    word: &[u8],
    parts: &mut Parts<'_>,
) -> Result<String, NoMemory> {
    let row = parts.narrow();
    let kind = parts.byte();
    match word {
        b"deck_note" => {
            let text = with_record(alloc, &files.deck, parts)?;
            deck_note(alloc, name, &text, DeckFault { row, kind })
        }
        b"known_note" => {
            let text = with_record(alloc, &files.tape, parts)?;
            let deck = deck_of(alloc, &files.deck);
            report_note(alloc, name, deck.as_ref(), &text, row, kind)
        }
        _ => {
            let text = with_record(alloc, &files.tape, parts)?;
            report_note(alloc, name, None, &text, row, kind)
        }
    }
}

/// The note on a failed mast or ear.
fn failure_note(alloc: Global, parts: &mut Parts<'_>) -> Result<String, NoMemory> {
    let at = parts.number();
    let failure = String::from_utf8_lossy(alloc, &parts.text(alloc)?)?;
    air_note(alloc, &failure, at)
}

/// The note that a deck gives no verdict, or `None`.
fn quiet_note(
    alloc: Global,
    files: &Files,
    name: &str,
    parts: &mut Parts<'_>,
) -> Result<Option<String>, NoMemory> {
    let by_script = parts.takes(b"script");
    match deck_of(alloc, &files.deck) {
        Some(deck) => silence_note(alloc, name, &deck, by_script),
        None => Ok(None),
    }
}

/// The lines of the help on a command, or `None`.
fn help_note(alloc: Global, parts: &mut Parts<'_>) -> Result<Option<String>, NoMemory> {
    let command = String::from_utf8_lossy(alloc, parts.next())?;
    command_help(alloc, HELP, &command)
}

/// The note on words that aren't a valid command.
fn form_note(alloc: Global, parts: &mut Parts<'_>) -> Result<String, NoMemory> {
    let words = words_of(alloc, parts)?;
    words_note(alloc, HELP, &words)
}

/// The note that the word asks for, or `None` if there is none or the word is unknown.
fn note_of(
    alloc: Global,
    files: &Files,
    word: &[u8],
    parts: &mut Parts<'_>,
) -> Result<Option<String>, NoMemory> {
    let name = String::from_utf8_lossy(alloc, &files.name)?;
    match word {
        b"air_note" => Ok(Some(failure_note(alloc, parts)?)),
        b"cut_note" => Ok(Some(cut_note(alloc, &name, parts)?)),
        b"words_note" => Ok(Some(form_note(alloc, parts)?)),
        b"no_text_note" => Ok(Some(no_text_note(alloc, HELP)?)),
        b"command_help" => help_note(alloc, parts),
        b"silence_note" => quiet_note(alloc, files, &name, parts),
        b"deck_note" | b"known_note" | b"report_note" => {
            Ok(Some(row_note(alloc, files, &name, word, parts)?))
        }
        _ => {
            parts.refuse(BadCase::NoSuchWord);
            Ok(None)
        }
    }
}

/// Adds the note that the word asks for.
pub fn add_note(
    alloc: Global,
    files: &Files,
    word: &[u8],
    parts: &mut Parts<'_>,
    came: &mut Vec<u8>,
) -> Result<(), NoMemory> {
    match note_of(alloc, files, word, parts)? {
        Some(note) => add_lines(b"", note.as_bytes(), came),
        None => add_line(b"none", &[], came),
    }
}
