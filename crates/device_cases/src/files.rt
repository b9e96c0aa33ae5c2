//! Files of the system, and what a shelf over files keeps of its last failure.
//!
//! A name is a part of a case: `2044*l.deck` is `l.deck` with 2,044 times `./` before it.

use crate::shelves::add_text;
use air_base::NoMemory;
use air_devices::FileShelf;
use case_lines::{Parts, first_part};
use std::alloc::Global;
use std::fs;
use std::os::unix::fs::symlink;
use std::rt::Files;

/// The name that the next part spells.
pub fn name_of(alloc: Global, parts: &mut Parts<'_>) -> Result<String, NoMemory> {
    let spelled = parts.next();
    let mut name = String::new(alloc);
    let (times, behind) = first_part(spelled, b'*');
    let mut rest = spelled;
    if times.len() < spelled.len() {
        rest = behind;
        for _ in 0..parts.number_of(times) {
            name.push_str("./")?;
        }
    }
    name.push_str(String::from_utf8_lossy(alloc, rest)?.as_str())?;
    Ok(name)
}

/// Makes a file or a link, or removes a file, and adds it if that failed.
pub fn change_files<R: Files>(
    rt: &R,
    alloc: Global,
    word: &[u8],
    parts: &mut Parts<'_>,
    came: &mut Vec<u8>,
) -> Result<(), NoMemory> {
    let name = name_of(alloc, parts)?;
    let name = name.as_str();
    let done = match word {
        b"file" => fs::write(rt, name, &parts.text(alloc)?),
        b"symlink" => symlink(rt, name, name_of(alloc, parts)?.as_str()),
        b"link" => fs::hard_link(rt, name, name_of(alloc, parts)?.as_str()),
        _ => fs::remove_file(rt, name),
    };
    match done {
        Ok(()) => Ok(()),
        Err(_) => add_text(b"failed", came),
    }
}

/// Adds what the shelf keeps of its last failure: what was done, the name, the error's kind, and all as a text. For a long name it adds the length.
pub fn add_kept<R: Files + Print + Drop>(
    alloc: Global,
    shelf: &FileShelf<R>,
    came: &mut Vec<u8>,
) -> Result<(), NoMemory> {
    let Some(failure) = shelf.last_failure() else {
        return add_text(b"nothing", came);
    };
    let (done, kind) = (failure.call(), failure.error().kind());
    let text = if failure.name().len() > 100 {
        format!(in alloc; "{done:?}|{} bytes|{kind:?}", failure.name().len())?
    } else {
        format!(in alloc; "{done:?}|{}|{kind:?}|{failure}", failure.name())?
    };
    add_text(text.as_str().as_bytes(), came)
}
