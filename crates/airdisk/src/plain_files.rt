//! Plain files that are read again after a command has ended: what came through a pipe is gone.
//!
//! This module alone, of those that make notes, has the runtime's files and the shelf. The others get a `ReadsAgain`, which has no call that writes.

use air_base::limits::MOST_TAPE_BYTES;
use air_cli::{read_deck_file, read_runnable_deck};
use air_devices::{FileFailure, FileShelf, Shelf, read_file};
use chunk_program::Planned;
use fault_notes::CutTape;
use item_catalog::Deck;
use std::alloc::Global;
use std::fs;
use std::rt::Files;

/// The number of bytes of a tape that are read at once.
const PIECE_BYTES: usize = 1_048_576;

/// What notes are made from: plain files that are read again, and what the system said of a call that failed.
pub trait ReadsAgain {
    /// The size of a plain file in bytes, or `None` for anything else.
    fn size(&self, name: &str) -> Option<u64>;

    /// The bytes of a plain file, or `None` if it can't be read again.
    fn bytes(&mut self, alloc: Global, name: &str, limit: usize) -> Option<Vec<u8>>;

    /// A tape in a plain file, read piece by piece, or `None` if it can't be read again.
    fn tape(&mut self, alloc: Global, name: &str) -> Option<CutTape>;

    /// The deck in a plain file, or `None` if it can't be read again.
    fn deck(&mut self, alloc: Global, name: &str) -> Option<Deck>;

    /// What the system said of the last call that failed, or `None` if none failed.
    fn last_failure(&self) -> Option<&FileFailure>;
}

/// Plain files of the runtime, and the shelf of a command that has ended.
#[derive(Drop)]
pub struct PlainFiles<'a, R: Files + Print + Drop> {
    rt: &'a R,
    shelf: FileShelf<R>,
}

impl<'a, R: Files + Print + Drop> PlainFiles<'a, R> {
    /// The plain files that are read again over this shelf.
    pub fn new(rt: &'a R, shelf: FileShelf<R>) -> Self {
        PlainFiles { rt, shelf }
    }
}

impl<R: Files + Print + Drop> ReadsAgain for PlainFiles<'_, R> {
    fn size(&self, name: &str) -> Option<u64> {
        plain_size(self.rt, name)
    }

    fn bytes(&mut self, alloc: Global, name: &str, limit: usize) -> Option<Vec<u8>> {
        read_again(self.rt, alloc, &mut self.shelf, name, limit)
    }

    fn tape(&mut self, alloc: Global, name: &str) -> Option<CutTape> {
        tape_again(self.rt, alloc, &mut self.shelf, name)
    }

    fn deck(&mut self, alloc: Global, name: &str) -> Option<Deck> {
        deck_again(self.rt, alloc, &mut self.shelf, name)
    }

    fn last_failure(&self) -> Option<&FileFailure> {
        self.shelf.last_failure()
    }
}

/// The size of a plain file in bytes, or `None` for anything else.
fn plain_size<R: Files>(rt: &R, name: &str) -> Option<u64> {
    match fs::metadata(rt, name) {
        Ok(known) if known.is_file() => Some(known.len()),
        _ => None,
    }
}

/// The bytes of a plain file that is read again, or `None` if it can't be.
fn read_again<R: Files + Print + Drop>(
    rt: &R,
    alloc: Global,
    shelf: &mut FileShelf<R>,
    name: &str,
    limit: usize,
) -> Option<Vec<u8>> {
    let _size = plain_size(rt, name)?;
    read_file(alloc, shelf, name, limit).ok()
}

/// A tape that is read again from a plain file, piece by piece, or `None` if it can't be.
fn tape_again<R: Files + Print + Drop>(
    rt: &R,
    alloc: Global,
    shelf: &mut FileShelf<R>,
    name: &str,
) -> Option<CutTape> {
    let _size = plain_size(rt, name)?;
    shelf.pick(name).ok()?;
    let mut buffer = vec![in alloc; 0u8; PIECE_BYTES].ok()?;
    let piece = buffer.as_mut_slice();
    let mut tape = CutTape::new();
    let mut left = MOST_TAPE_BYTES;
    loop {
        let Ok(count) = shelf.read(name, piece) else {
            return None;
        };
        if count == 0 {
            return Some(tape);
        }
        tape.feed(&piece[..count]);
        left = left.checked_sub(count)?;
    }
}

/// A deck that is read again from a plain file, or `None` if it can't be.
fn deck_again<R: Files + Print + Drop>(
    rt: &R,
    alloc: Global,
    shelf: &mut FileShelf<R>,
    name: &str,
) -> Option<Deck> {
    let _size = plain_size(rt, name)?;
    read_deck_file(alloc, shelf, name).ok()
}

/// A deck that is read from a plain file, with its plans, or `None` if the deck can't be read or run.
pub fn runnable_again<R: Files + Print + Drop>(
    rt: &R,
    alloc: Global,
    files: R,
    name: &str,
) -> Option<Planned> {
    let _size = plain_size(rt, name)?;
    let mut shelf = FileShelf::new(files);
    read_runnable_deck(alloc, &mut shelf, name).ok()
}
