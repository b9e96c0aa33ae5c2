//! The words of a case.
//!
//! | word | what it is about |
//! |---|---|
//! | `shelf` | a new shelf in memory: its room, and the numbers of the calls that fail |
//! | `files`, `broken` | a new shelf over files; one over a system of which every call fails |
//! | `pick`, `read`, `whole`, `create`, `append`, `print` | a call of the shelf: a name, and the bytes or the limit; a read has room for four bytes |
//! | `held` | what the shelf in memory holds, or what the other two keep of their last failure |
//! | `file`, `symlink`, `link`, `remove` | a file of the system, with its bytes; a link to a file, by its name; a file that goes |
//! | `mast`, `aim`, `send`, `sent` | a mast in memory, its calls, and what was sent; a send without bytes is the end |
//! | `ear` | an ear in memory, which is tuned in and hears: how often, the calls that fail (with `,` between them, or `-`), and the buckets that wait |
//! | `room`, `add` | a tape in a room of fixed size, and a record |
//! | `system` | what a mast and an ear over a failing system say; what refusals print |

use crate::broken::BrokenSystem;
use crate::ears::{hear_broken, play_ear};
use crate::files::{add_kept, change_files, name_of};
use crate::masts::{add_record, add_sent, new_mast, send, send_broken};
use crate::shelves::{add_done, add_held, add_refusals, new_shelf, play_call};
use air_base::NoMemory;
use air_devices::{FileShelf, Mast, MemMast, MemShelf, TapeRoom};
use case_lines::{BadCase, Parts, Player};
use std::alloc::Global;
use std::rt::Files;

/// The shelf whose calls are played.
#[derive(Drop)]
pub enum ShelfInUse {
    /// One in memory.
    Memory(MemShelf),
    /// The one over files.
    Files,
    /// The one over a failing system.
    Broken,
}

/// The devices, as the cases before left them.
#[derive(Drop)]
pub struct Devices<R: Files + Print + Clone + Drop> {
    pub rt: R,
    pub held: ShelfInUse,
    pub files: FileShelf<R>,
    pub broken: FileShelf<BrokenSystem>,
    pub mast: MemMast,
    pub tape: TapeRoom,
}

impl<R: Files + Print + Clone + Drop> Devices<R> {
    /// Plays a call of the current shelf.
    fn play_shelf(
        &mut self,
        alloc: Global,
        call: &[u8],
        parts: &mut Parts<'_>,
        came: &mut Vec<u8>,
    ) -> Result<(), NoMemory> {
        let name = name_of(alloc, parts)?;
        let name = name.as_str();
        match &mut self.held {
            ShelfInUse::Memory(shelf) => play_call(alloc, shelf, call, name, parts, came),
            ShelfInUse::Files => play_call(alloc, &mut self.files, call, name, parts, came),
            ShelfInUse::Broken => play_call(alloc, &mut self.broken, call, name, parts, came),
        }
    }

    /// Adds what the current shelf holds, or keeps of its last failure.
    fn add_shelf(&self, alloc: Global, came: &mut Vec<u8>) -> Result<(), NoMemory> {
        match &self.held {
            ShelfInUse::Memory(shelf) => add_held(shelf, came),
            ShelfInUse::Files => add_kept(alloc, &self.files, came),
            ShelfInUse::Broken => add_kept(alloc, &self.broken, came),
        }
    }

    /// Makes a shelf over files.
    fn make_files(&mut self) {
        if let Ok(rt) = self.rt.clone() {
            self.files = FileShelf::new(rt);
            self.held = ShelfInUse::Files;
        }
    }
}

/// Adds what a failing system says.
fn tell_system(alloc: Global, came: &mut Vec<u8>) -> Result<(), NoMemory> {
    send_broken(alloc, came)?;
    hear_broken(alloc, came)?;
    add_refusals(alloc, came)
}

impl<R: Files + Print + Clone + Drop> Player for Devices<R> {
    fn play(
        &mut self,
        alloc: Global,
        word: &[u8],
        parts: &mut Parts<'_>,
        came: &mut Vec<u8>,
    ) -> Result<(), NoMemory> {
        match word {
            b"shelf" => self.held = ShelfInUse::Memory(new_shelf(alloc, parts)?),
            b"files" => self.make_files(),
            b"broken" => self.held = ShelfInUse::Broken,
            b"pick" | b"read" | b"whole" | b"create" | b"append" | b"print" => {
                self.play_shelf(alloc, word, parts, came)?;
            }
            b"held" => self.add_shelf(alloc, came)?,
            b"file" | b"symlink" | b"link" | b"remove" => {
                change_files(&self.rt, alloc, word, parts, came)?;
            }
            b"mast" => self.mast = new_mast(alloc, parts)?,
            b"aim" => add_done(self.mast.aim(4000), came)?,
            b"send" => send(alloc, &mut self.mast, parts, came)?,
            b"sent" => add_sent(&self.mast, came)?,
            b"ear" => play_ear(alloc, parts, came)?,
            b"room" => self.tape = TapeRoom::new(alloc, parts.number() as usize)?,
            b"add" => add_record(alloc, &mut self.tape, parts, came)?,
            b"system" => tell_system(alloc, came)?,
            _ => parts.refuse(BadCase::NoSuchWord),
        }
        Ok(())
    }
}
