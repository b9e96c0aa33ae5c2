//! A shelf over real files and standard output.
//!
//! It tells nothing of what it holds, since no contract can say what a file keeps. It has one number for all of its counts, and
//! keeps what the system said of the last failure. It reads on in the file that was picked last; under any other name it reads
//! nothing. No output of it changes a file that it has read, under any name: such an output is refused before it is touched. An output
//! is opened anew for each append. It has room for sixteen such files, and for names of 4,096 bytes; a pick past either limit fails. No call takes memory.

ghost use Rattle.std.specs.Prelude.{◌≡◌, ◌≢◌, ◌≤◌, ◌<◌, [], None, Ok, Some, true, length, IsErr, IsSome, OnErr, OnOk};
ghost use Rattle.std.specs.Io.{ReadsAtMost};
ghost use Rattle.std.specs.Option.{option_map};
ghost use Rattle.air_devices.specs.Counts.{Rose, TellsFailureIn, one_count, printing_of, reading_of, writing_of};
ghost use Rattle.air_devices.specs.FileFailures.{IsLastFailure, KeepsLast};
ghost use Rattle.air_devices.specs.ReadFiles.{is_among};
ghost use Rattle.air_devices.specs.Shelves.{untold_with};

use crate::reading::read_files::{FileId, ReadFiles};
use crate::shelves::{Failed, Shelf};
use crate::system::file_failures::{FileCall, FileFailure, NAME_ROOM};
use arrayvec::ArrayString;
use std::fs::{self, OpenFile, OpenOptions};
use std::io::{self, Read, Write};
use std::rt::Files;

/// Files by their paths, and standard output.
#[derive(Drop)]
pub struct FileShelf<R: Files + Print + Drop> {
    rt: R,
    picked: Option<R::File>,
    name: ArrayString<NAME_ROOM>,
    read: ReadFiles,
    faults: u64,
    last: Option<FileFailure>,
}

impl<R: Files + Print + Drop> FileShelf<R> {
    /// A shelf that has picked no file, over the runtime's files and output.
    pub fn new(rt: R) -> Self
        ensures counts { result.faults ≡ 0 }
        ensures picked { result.picked ≡ None }
        ensures last { result.last ≡ None }
    {
        FileShelf {
            rt,
            picked: None,
            name: ArrayString::new(),
            read: ReadFiles::new(),
            faults: 0,
            last: None,
        }
    }

    /// What the system said of the last call that failed; None if none failed.
    pub fn last_failure(&self) -> Option<&FileFailure>
        ensures { option_map (λ failure. failure.now) result ≡ self.now.last }
    {
        self.last.as_ref()
    }

    /// Counts a failure, and keeps what the system said.
    fn fault(&mut self, call: FileCall, name: &str, error: io::Error) -> Failed
        ensures rose { Rose self.old.faults self.new.faults }
        ensures later { self.old.faults ≤ self.new.faults }
        ensures last { IsLastFailure call name.now self.new.last }
        ensures error { option_map (λ failure. failure.error) self.new.last ≡ Some error }
        ensures rest { self.new ≡ record self.old { faults = self.new.faults; last = self.new.last } }
    {
        self.faults = self.faults.saturating_add(1);
        self.last = Some(FileFailure::new(call, name, error));
        Failed
    }

    /// If there is room for one more file that was read, this file becomes one, and is from now on the one that is picked, by
    /// this name.
    fn set_picked(&mut self, file: R::File, id: FileId, name: &str) -> io::Result<()>
        requires { length name.now ≤ NAME_ROOM }
        ensures picked { OnOk result (self.new.picked ≡ Some file) }
        ensures named { OnOk result (self.new.name.bytes ≡ name.now) }
        ensures added { OnOk result (is_among id self.new.read.ids.items ≡ true) }
        ensures stays { (other : FileId) → is_among other self.old.read.ids.items ≡ true → is_among other self.new.read.ids.items ≡ true }
        ensures kept { OnErr result ((self.new.picked ≡ self.old.picked) × (self.new.name ≡ self.old.name)) }
        ensures rest { self.new ≡ record self.old { picked = self.new.picked; name = self.new.name; read = self.new.read } }
    {
        self.read.add(id)?;
        self.picked = Some(file);
        self.name.clear();
        self.name.push_str(name);
        Ok(())
    }

    /// Opens a file and picks it, and remembers which file it is.
    fn open_to_read(&mut self, name: &str) -> io::Result<()>
        ensures picked { OnOk result (IsSome self.new.picked) }
        ensures named { OnOk result (self.new.name.bytes ≡ name.now) }
        ensures stays { (id : FileId) → is_among id self.old.read.ids.items ≡ true → is_among id self.new.read.ids.items ≡ true }
        ensures kept { OnErr result ((self.new.picked ≡ self.old.picked) × (self.new.name ≡ self.old.name)) }
        ensures rest { self.new ≡ record self.old { picked = self.new.picked; name = self.new.name; read = self.new.read } }
    {
        let file = fs::open(&self.rt, name)?;
        if name.len() > NAME_ROOM {
            return Err(io::Error::from(io::ErrorKind::InvalidFilename));
        }
        let id = FileId::of(&file)?;
        self.set_picked(file, id, name)
    }

    /// Reads on in the file that was picked last, if it has this name; it reads nothing before any file was picked.
    fn read_picked(&mut self, name: &str, buf: &mut [u8]) -> io::Result<usize>
        requires { 0 < length buf.old }
        ensures bound { ReadsAtMost result buf.new }
        ensures unpicked { self.old.picked ≡ None → (result ≡ Ok 0) × (self.new.picked ≡ None) }
        ensures other { IsSome self.old.picked → self.old.name.bytes ≢ name.now → IsErr result }
        ensures picked { IsSome self.old.picked → IsSome self.new.picked }
        ensures rest { self.new ≡ record self.old { picked = self.new.picked } }
    {
        let Some(file) = &mut self.picked else {
            return Ok(0);
        };
        if self.name.as_str() != name {
            return Err(io::Error::other("another file was opened last"));
        }
        file.read(buf)
    }

    /// Opens an output, which must not be a file that was read. The output is unchanged, or new.
    fn open_to_write(&self, how: &OpenOptions, name: &str) -> io::Result<R::File> {
        let file = how.open(&self.rt, name)?;
        if self.read.has(FileId::of(&file)?) {
            return Err(io::Error::other("it is a file that was read"));
        }
        Ok(file)
    }

    /// Makes an output empty. An output that is no plain file, such as a pipe or a device, holds nothing.
    fn empty_output(&self, name: &str) -> io::Result<()> {
        let file = self.open_to_write(OpenOptions::new().write(true).create(true), name)?;
        if file.metadata()?.is_file() {
            file.set_len(0)?;
        }
        Ok(())
    }

    /// Writes after what an output holds.
    fn add_to_output(&self, name: &str, bytes: &[u8]) -> io::Result<()> {
        let mut file = self.open_to_write(OpenOptions::new().append(true), name)?;
        file.write_all(bytes)
    }
}

impl<R: Files + Print + Drop> Shelf for FileShelf<R> {
    ghost state = { λ shelf. untold_with shelf.faults };

    fn pick(&mut self, name: &str) -> Result<(), Failed>
        ensures picked { OnOk result (IsSome self.new.picked) }
        ensures named { OnOk result (self.new.name.bytes ≡ name.now) }
        ensures stays { (id : FileId) → is_among id self.old.read.ids.items ≡ true → is_among id self.new.read.ids.items ≡ true }
        ensures kept { OnErr result ((self.new.picked ≡ self.old.picked) × (self.new.name ≡ self.old.name)) }
        ensures cause { TellsFailureIn (reading_of name.now) (one_count self.old.faults) (one_count self.new.faults) result }
        ensures last { KeepsLast FileCall.Pick name.now self.old.last self.new.last result }
    {
        match self.open_to_read(name) {
            Ok(()) => Ok(()),
            Err(error) => Err(self.fault(FileCall::Pick, name, error)),
        }
    }

    fn read(&mut self, name: &str, buf: &mut [u8]) -> Result<usize, Failed>
        requires { 0 < length buf.old }
        ensures bound { ReadsAtMost result buf.new }
        ensures unpicked { self.old.picked ≡ None → (result ≡ Ok 0) × (self.new.picked ≡ None) }
        ensures other { IsSome self.old.picked → self.old.name.bytes ≢ name.now → IsErr result }
        ensures cause { TellsFailureIn (reading_of name.now) (one_count self.old.faults) (one_count self.new.faults) result }
        ensures last { KeepsLast FileCall.Read name.now self.old.last self.new.last result }
        ensures picked { IsSome self.old.picked → IsSome self.new.picked }
        ensures rest { self.new ≡ record self.old { picked = self.new.picked; faults = self.new.faults; last = self.new.last } }
    {
        match self.read_picked(name, buf) {
            Ok(count) => Ok(count),
            Err(error) => Err(self.fault(FileCall::Read, name, error)),
        }
    }

    fn create(&mut self, name: &str) -> Result<(), Failed>
        ensures cause { TellsFailureIn (writing_of name.now) (one_count self.old.faults) (one_count self.new.faults) result }
        ensures last { KeepsLast FileCall.Create name.now self.old.last self.new.last result }
        ensures rest { self.new ≡ record self.old { faults = self.new.faults; last = self.new.last } }
    {
        match self.empty_output(name) {
            Ok(()) => Ok(()),
            Err(error) => Err(self.fault(FileCall::Create, name, error)),
        }
    }

    fn append(&mut self, name: &str, bytes: &[u8]) -> Result<(), Failed>
        ensures cause { TellsFailureIn (writing_of name.now) (one_count self.old.faults) (one_count self.new.faults) result }
        ensures last { KeepsLast FileCall.Append name.now self.old.last self.new.last result }
        ensures rest { self.new ≡ record self.old { faults = self.new.faults; last = self.new.last } }
    {
        match self.add_to_output(name, bytes) {
            Ok(()) => Ok(()),
            Err(error) => Err(self.fault(FileCall::Append, name, error)),
        }
    }

    fn print(&mut self, bytes: &[u8]) -> Result<(), Failed>
        ensures cause { TellsFailureIn printing_of (one_count self.old.faults) (one_count self.new.faults) result }
        ensures last { KeepsLast FileCall.Print [] self.old.last self.new.last result }
        ensures rest { self.new ≡ record self.old { faults = self.new.faults; last = self.new.last } }
    {
        match io::writer(&self.rt).write_all(bytes) {
            Ok(()) => Ok(()),
            Err(error) => Err(self.fault(FileCall::Print, "", error)),
        }
    }
}
