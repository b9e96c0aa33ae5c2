//! Which files were read: each is identified by its device and its number there, under any name, link or path.
//!
//! There is room for sixteen, and no call takes memory.

ghost use Rattle.std.specs.Prelude.{◌≡◌, [], true, OnOk};
ghost use Rattle.air_devices.specs.ReadFiles.{is_among};

use arrayvec::ArrayVec;
use std::fs::OpenFile;
use std::io;
use std::os::unix::fs::MetadataExt;

/// The most files.
const MOST_FILES: usize = 16;

/// What identifies a file.
#[derive(Clone, Copy, Default)]
pub(crate) struct FileId {
    device: u64,
    inode: u64,
}

impl FileId {
    /// The identity of an open file.
    pub fn of<F: OpenFile>(file: &F) -> io::Result<FileId> {
        let known = file.metadata()?;
        Ok(FileId {
            device: known.dev(),
            inode: known.ino(),
        })
    }
}

/// The files that were read.
#[derive(Drop)]
pub(crate) struct ReadFiles {
    ids: ArrayVec<FileId, MOST_FILES>,
}

impl ReadFiles {
    /// No file was read yet.
    pub fn new() -> ReadFiles
        ensures { result.ids.items ≡ [] }
    {
        ReadFiles {
            ids: ArrayVec::new(),
        }
    }

    /// Whether this file was read.
    pub fn has(&self, id: FileId) -> bool
        ensures { result ≡ is_among id self.now.ids.items }
    {
        let mut read = self.ids.iter();
        read.any(|read| read.device == id.device && read.inode == id.inode)
    }

    /// Adds a file, if it isn't among them; it fails if there is no room.
    #[tactic(auto, using(crate::proofs::ReadFileLemmas::is_added, crate::proofs::ReadFileLemmas::stays_among))]
    pub fn add(&mut self, id: FileId) -> io::Result<()>
        ensures added { OnOk result (is_among id self.new.ids.items ≡ true) }
        ensures kept { (other : FileId) → is_among other self.old.ids.items ≡ true → is_among other self.new.ids.items ≡ true }
    {
        if self.has(id) {
            return Ok(());
        }
        match self.ids.try_push(id) {
            Ok(()) => Ok(()),
            Err(_) => Err(io::Error::other("too many files were read")),
        }
    }
}
