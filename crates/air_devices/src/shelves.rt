//! The trait of a device that holds files and outputs by name, and takes printed text.
//!
//! A device form tells what it holds, or nothing. Each call changes one thing, and leaves all else unchanged. A call answers
//! `Failed` only if its own count went up, and otherwise leaves every count unchanged.

ghost use Rattle.std.specs.Prelude.{◌≡◌, ◌<◌, [], length, OnErr, OnOk};
ghost use Rattle.std.specs.Io.{ReadsAtMost};
ghost use Rattle.std.specs.Io.KnownBytes.{Appends, ReadConsumes};
ghost use Rattle.air_devices.specs.Counts.{TellsFailureIn, printing_of, reading_of, writing_of};
ghost use Rattle.air_devices.specs.Unchanged.{KeepsButLeft, KeepsButOutput, KeepsButPrinted};
ghost use Rattle.air_devices.specs.WhatIsTold.{AppendsBeginning, Becomes};
ghost use Rattle.air_devices.specs.Shelves.{ShelfState};

use std::error::Error;
use std::fmt;

/// The one refusal of a device.
#[derive(Clone, Copy, Debug, PartialEq, Eq)]
pub struct Failed;

impl fmt::Display for Failed {
    fn fmt<W: fmt::Write>(&self, f: &mut fmt::Formatter<W>) -> fmt::Result {
        f.write_str("the device failed")
    }
}

impl Error for Failed {}

/// Files that are read by name, outputs that are written by name, and text that is printed.
pub trait Shelf {
    /// What the shelf tells of what it holds, and how often its calls failed.
    ghost state: { Self → ShelfState };

    /// Makes the whole named file what is left to read of it.
    fn pick(&mut self, name: &str) -> Result<(), Failed>
        ensures picked { OnOk result ((state self.new).told.left name.now ≡ (state self.old).told.file name.now) }
        ensures refused { OnErr result ((state self.new).told.left name.now ≡ (state self.old).told.left name.now) }
        ensures rest { KeepsButLeft name.now (state self.old).told (state self.new).told }
        ensures cause { TellsFailureIn (reading_of name.now) (state self.old).faults (state self.new).faults result };

    /// Moves as many bytes as it answers from the beginning of what is left of the named file to the beginning of the buffer.
    /// The answer is 0 only if nothing is left, as before the file is first picked.
    fn read(&mut self, name: &str, buf: &mut [u8]) -> Result<usize, Failed>
        requires { 0 < length buf.old }
        ensures bound { ReadsAtMost result buf.new }
        ensures moved { ReadConsumes ((state self.old).told.left name.now) ((state self.new).told.left name.now) result buf.new }
        ensures refused { OnErr result ((state self.new).told.left name.now ≡ (state self.old).told.left name.now) }
        ensures rest { KeepsButLeft name.now (state self.old).told (state self.new).told }
        ensures cause { TellsFailureIn (reading_of name.now) (state self.old).faults (state self.new).faults result };

    /// Makes the named output empty.
    fn create(&mut self, name: &str) -> Result<(), Failed>
        ensures emptied { OnOk result (Becomes ((state self.old).told.output name.now) ((state self.new).told.output name.now) []) }
        ensures refused { OnErr result ((state self.new).told.output name.now ≡ (state self.old).told.output name.now) }
        ensures rest { KeepsButOutput name.now (state self.old).told (state self.new).told }
        ensures cause { TellsFailureIn (writing_of name.now) (state self.old).faults (state self.new).faults result };

    /// Adds all of the bytes to the named output. If it fails, the first of them may have been added.
    fn append(&mut self, name: &str, bytes: &[u8]) -> Result<(), Failed>
        ensures all { OnOk result (Appends ((state self.old).told.output name.now) ((state self.new).told.output name.now) bytes.now) }
        ensures part { OnErr result (AppendsBeginning ((state self.old).told.output name.now) ((state self.new).told.output name.now) bytes.now) }
        ensures rest { KeepsButOutput name.now (state self.old).told (state self.new).told }
        ensures cause { TellsFailureIn (writing_of name.now) (state self.old).faults (state self.new).faults result };

    /// Adds all of the bytes to what was printed. If it fails, the first of them may have been added.
    fn print(&mut self, bytes: &[u8]) -> Result<(), Failed>
        ensures all { OnOk result (Appends (state self.old).told.printed (state self.new).told.printed bytes.now) }
        ensures part { OnErr result (AppendsBeginning (state self.old).told.printed (state self.new).told.printed bytes.now) }
        ensures rest { KeepsButPrinted (state self.old).told (state self.new).told }
        ensures cause { TellsFailureIn printing_of (state self.old).faults (state self.new).faults result };
}
