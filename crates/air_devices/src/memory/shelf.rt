//! A shelf in memory: it tells all that it holds, and fails at the calls that it is told to fail at.
//!
//! All memory is taken when it is made. Its calls are numbered together from 1, and a call whose number is listed fails. These
//! calls fail too: a pick of a name that no file has, a create or an append of a name that no output has, and a write past the
//! room, of which what fits is added.

ghost use Rattle.std.specs.Prelude.{◌≡◌, ◌<◌, ◌+◌, ◌-◌, ◌^◌, ◌++◌, ◌||◌, ◌↔◌, ℕ, List, [], Some, drop, length, map, min, position, take, IfOk, IfSome, IsErr, IsTrue, OnErr, OnOk};
ghost use Rattle.std.specs.Io.{ReadsAtMost};
ghost use Rattle.std.specs.Io.KnownBytes.{Appends, ReadConsumes};
ghost use Rattle.std.specs.Option.{is_none, option_map};
ghost use Rattle.air_devices.specs.Calls.{is_next_listed};
ghost use Rattle.air_devices.specs.Counts.{TellsFailureIn, printing_of, reading_of, writing_of};
ghost use Rattle.air_devices.specs.Unchanged.{KeepsButLeft, KeepsButOutput, KeepsButPrinted};
ghost use Rattle.air_devices.specs.WhatIsTold.{AppendsBeginning, Becomes};
ghost use Rattle.air_devices.specs.Memory.{IsNewShelf, MadeShelfCall, added_bytes, empty_output, faults_of, file_in, given_bytes, given_named, output_in, overflows_output, overflows_print, shelved_of, spells, told_by, unpicked_file};

use crate::memory::calls::Calls;
use crate::rooms::fixed_bytes::FixedBytes;
use crate::shelves::{Failed, Shelf};
use air_base::NoMemory;
use std::alloc::Global;

/// A file: its name, its bytes, and the place up to which it was read.
#[derive(Drop)]
struct MemFile {
    name: String,
    bytes: Vec<u8>,
    at: usize,
}

/// An output: its name, and what was written to it.
#[derive(Drop)]
struct MemOutput {
    name: String,
    written: FixedBytes,
}

/// Files and outputs by name, and printed text, all in memory.
#[derive(Drop)]
pub struct MemShelf {
    files: Vec<MemFile>,
    outputs: Vec<MemOutput>,
    printed: FixedBytes,
    calls: Calls,
}

impl MemShelf {
    /// A shelf with these files, an empty output under each of these names, and nothing printed. Each output has
    /// room for `room` bytes, and so has the printed text. The calls whose numbers are listed in `fail` fail.
    pub fn new(
        alloc: Global,
        files: Vec<(String, Vec<u8>)>,
        outputs: Vec<String>,
        room: usize,
        fail: Vec<u64>,
    ) -> Result<MemShelf, NoMemory>
        ensures told { IfOk result (λ s. (name : List ℕ) → (told_by s).file name ≡ Some (given_bytes (given_named name files.items))) }
        ensures left { IfOk result (λ s. (name : List ℕ) → (told_by s).left name ≡ Some []) }
        ensures empty { IfOk result (λ s. (name : List ℕ) → (told_by s).output name ≡ Some []) }
        ensures fresh { IfOk result (λ s. IsNewShelf files.items outputs.items room fail.items s) }
    {
        let files = unpicked_files(alloc, files)?;
        let outputs = empty_outputs(alloc, outputs, room)?;
        let printed = FixedBytes::new(alloc, room)?;
        Ok(MemShelf {
            files,
            outputs,
            printed,
            calls: Calls::new(fail),
        })
    }

    /// The bytes of the output of this name; None if and only if no output has the name.
    pub fn output(&self, name: &str) -> Option<&[u8]>
        ensures { option_map (λ bytes. bytes.now) result ≡ option_map (λ o. o.written.bytes) (output_in name.now self.now) }
    {
        let output = self.outputs.iter().find(|o| o.name.as_str() == name)?;
        Some(output.written.as_slice())
    }

    /// What was printed.
    pub fn printed(&self) -> &[u8]
        ensures { (told_by self.now).printed ≡ Some result.now }
    {
        self.printed.as_slice()
    }

    /// The place of the file of this name.
    fn file_place(&self, name: &str) -> Option<usize>
        ensures { result ≡ position (λ f. spells name.now f.name) self.now.files.items }
    {
        self.files.iter().position(|f| f.name.as_str() == name)
    }

    /// The place of the output of this name.
    fn output_place(&self, name: &str) -> Option<usize>
        ensures { result ≡ position (λ o. spells name.now o.name) self.now.outputs.items }
    {
        self.outputs.iter().position(|o| o.name.as_str() == name)
    }
}

impl Shelf for MemShelf {
    ghost state = { shelved_of };

    fn pick(&mut self, name: &str) -> Result<(), Failed>
        ensures fails { IsErr result ↔ IsTrue (is_next_listed self.old.calls || is_none (file_in name.now self.old)) }
        ensures call { MadeShelfCall self.old self.new }
        ensures picked { OnOk result ((told_by self.new).left name.now ≡ (told_by self.old).file name.now) }
        ensures refused { OnErr result ((told_by self.new).left name.now ≡ (told_by self.old).left name.now) }
        ensures rest { KeepsButLeft name.now (told_by self.old) (told_by self.new) }
        ensures cause { TellsFailureIn (reading_of name.now) (faults_of self.old) (faults_of self.new) result }
    {
        if self.calls.is_to_fail() {
            return Err(self.calls.fault());
        }
        let Some(place) = self.file_place(name) else {
            return Err(self.calls.fault());
        };
        self.files[place].at = 0;
        Ok(())
    }

    fn read(&mut self, name: &str, buf: &mut [u8]) -> Result<usize, Failed>
        ensures fails { IsErr result ↔ IsTrue (is_next_listed self.old.calls) }
        ensures call { MadeShelfCall self.old self.new }
        ensures bound { ReadsAtMost result buf.new }
        ensures moved { ReadConsumes ((told_by self.old).left name.now) ((told_by self.new).left name.now) result buf.new }
        ensures refused { OnErr result ((told_by self.new).left name.now ≡ (told_by self.old).left name.now) }
        ensures rest { KeepsButLeft name.now (told_by self.old) (told_by self.new) }
        ensures cause { TellsFailureIn (reading_of name.now) (faults_of self.old) (faults_of self.new) result }
    {
        if self.calls.is_to_fail() {
            return Err(self.calls.fault());
        }
        let Some(place) = self.file_place(name) else {
            return Ok(0);
        };
        let file = &mut self.files[place];
        let count = move_beginning(&file.bytes, file.at, buf);
        file.at += count;
        Ok(count)
    }

    fn create(&mut self, name: &str) -> Result<(), Failed>
        ensures fails { IsErr result ↔ IsTrue (is_next_listed self.old.calls || is_none (output_in name.now self.old)) }
        ensures call { MadeShelfCall self.old self.new }
        ensures emptied { OnOk result (Becomes ((told_by self.old).output name.now) ((told_by self.new).output name.now) []) }
        ensures refused { OnErr result ((told_by self.new).output name.now ≡ (told_by self.old).output name.now) }
        ensures rest { KeepsButOutput name.now (told_by self.old) (told_by self.new) }
        ensures cause { TellsFailureIn (writing_of name.now) (faults_of self.old) (faults_of self.new) result }
    {
        if self.calls.is_to_fail() {
            return Err(self.calls.fault());
        }
        let Some(place) = self.output_place(name) else {
            return Err(self.calls.fault());
        };
        self.outputs[place].written.clear();
        Ok(())
    }

    fn append(&mut self, name: &str, bytes: &[u8]) -> Result<(), Failed>
        ensures fails { IsErr result ↔ IsTrue (is_next_listed self.old.calls || overflows_output (output_in name.now self.old) bytes.now) }
        ensures call { MadeShelfCall self.old self.new }
        ensures fitting { IfSome (output_in name.now self.old) (λ o. (told_by self.new).output name.now ≡ Some (o.written.bytes ++ added_bytes self.old.calls o.written bytes.now)) }
        ensures all { OnOk result (Appends ((told_by self.old).output name.now) ((told_by self.new).output name.now) bytes.now) }
        ensures part { OnErr result (AppendsBeginning ((told_by self.old).output name.now) ((told_by self.new).output name.now) bytes.now) }
        ensures rest { KeepsButOutput name.now (told_by self.old) (told_by self.new) }
        ensures cause { TellsFailureIn (writing_of name.now) (faults_of self.old) (faults_of self.new) result }
    {
        if self.calls.is_to_fail() {
            return Err(self.calls.fault());
        }
        let Some(place) = self.output_place(name) else {
            return Err(self.calls.fault());
        };
        if !self.outputs[place].written.add(bytes) {
            return Err(self.calls.fault());
        }
        Ok(())
    }

    fn print(&mut self, bytes: &[u8]) -> Result<(), Failed>
        ensures fails { IsErr result ↔ IsTrue (is_next_listed self.old.calls || overflows_print self.old bytes.now) }
        ensures call { MadeShelfCall self.old self.new }
        ensures fitting { (told_by self.new).printed ≡ Some (self.old.printed.bytes ++ added_bytes self.old.calls self.old.printed bytes.now) }
        ensures all { OnOk result (Appends (told_by self.old).printed (told_by self.new).printed bytes.now) }
        ensures part { OnErr result (AppendsBeginning (told_by self.old).printed (told_by self.new).printed bytes.now) }
        ensures rest { KeepsButPrinted (told_by self.old) (told_by self.new) }
        ensures cause { TellsFailureIn printing_of (faults_of self.old) (faults_of self.new) result }
    {
        if self.calls.is_to_fail() || !self.printed.add(bytes) {
            return Err(self.calls.fault());
        }
        Ok(())
    }
}

/// Moves the beginning of what is left after a place to the beginning of the buffer, and gives the number of bytes.
fn move_beginning(bytes: &[u8], at: usize, buf: &mut [u8]) -> usize
    ensures count { result ≡ min (length bytes.now - at) (length buf.old) }
    ensures beginning { take result buf.new ≡ take result (drop at bytes.now) }
    ensures fits { at + result < 2 ^ 64 }
{
    if bytes.len() <= at {
        return 0;
    }
    let left = &bytes[at..];
    let count = left.len().min(buf.len());
    buf[..count].copy_from_slice(&left[..count]);
    count
}

/// These files, none of them picked.
fn unpicked_files(alloc: Global, files: Vec<(String, Vec<u8>)>) -> Result<Vec<MemFile>, NoMemory>
    ensures { IfOk result (λ v. v.items ≡ map unpicked_file files.items) }
{
    let mut shelved = Vec::new(alloc);
    for (name, bytes) in files {
        let at = bytes.len();
        shelved.push(MemFile { name, bytes, at })?;
    }
    Ok(shelved)
}

/// An empty output under each of these names, with room for this many bytes.
fn empty_outputs(alloc: Global, names: Vec<String>, room: usize) -> Result<Vec<MemOutput>, NoMemory>
    ensures { IfOk result (λ v. v.items ≡ map (empty_output room) names.items) }
{
    let mut outputs = Vec::new(alloc);
    for name in names {
        let written = FixedBytes::new(alloc, room)?;
        outputs.push(MemOutput { name, written })?;
    }
    Ok(outputs)
}
