//! What is set for the next command only.
//!
//! `room`, `cut` and `flip` take a number, `fail` and `air_fail` numbers of calls, and `hears` the bytes of a datagram in hexadecimal digits. `each`
//! takes what is set in turn, and the first and the last number (`number_ranges`). `brief` takes nothing.

ghost use Rattle.std.specs.Prelude.{◌≤◌, length, All, IfOk};

use crate::number_ranges::{NumberRange, Target};
use air_base::NoMemory;
use case_lines::{BadCase, Parts};
use std::alloc::Global;

/// The room that a printed text, an output and a mast have if nothing else is set.
const ROOM: usize = 2_000;

/// The room; the calls of the shelf and those of the mast and the ear that fail; the byte at which the tape is cut; the one at which its highest bit
/// is changed; the line that is left out of the report; and the datagrams that wait for the ear.
#[derive(Drop)]
pub struct Settings {
    pub room: usize,
    pub fail: Vec<u64>,
    pub air_fail: Vec<u64>,
    pub cut: Option<usize>,
    pub flip: Option<usize>,
    pub line: Option<u64>,
    /// What is set in turn, once for each run of the command.
    pub each: Option<NumberRange>,
    heard: Vec<Vec<u8>>,
    /// Whether only what no schedule changes is written.
    pub brief: bool,
}

impl Settings {
    /// Nothing is set.
    pub fn new(alloc: Global) -> Settings {
        Settings {
            room: ROOM,
            fail: Vec::new(alloc),
            air_fail: Vec::new(alloc),
            cut: None,
            flip: None,
            line: None,
            each: None,
            heard: Vec::new(alloc),
            brief: false,
        }
    }

    /// Sets what the word says, and returns whether it sets something.
    pub fn set(
        &mut self,
        alloc: Global,
        word: &[u8],
        parts: &mut Parts<'_>,
    ) -> Result<bool, NoMemory> {
        match word {
            b"room" => self.room = parts.number() as usize,
            b"fail" => self.fail = parts.numbers(alloc)?,
            b"air_fail" => self.air_fail = parts.numbers(alloc)?,
            b"cut" => self.cut = Some(parts.number() as usize),
            b"flip" => self.flip = Some(parts.number() as usize),
            b"each" => self.each = Some(NumberRange::of(parts)),
            b"hears" => {
                if parts.left() == 0 {
                    parts.refuse(BadCase::Missing);
                }
                self.heard.push(parts.bytes(alloc)?)?;
            }
            b"brief" => self.brief = true,
            _ => return Ok(false),
        }
        Ok(true)
    }

    /// Sets the target to a number.
    pub fn set_to(&mut self, alloc: Global, what: Target, number: u64) -> Result<(), NoMemory> {
        let next = number.saturating_add(1);
        match what {
            Target::Fail => self.fail = Vec::from_slice(alloc, &[number])?,
            Target::Both => self.fail = Vec::from_slice(alloc, &[number, next])?,
            Target::AirFail => self.air_fail = Vec::from_slice(alloc, &[number])?,
            Target::Room => self.room = number as usize,
            Target::Cut => self.cut = Some(number as usize),
            Target::Flip => self.flip = Some(number as usize),
            Target::Line => self.line = Some(number),
        }
        Ok(())
    }

    /// The number of datagrams that wait.
    pub fn heard(&self) -> u64 {
        self.heard.len() as u64
    }

    /// The datagrams that have at least a byte.
    pub fn datagrams(&self, alloc: Global) -> Result<Vec<Vec<u8>>, NoMemory>
        ensures { IfOk result (λ all. All (λ bytes. 1 ≤ length bytes.items) all.items) }
    {
        let mut all = Vec::new(alloc);
        for bytes in &self.heard {
            if !bytes.is_empty() {
                all.push(bytes.clone()?)?;
            }
        }
        Ok(all)
    }
}
