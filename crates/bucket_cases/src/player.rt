//! The words of the cases.
//!
//! `bucket`, `encoded` and `tape` set the bytes that `edited` and `fronts` read again, and `record` adds one to a tape. `cache` makes the copies that
//! `keep`, `drop`, `reorder` and `kept` are about. `row` and `other` set the rows of `encoded`, `greater`, `stamped`, `find` and `find_all`. `ether`
//! and `words` draw from a seed.

use crate::buckets::{edited, read_bucket};
use crate::columns::encoded;
use crate::copies::{Copies, new_copies};
use crate::ethers::{ether, words};
use crate::lanes::{find, find_all, greater, stamped};
use crate::rows::row;
use crate::tapes::{read_fronts, read_tape, write_record};
use air_base::NoMemory;
use case_lines::{BadCase, Parts, Player};
use std::alloc::Global;

/// The bytes of the last bucket or tape, the last two rows, and the last cache.
#[derive(Drop)]
pub struct Cases {
    pub bytes: Vec<u8>,
    pub row: Vec<u32>,
    pub other: Vec<u32>,
    pub copies: Option<Copies>,
}

impl Player for Cases {
    fn play(
        &mut self,
        alloc: Global,
        word: &[u8],
        parts: &mut Parts<'_>,
        came: &mut Vec<u8>,
    ) -> Result<(), NoMemory> {
        match word {
            b"bucket" => {
                self.bytes = parts.bytes(alloc)?;
                read_bucket(alloc, &self.bytes, came)?;
            }
            b"edited" => edited(alloc, &self.bytes, parts, came)?,
            b"encoded" => encoded(alloc, &self.row, parts, &mut self.bytes, came)?,
            b"record" => write_record(alloc, parts, &mut self.bytes, came)?,
            b"tape" => {
                self.bytes = parts.bytes(alloc)?;
                came.extend_from_slice(b"answers")?;
                read_tape(alloc, &self.bytes, came)?;
            }
            b"fronts" => read_fronts(alloc, &self.bytes, came)?,
            b"ether" => ether(alloc, parts, came)?,
            b"words" => words(parts, came)?,
            b"row" => self.row = row(alloc, parts)?,
            b"other" => self.other = row(alloc, parts)?,
            b"greater" => greater(alloc, &self.row, &self.other, parts, came)?,
            b"stamped" => stamped(alloc, &self.row, &self.other, parts, came)?,
            b"find" => find(&self.row, &self.other, parts, came)?,
            b"find_all" => find_all(&mut self.row, &self.other, came)?,
            b"cache" => self.copies = new_copies(alloc, parts)?,
            _ => match &mut self.copies {
                Some(copies) => copies.call(alloc, word, parts, came)?,
                None => parts.refuse(BadCase::NoCall),
            },
        }
        Ok(())
    }
}
