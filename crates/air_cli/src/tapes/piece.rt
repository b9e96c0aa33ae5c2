//! The piece of a tape that is in memory: one buffer, which is used again for each.
//!
//! Contracts see the bytes that were read and not dropped, and the room. If a record is longer than the buffer, so that there is no room for
//! one byte more, the buffer is made longer.

ghost use Rattle.std.specs.Prelude.{◌≡◌, ◌≤◌, ◌<◌, ◌+◌, ◌-◌, [], drop, length, take, vec_len, IfOk, OnOk};
ghost use Rattle.air_devices.specs.Counts.{TellsFailureIn, reading_of};
ghost use Rattle.air_devices.specs.Unchanged.{KeepsButLeft};
ghost use Rattle.air_cli.specs.Private.Pieces.{HasCome};

use air_base::NoMemory;
use air_devices::{Failed, Shelf};
use std::alloc::Global;
use std::marker::Model;

/// The bytes of a tape that were read and not dropped.
#[derive(Drop)]
pub(crate) struct Piece {
    buffer: Vec<u8>,
    len: usize,
}

impl Model for Piece {
    ghost use Rattle.std.specs.Prelude.{◌≤◌, length, take};
    ghost use Rattle.air_cli.specs.Private.Pieces.{PieceBytes};

    ghost Value = { PieceBytes };

    ghost view = { λ p. record { bytes = take p.len p.buffer.items; room = length p.buffer.items } };

    ghost invariant = { λ p. p.len ≤ length p.buffer.items };
}

impl Piece {
    /// No bytes, with room for some.
    pub fn new(alloc: Global, room: usize) -> Result<Piece, NoMemory>
        ensures empty { IfOk result (λ p. p.bytes ≡ []) }
        ensures room { IfOk result (λ p. length p.bytes < p.room) }
    {
        let buffer = vec![in alloc; 0; room.max(1)]?;
        Ok(Piece { buffer, len: 0 })
    }

    /// The bytes.
    pub fn as_slice(&self) -> &[u8]
        ensures { result.now ≡ self.now.bytes }
    {
        &self.buffer[..self.len]
    }

    /// Reads more of the named file, up to `most` bytes and one, and adds it after what is here. Nothing is added only at the end of
    /// the file.
    pub fn read<S: Shelf>(
        &mut self,
        shelf: &mut S,
        name: &str,
        most: usize,
    ) -> Result<usize, Failed>
        requires { length self.old.bytes < self.old.room }
        ensures bound { IfOk result (λ n. n ≤ most + 1) }
        ensures moved { IfOk result (λ n. HasCome n self.old.bytes self.new.bytes ((S.state shelf.old).told.left name.now) ((S.state shelf.new).told.left name.now)) }
        ensures rest { KeepsButLeft name.now (S.state shelf.old).told (S.state shelf.new).told }
        ensures cause { TellsFailureIn (reading_of name.now) (S.state shelf.old).faults (S.state shelf.new).faults result }
    {
        let count = read_behind(shelf, name, &mut self.buffer, self.len, most)?;
        self.len += count;
        Ok(count)
    }

    /// Lets the first bytes go, and sees that there is room for one more.
    pub fn let_go(&mut self, count: usize) -> Result<(), NoMemory>
        requires { count ≤ length self.old.bytes }
        ensures rest { OnOk result (self.new.bytes ≡ drop count self.old.bytes) }
        ensures room { OnOk result (length self.new.bytes < self.new.room) }
    {
        shift_down(&mut self.buffer, count, self.len);
        self.len -= count;
        if self.len == self.buffer.len() {
            lengthen(&mut self.buffer)?;
        }
        Ok(())
    }
}

/// Reads on in the named file, up to `most` bytes and one, into what follows the first bytes of a buffer.
fn read_behind<S: Shelf>(
    shelf: &mut S,
    name: &str,
    buffer: &mut [u8],
    len: usize,
    most: usize,
) -> Result<usize, Failed>
    requires { len < length buffer.old }
    ensures bound { IfOk result (λ n. n ≤ most + 1) }
    ensures within { IfOk result (λ n. len + n ≤ length buffer.old) }
    ensures moved { IfOk result (λ n. HasCome n (take len buffer.old) (take (len + n) buffer.new) ((S.state shelf.old).told.left name.now) ((S.state shelf.new).told.left name.now)) }
    ensures rest { KeepsButLeft name.now (S.state shelf.old).told (S.state shelf.new).told }
    ensures cause { TellsFailureIn (reading_of name.now) (S.state shelf.old).faults (S.state shelf.new).faults result }
{
    let want = (buffer.len() - len - 1).min(most) + 1;
    shelf.read(name, &mut buffer[len..len + want])
}

/// Moves the bytes between two places to the beginning.
fn shift_down(buffer: &mut Vec<u8>, from: usize, to: usize)
    requires order { from ≤ to }
    requires within { to ≤ vec_len buffer.old }
    ensures len { vec_len buffer.new ≡ vec_len buffer.old }
    ensures moved { take (to - from) buffer.new.items ≡ drop from (take to buffer.old.items) }
{
    if from > 0 {
        buffer.copy_within(from..to, 0);
    }
}

/// Makes a buffer twice as long, and one byte more.
fn lengthen(buffer: &mut Vec<u8>) -> Result<(), NoMemory>
    ensures kept { take (vec_len buffer.old) buffer.new.items ≡ buffer.old.items }
    ensures longer { OnOk result (vec_len buffer.old < vec_len buffer.new) }
{
    let len = buffer.len();
    buffer.resize(2 * len + 1, 0)?;
    Ok(())
}
