//! A queued push with room for its bytes, and the queue: the last `KEPT` pushes by their places modulo `KEPT`.

ghost use Rattle.std.specs.Prelude.{◌≡◌, ◌≤◌, ◌==◌, ◌++◌, drop, length, All, IfOk};
ghost use Rattle.air_ether.specs.KeptPushes.{push_of, times_due};

use crate::odds::Hearing;
use air_base::NoMemory;
use std::alloc::Global;

/// Puts the bytes at the beginning of the room.
fn put_at_start(room: &mut [u8], bytes: &[u8])
    requires { length bytes.now ≤ length room.old }
    ensures { room.new ≡ bytes.now ++ drop (length bytes.now) room.old }
{
    room[..bytes.len()].copy_from_slice(bytes);
}

/// How many pushes are kept: those that may still be heard directly after a push.
pub const KEPT: u64 = 9;

/// A queued push: its due number, how often it is heard, and its bytes at the beginning of `room`.
#[derive(Drop)]
pub struct QueuedPush {
    pub due: u64,
    pub times: u32,
    pub len: usize,
    pub room: Vec<u8>,
}

impl QueuedPush {
    /// Room for `most` bytes, with nothing in it.
    fn blank(alloc: Global, most: usize) -> Result<QueuedPush, NoMemory>
        ensures { IfOk result (λ w. (length w.room.items ≡ most) × (w.len ≡ 0) × (w.times ≡ 0)) }
    {
        Ok(QueuedPush {
            due: 0,
            times: 0,
            len: 0,
            room: vec![in alloc; 0; most]?,
        })
    }

    /// How often the push is heard at a due number.
    pub fn times_due(&self, number: u64) -> u32
        ensures { result ≡ times_due (push_of self.now) number }
    {
        if self.due == number { self.times } else { 0 }
    }

    /// Puts a push in place of the one that was here.
    pub fn fill(&mut self, hearing: Hearing, bytes: &[u8])
        requires { length bytes.now ≤ length self.old.room.items }
        ensures value { push_of self.new ≡ record { due = hearing.due; times = hearing.times; bytes = bytes.now } }
        ensures len { self.new.len ≡ length bytes.now }
        ensures room { length self.new.room.items ≡ length self.old.room.items }
    {
        self.due = hearing.due;
        self.times = hearing.times;
        self.len = bytes.len();
        put_at_start(&mut self.room, bytes);
    }

    /// The bytes of the push.
    pub fn bytes(&self) -> &[u8]
        requires { self.now.len ≤ length self.now.room.items }
        ensures { result.now ≡ (push_of self.now).bytes }
    {
        &self.room[..self.len]
    }
}

/// A queue of `KEPT` pushes, each with room for `most` bytes.
pub fn queue(alloc: Global, most: usize) -> Result<Vec<QueuedPush>, NoMemory>
    ensures count { IfOk result (λ v. length v.items ≡ KEPT) }
    ensures sized { IfOk result (λ v. All (λ w. length w.room.items ≡ most) v.items) }
    ensures blank { IfOk result (λ v. All (λ w. (w.len ≡ 0) × (w.times ≡ 0)) v.items) }
{
    let mut queue = Vec::new(alloc);
    for _ in 0..KEPT {
        queue.push(QueuedPush::blank(alloc, most)?)?;
    }
    Ok(queue)
}
