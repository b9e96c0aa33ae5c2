//! An ear that would answer again after its end, and a datagram that is one byte longer than the room for it.

ghost use Rattle.std.specs.Prelude.{◌<◌, None, Some, length};
ghost use Rattle.air_devices.specs.Ears.{Hears};
ghost use Rattle.air_devices.specs.Untold.{untold_ear};

use crate::sockets::{shelf_of, words_of};
use air_base::NoMemory;
use air_cli::air_main;
use air_devices::{Ear, Failed, Heard, MemMast, OpenGate};
use air_report::Status;
use std::alloc::Global;
use std::sync::Wait;
use std::test::Fail;
use std::thread::Threads;

/// Two items on one flat disk, one reader with one query.
const DECK: &[u8] = b"item,0,10,1\nitem,1,20,1\ndisk,2,1\nreader,0,0,1\nquery,0,0 1\n";

/// The bucket of item 0 in cycle 1.
const BUCKET_0: &[u8] = &[
    0x41, 0x44, 1, 1, 0, 0, 0, 2, 0, 0, 0, 1, 0, 0, 0, 0, 0, 0, 0, 0, 0, 0, 0, 10, 0, 0, 0, 0, 0,
    0, 0, 0,
];

/// The bucket of item 1 in cycle 1.
const BUCKET_1: &[u8] = &[
    0x41, 0x44, 1, 1, 0, 0, 0, 2, 0, 0, 0, 1, 0, 1, 0, 1, 0, 0, 0, 0, 0, 0, 0, 20, 0, 0, 0, 0, 0,
    0, 0, 0,
];

/// A datagram of 2,049 bytes.
const LONG: [u8; 2_049] = [0; 2_049];

/// An ear that gives these one after another, and the end for each empty one and after all. It counts how often it was asked, and what it gave first.
#[derive(Drop)]
struct TurningEar<'a> {
    port: Option<u16>,
    turns: &'a [&'a [u8]],
    asked: usize,
    first: Option<Heard>,
}

/// Copies as much of a bucket as there is room for to the front of the buffer.
fn fill(buf: &mut [u8], bytes: &[u8]) -> Heard
    requires { 0 < length buf.old }
    ensures { Hears None None buf.new result }
{
    let count = bytes.len().min(buf.len());
    if count == 0 {
        return Heard::Over;
    }
    buf[..count].copy_from_slice(&bytes[..count]);
    Heard::Bucket(count)
}

impl Ear for TurningEar<'_> {
    ghost state = { λ ear. untold_ear 0 ear.port };

    fn tune_in(&mut self, port: u16) -> Result<(), Failed> {
        self.port = Some(port);
        Ok(())
    }

    fn hear(&mut self, buf: &mut [u8]) -> Result<Heard, Failed> {
        let turn = match self.turns.get(self.asked) {
            Some(turn) => *turn,
            None => &[],
        };
        self.asked = self.asked.saturating_add(1);
        let heard = fill(buf, turn);
        if self.first.is_none() {
            self.first = Some(heard);
        }
        Ok(heard)
    }
}

/// How often the ear was asked, and what it gave first, if the deck's reader listens to it; nothing if another report is printed.
fn asked_and_first<R: Threads + Wait + Sync>(
    rt: &R,
    alloc: Global,
    turns: &[&[u8]],
    printed: &[u8],
) -> Result<Option<(usize, Option<Heard>)>, NoMemory> {
    let mut shelf = shelf_of(alloc, DECK)?;
    let words = words_of(alloc, "listen", "4000")?;
    let mut mast = MemMast::new(alloc, 0, Vec::new(alloc))?;
    let mut ear = TurningEar {
        port: None,
        turns,
        asked: 0,
        first: None,
    };
    let status = air_main(
        rt, alloc, &words, &mut shelf, &mut mast, &mut ear, &OpenGate,
    );
    if status != Status::Ok || shelf.printed() != printed {
        return Ok(None);
    }
    Ok(Some((ear.asked, ear.first)))
}

#[test]
fn the_first_end_is_the_end(rt: HostRuntime) -> Result<(), Fail> {
    let printed = b"unfinished,0,0,1,0@1=10\ncounts,0,1,0,0,0,0,0\n";
    let came = asked_and_first(&rt, rt.alloc(), &[BUCKET_0, &[], BUCKET_1], printed)?;
    assert_eq!(rt; came, Some((2, Some(Heard::Bucket(32)))));
    Ok(())
}

#[test]
fn the_first_2048_bytes_of_a_longer_datagram_are_heard(rt: HostRuntime) -> Result<(), Fail> {
    let printed = b"unfinished,0,0,1,\ncounts,0,0,0,0,1,0,0\n";
    let came = asked_and_first(&rt, rt.alloc(), &[&LONG], printed)?;
    assert_eq!(rt; came, Some((2, Some(Heard::Bucket(2_048)))));
    Ok(())
}
