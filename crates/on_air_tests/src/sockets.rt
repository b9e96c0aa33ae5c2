//! The commands `cast` and `listen` at once, over real sockets of this machine: both end, and the listener's reader has heard what was cast.
//!
//! The cast begins when the listener is tuned in. It sends two buckets and the end, fewer bytes than a socket keeps until they are heard. So here no
//! datagram is lost.

ghost use Rattle.std.specs.Prelude.{◌≡◌, ◌<◌, None};
ghost use Rattle.std.specs.Thread.{IsSync};
ghost use Rattle.air_devices.specs.Masts.{nothing_sent};
ghost use Rattle.air_devices.specs.WhatIsTold.{WhereTold};

use air_base::NoMemory;
use air_cli::air_main;
use air_devices::{Ear, Failed, Heard, Mast, MemEar, MemMast, MemShelf, OpenGate, UdpEar, UdpMast};
use air_report::Status;
use std::alloc::Global;
use std::io;
use std::net::{Net, SocketAddr, UdpSocket};
use std::sync::Wait;
use std::sync::atomic::{AtomicU64, Ordering};
use std::test::Fail;
use std::thread::{self, Threads, join_mut};

/// Two items on one flat disk, one reader with one query, one cycle.
const DECK: &[u8] = b"item,0,10,1\nitem,1,20,1\ndisk,2,1\nreader,0,0,1\nquery,0,0 1\n\
    set,cycles,1\n";

/// The listener's report: its reader opened the two buckets of the cycle, and so has read both items, with their values in the deck.
const REPORT: &[u8] = b"accept,0,0,1,0@1=10 1@1=20\ncounts,0,2,0,0,0,0,0\n";

/// The greatest number of times that the cast looks whether the listener is tuned in.
const TURNS: u64 = 1_000_000_000;

/// A shelf with this deck.
pub fn shelf_of(alloc: Global, deck: &[u8]) -> Result<MemShelf, NoMemory> {
    let mut files = Vec::new(alloc);
    files.push((
        String::from_str(alloc, "deck")?,
        Vec::from_slice(alloc, deck)?,
    ))?;
    MemShelf::new(alloc, files, Vec::new(alloc), 2_000, Vec::new(alloc))
}

/// The words of a command over the deck and a port.
pub fn words_of(alloc: Global, name: &str, port: &str) -> Result<Vec<String>, NoMemory> {
    let mut words = Vec::new(alloc);
    words.push(String::from_str(alloc, name)?)?;
    words.push(String::from_str(alloc, "deck")?)?;
    words.push(String::from_str(alloc, port)?)?;
    Ok(words)
}

/// A port of this machine.
fn loopback(port: u16) -> SocketAddr {
    SocketAddr::from(([127, 0, 0, 1], port))
}

/// A free port: that of a socket that is closed again.
fn free_port<R: Net>(net: &R) -> io::Result<u16> {
    let socket = UdpSocket::bind(net, loopback(0))?;
    Ok(socket.local_addr()?.port())
}

/// An ear that marks that it is tuned in.
#[derive(Drop)]
struct MarkingEar<'a, E: Ear + Drop> {
    ear: E,
    tuned: &'a AtomicU64,
}

impl<E: Ear + Drop> Ear for MarkingEar<'_, E> {
    ghost state = { λ marking. E.state marking.ear };

    fn tune_in(&mut self, port: u16) -> Result<(), Failed> {
        self.ear.tune_in(port)?;
        self.tuned.fetch_add(1, Ordering::SeqCst);
        Ok(())
    }

    fn hear(&mut self, buf: &mut [u8]) -> Result<Heard, Failed> {
        self.ear.hear(buf)
    }
}

/// Waits until this is marked.
fn wait_for(tuned: &AtomicU64) {
    for _ in 0..TURNS {
        if tuned.load(Ordering::SeqCst) > 0 {
            return;
        }
        thread::yield_now();
    }
}

/// How a cast to a port ends, which begins when the listener is tuned in.
fn cast_end<R: Threads + Wait + Sync, M: Mast + Send>(
    rt: &R,
    alloc: Global,
    port: &str,
    mast: &mut M,
    tuned: &AtomicU64,
) -> Result<Status, NoMemory>
    requires unaimed { (M.state mast.old).port ≡ None }
    requires unsent { WhereTold (M.state mast.old).told (λ s. s ≡ nothing_sent) }
{
    let mut shelf = shelf_of(alloc, DECK)?;
    let words = words_of(alloc, "cast", port)?;
    let mut ear = MemEar::new(Vec::new(alloc), Vec::new(alloc));
    wait_for(tuned);
    Ok(air_main(rt, alloc, &words, &mut shelf, mast, &mut ear, &OpenGate))
}

/// How listening on a port ends, and what is printed.
fn listen_end<R: Threads + Wait + Sync + Net>(
    rt: &R,
    alloc: Global,
    port: &str,
    tuned: &AtomicU64,
) -> Result<(Status, Vec<u8>), Fail> {
    let mut shelf = shelf_of(alloc, DECK)?;
    let words = words_of(alloc, "listen", port)?;
    let mut mast = MemMast::new(alloc, 0, Vec::new(alloc))?;
    let mut ear = MarkingEar {
        ear: UdpEar::new(rt),
        tuned,
    };
    let status = air_main(
        rt, alloc, &words, &mut shelf, &mut mast, &mut ear, &OpenGate,
    );
    Ok((status, Vec::from_slice(alloc, shelf.printed())?))
}

/// How a cast to a port and a listener on it end, on two threads, and what the listener prints.
fn both_ends<R: Threads + Wait + Sync + Net, M: Mast + Send>(
    rt: &R,
    alloc: Global,
    port: &str,
    mast: &mut M,
) -> Result<(Status, Status, Vec<u8>), Fail>
    requires unaimed { (M.state mast.old).port ≡ None }
    requires unsent { WhereTold (M.state mast.old).told (λ s. s ≡ nothing_sent) }
{
    let tuned = AtomicU64::new(0);
    let (cast, heard) = join_mut(
        rt,
        &mut ||
            requires { IsSync R.row × ((M.state mast.now).port ≡ None) × WhereTold (M.state mast.now).told (λ s. s ≡ nothing_sent) }
        { cast_end(rt, alloc, port, mast, &tuned) },
        &mut || {
            let heard = listen_end(rt, alloc, port, &tuned);
            tuned.fetch_add(1, Ordering::SeqCst);
            heard
        },
    );
    let (listen, printed) = heard?;
    Ok((cast?, listen, printed))
}

#[test]
fn who_listens_to_a_cast_hears_all_of_it(rt: HostRuntime) -> Result<(), Fail> {
    let alloc = rt.alloc();
    let port = format!(in alloc; "{}", free_port(&rt)?)?;
    let mut mast = UdpMast::new(rt.clone()?);
    let (cast, listen, printed) = both_ends(&rt, alloc, port.as_str(), &mut mast)?;
    assert_eq!(rt; (cast, listen), (Status::Ok, Status::Ok));
    assert_eq!(rt; printed.as_slice(), REPORT);
    Ok(())
}
