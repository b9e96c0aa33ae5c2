//! Datagrams that a mast sends and an ear hears, over real sockets of this machine.
//!
//! At the other end is a socket of the test. Once a send returns, the datagram waits at the socket of its port on this machine,
//! so what was sent is there to be heard.

ghost use Rattle.std.specs.Prelude.{IsSome};

use air_base::limits::MOST_DATAGRAM_BYTES;
use air_devices::{Ear, Failed, Heard, Mast, NetCall, NetFailure, UdpEar, UdpMast};
use std::io::{self, ErrorKind};
use std::net::{Net, SocketAddr, UdpSocket};
use std::test::Fail;
use std::time::Duration;

/// A port of this machine.
fn loopback(port: u16) -> SocketAddr {
    SocketAddr::from(([127, 0, 0, 1], port))
}

/// A socket at any free port, which waits at most ten seconds for a datagram, and its port.
fn plain_socket<R: Net>(net: &R) -> io::Result<(UdpSocket, u16)> {
    let socket = UdpSocket::bind(net, loopback(0))?;
    socket.set_read_timeout(Some(Duration::from_secs(10)))?;
    let port = socket.local_addr()?.port();
    Ok((socket, port))
}

/// Sends the bytes, or the end if there are none; it fails if they are longer than the longest datagram.
fn send<M: Mast>(mast: &mut M, bytes: &[u8]) -> Result<(), Failed> {
    if bytes.is_empty() {
        return mast.finish();
    }
    if bytes.len() > MOST_DATAGRAM_BYTES {
        return Err(Failed);
    }
    mast.send(bytes)
}

/// How often the end comes.
const END_MARKS: usize = 3;

/// Whether these bytes arrive at the socket; the end has to arrive three times.
fn comes(far: &UdpSocket, buf: &mut [u8], bytes: &[u8]) -> io::Result<bool> {
    let times = if bytes.is_empty() { END_MARKS } else { 1 };
    for _ in 0..times {
        let count = far.recv(buf)?;
        if buf.get(..count) != Some(bytes) {
            return Ok(false);
        }
    }
    Ok(true)
}

/// The place of the first datagram that the mast doesn't send, or that doesn't arrive at the socket as it was sent.
fn first_lost<M: Mast>(
    mast: &mut M,
    far: &UdpSocket,
    buf: &mut [u8],
    datagrams: &[&[u8]],
) -> io::Result<Option<usize>> {
    for (place, bytes) in datagrams.iter().enumerate() {
        if send(mast, bytes).is_err() || !comes(far, buf, bytes)? {
            return Ok(Some(place));
        }
    }
    Ok(None)
}

#[test]
fn a_mast_sends_datagrams_and_an_empty_one_as_the_end(rt: HostRuntime) -> Result<(), Fail> {
    let (far, port) = plain_socket(&rt)?;
    let longest = vec![in rt.alloc(); 7u8; MOST_DATAGRAM_BYTES]?;
    let mut buf = vec![in rt.alloc(); 0u8; MOST_DATAGRAM_BYTES]?;
    let mut mast = UdpMast::new(rt.clone()?);
    let aimed = mast.aim(port);
    let datagrams: [&[u8]; 4] = [b"ab", longest.as_slice(), b"", b"c"];
    let lost = first_lost(&mut mast, &far, buf.as_mut_slice(), &datagrams)?;
    drop(far);
    let answers = [aimed, mast.send(b"d"), mast.send(b"e"), mast.finish()];
    let told = (lost, answers, mast.last_failure().is_none());
    assert_eq!(rt; told, (None, [Ok(()); 4], true));
    Ok(())
}

/// A port at which nobody listens, found by a socket that is closed again.
fn free_port<R: Net>(net: &R) -> io::Result<u16> {
    let (_, port) = plain_socket(net)?;
    Ok(port)
}

/// Whether the ear hears these bytes, with room for three; no bytes stand for the end. After a failure the answer is false.
fn heard_is<E: Ear>(ear: &mut E, told: &[u8]) -> bool
    requires { IsSome (E.state ear.old).port }
    ensures { IsSome (E.state ear.new).port }
{
    let mut buf = [0; 3];
    match ear.hear(&mut buf) {
        Ok(Heard::Bucket(len)) => len > 0 && &buf[..len] == told,
        Ok(Heard::Over) => told.is_empty(),
        Err(_) => false,
    }
}

/// Sends each datagram to the ear's port, and lets the ear hear it: the place of the first that isn't heard as told.
fn first_misheard<E: Ear>(
    far: &UdpSocket,
    port: u16,
    ear: &mut E,
    rows: &[(&[u8], &[u8])],
) -> io::Result<Option<usize>>
    requires { IsSome (E.state ear.old).port }
    ensures { IsSome (E.state ear.new).port }
{
    for (place, (sent, told)) in rows.iter().enumerate() {
        far.send_to(sent, loopback(port))?;
        if !heard_is(ear, told) {
            return Ok(Some(place));
        }
    }
    Ok(None)
}

#[test]
fn an_ear_hears_datagrams_cut_to_its_buffer_and_an_empty_one_as_the_end(
    rt: HostRuntime,
) -> Result<(), Fail> {
    let (far, _) = plain_socket(&rt)?;
    let port = free_port(&rt)?;
    let mut ear = UdpEar::new(rt.clone()?);
    let tuned = ear.tune_in(port);
    let rows: [(&[u8], &[u8]); 5] = [
        (b"ab", b"ab"),
        (b"abcd", b"abc"),
        (b"e", b"e"),
        (b"", b""),
        (b"abc", b"abc"),
    ];
    let misheard = first_misheard(&far, port, &mut ear, &rows)?;
    let told = (tuned, misheard, ear.last_failure().is_none());
    assert_eq!(rt; told, (Ok(()), None, true));
    Ok(())
}

#[test]
fn a_silence_behind_the_first_datagram_is_the_end(rt: HostRuntime) -> Result<(), Fail> {
    let (far, _) = plain_socket(&rt)?;
    let port = free_port(&rt)?;
    let mut ear = UdpEar::with_silence(rt.clone()?, 1);
    let tuned = ear.tune_in(port);
    let rows: [(&[u8], &[u8]); 1] = [(b"ab", b"ab")];
    let misheard = first_misheard(&far, port, &mut ear, &rows)?;
    let over = heard_is(&mut ear, b"");
    let told = (tuned, misheard, over, ear.last_failure().is_none());
    assert_eq!(rt; told, (Ok(()), None, true, true));
    Ok(())
}

#[test]
fn a_port_that_an_ear_has_is_refused_to_another(rt: HostRuntime) -> Result<(), Fail> {
    let port = free_port(&rt)?;
    let mut first = UdpEar::new(rt.clone()?);
    let mut second = UdpEar::new(rt.clone()?);
    let tuned = [first.tune_in(port), second.tune_in(port)];
    let said = (NetCall::TuneIn, Some(port), ErrorKind::AddrInUse);
    let wanted = ([Ok(()), Err(Failed)], Some(said));
    assert_eq!(rt; (tuned, failure_parts(second.last_failure())), wanted);
    Ok(())
}

/// What is kept of a failure: what was done, the port, and the kind of the error.
fn failure_parts(failure: Option<&NetFailure>) -> Option<(NetCall, Option<u16>, ErrorKind)> {
    let failure = failure?;
    Some((failure.call(), failure.port(), failure.error().kind()))
}
