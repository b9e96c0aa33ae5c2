//! A mast over UDP on this machine only: it sends to 127.0.0.1, to the port that it is aimed at.
//!
//! It tells nothing of what it sent, since no contract can say what a socket takes. It keeps what the system said of the last
//! failure. It sends from a socket that isn't connected, so no send fails because nobody listens. The end mark is an empty
//! datagram, which is sent three times. It waits between datagrams (`paces`) and before the end, so that anyone who listens on
//! this machine can hear them all. No clause mentions time.

ghost use Rattle.std.specs.Prelude.{◌≡◌, ◌≤◌, ◌<◌, [], None, Some, IsErr};
ghost use Rattle.std.specs.Option.{option_map};
ghost use Rattle.air_devices.specs.Counts.{Rose, TellsFailure};
ghost use Rattle.air_devices.specs.NetFailures.{IsLastOf, KeepsLastOf};
ghost use Rattle.air_devices.specs.Untold.{untold_mast};

use crate::masts::Mast;
use crate::paces::Pace;
use crate::shelves::Failed;
use crate::system::net_failures::{NetCall, NetFailure};
use std::net::{Net, SocketAddr, UdpSocket};
use std::time::{Clock, Duration};
use std::{io, thread};

/// How long the mast waits before the end, in milliseconds: a full buffer is read in less.
const REST_BEFORE_END: u64 = 100;

/// How often the end mark is sent, since a datagram may be lost.
const END_MARKS: u32 = 3;

/// How long the mast waits between two end marks, in milliseconds.
const REST_BETWEEN_MARKS: u64 = 20;

/// The address on this machine with this port.
pub(crate) fn loopback(port: u16) -> SocketAddr {
    SocketAddr::from(([127, 0, 0, 1], port))
}

/// A socket that sends, the port that it sends to, and how fast it sends.
#[derive(Drop)]
pub struct UdpMast<R: Net + Clock + Drop> {
    rt: R,
    socket: Option<UdpSocket>,
    port: Option<u16>,
    pace: Pace,
    faults: u64,
    last: Option<NetFailure>,
}

impl<R: Net + Clock + Drop> UdpMast<R> {
    /// A mast that wasn't aimed, over the runtime's network and clock.
    pub fn new(rt: R) -> Self
        ensures counts { result.faults ≡ 0 }
        ensures port { result.port ≡ None }
        ensures last { result.last ≡ None }
    {
        UdpMast::with_rate(rt, None)
    }

    /// A mast that wasn't aimed, and that sends this many datagrams a second as far as it can, if a rate is given; 0 counts as
    /// 1.
    pub fn with_rate(rt: R, rate: Option<u32>) -> Self
        ensures counts { result.faults ≡ 0 }
        ensures port { result.port ≡ None }
        ensures last { result.last ≡ None }
    {
        UdpMast {
            rt,
            socket: None,
            port: None,
            pace: Pace::new(rate),
            faults: 0,
            last: None,
        }
    }

    /// What the system said of the last call that failed; None if none failed.
    pub fn last_failure(&self) -> Option<&NetFailure>
        ensures { option_map (λ failure. failure.now) result ≡ self.now.last }
    {
        self.last.as_ref()
    }

    /// Counts a failure, and keeps what the system said.
    fn fault(&mut self, call: NetCall, error: io::Error) -> Failed
        ensures rose { Rose self.old.faults self.new.faults }
        ensures later { self.old.faults ≤ self.new.faults }
        ensures last { IsLastOf call self.old.port self.new.last }
        ensures error { option_map (λ failure. failure.error) self.new.last ≡ Some error }
        ensures rest { self.new ≡ record self.old { faults = self.new.faults; last = self.new.last } }
    {
        self.faults = self.faults.saturating_add(1);
        self.last = Some(NetFailure::new(call, self.port, error));
        Failed
    }

    /// Sends a datagram of all of these bytes; it fails if no aim has succeeded. An aim that fails leaves the socket of an
    /// earlier one.
    fn send_all(&self, bytes: &[u8]) -> io::Result<()>
        ensures { self.now.port ≡ None → IsErr result }
    {
        let (Some(socket), Some(port)) = (&self.socket, self.port) else {
            return Err(io::Error::other("there is nothing to send from"));
        };
        if socket.send_to(bytes, loopback(port))? < bytes.len() {
            return Err(io::Error::from(io::ErrorKind::WriteZero));
        }
        Ok(())
    }

    /// Sends the end mark, and twice more some time later; it fails if the first send fails.
    fn send_end(&self) -> io::Result<()>
        ensures { self.now.port ≡ None → IsErr result }
    {
        thread::sleep(&self.rt, Duration::from_millis(REST_BEFORE_END));
        self.send_all(&[])?;
        for _ in 1..END_MARKS {
            thread::sleep(&self.rt, Duration::from_millis(REST_BETWEEN_MARKS));
            let _ = self.send_all(&[]);
        }
        Ok(())
    }
}

impl<R: Net + Clock + Drop> Mast for UdpMast<R> {
    ghost state = { λ mast. untold_mast mast.faults mast.port };

    fn aim(&mut self, port: u16) -> Result<(), Failed>
        ensures aimed { self.new.port ≡ Some port }
        ensures cause { TellsFailure self.old.faults self.new.faults result }
        ensures last { KeepsLastOf NetCall.Aim (Some port) self.old.last self.new.last result }
    {
        self.port = Some(port);
        match UdpSocket::bind(&self.rt, loopback(0)) {
            Ok(socket) => {
                self.socket = Some(socket);
                Ok(())
            }
            Err(error) => Err(self.fault(NetCall::Aim, error)),
        }
    }

    fn send(&mut self, bytes: &[u8]) -> Result<(), Failed>
        ensures unaimed { self.old.port ≡ None → IsErr result }
        ensures cause { TellsFailure self.old.faults self.new.faults result }
        ensures last { KeepsLastOf NetCall.Send self.old.port self.old.last self.new.last result }
        ensures rest { self.new ≡ record self.old { pace = self.new.pace; faults = self.new.faults; last = self.new.last } }
    {
        self.pace.wait(&self.rt);
        match self.send_all(bytes) {
            Ok(()) => Ok(()),
            Err(error) => Err(self.fault(NetCall::Send, error)),
        }
    }

    fn finish(&mut self) -> Result<(), Failed>
        ensures unaimed { self.old.port ≡ None → IsErr result }
        ensures cause { TellsFailure self.old.faults self.new.faults result }
        ensures last { KeepsLastOf NetCall.Finish self.old.port self.old.last self.new.last result }
        ensures rest { self.new ≡ record self.old { faults = self.new.faults; last = self.new.last } }
    {
        match self.send_end() {
            Ok(()) => Ok(()),
            Err(error) => Err(self.fault(NetCall::Finish, error)),
        }
    }
}
