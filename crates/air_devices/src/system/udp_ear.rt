//! An ear over UDP on this machine only: it hears what is sent to 127.0.0.1 at the port that it is tuned to, by anyone.
//!
//! It tells nothing of what is still to be heard, since no contract can say what a socket gives. It keeps what the system said
//! of the last failure. A datagram that is longer than the buffer is cut to it, and an empty one is the end mark. It waits for
//! the first datagram without a limit. After that a silence of some seconds is the end too, since the end mark may be lost.

ghost use Rattle.std.specs.Prelude.{◌≡◌, ◌≤◌, ◌<◌, None, Some, length, IfOk};
ghost use Rattle.std.specs.Io.{ReadsAtMost};
ghost use Rattle.std.specs.Option.{option_map};
ghost use Rattle.air_devices.specs.Counts.{Rose, TellsFailure};
ghost use Rattle.air_devices.specs.Ears.{Hears};
ghost use Rattle.air_devices.specs.NetFailures.{IsLastOf, KeepsLastOf};
ghost use Rattle.air_devices.specs.Untold.{untold_ear};

use crate::ears::{Ear, Heard};
use crate::shelves::Failed;
use crate::system::net_failures::{NetCall, NetFailure};
use crate::system::udp_mast::loopback;
use std::io;
use std::net::{Net, UdpSocket};
use std::time::Duration;

/// After how many seconds of silence an ear ends if nothing else is asked for.
pub const SILENCE: u32 = 30;

/// A socket that hears, and its port; after how many seconds of silence it ends, and whether that limit holds yet.
#[derive(Drop)]
pub struct UdpEar<R: Net + Drop> {
    net: R,
    socket: Option<UdpSocket>,
    port: Option<u16>,
    silence: u32,
    is_limited: bool,
    faults: u64,
    last: Option<NetFailure>,
}

/// The number of bytes that a datagram put into the buffer; 0 if the wait is limited and no datagram came. A stop of the
/// process can end such a wait early; the wait is then continued.
fn receive_some(socket: &UdpSocket, buf: &mut [u8], is_limited: bool) -> io::Result<usize>
    ensures { ReadsAtMost result buf.new }
{
    for _ in 0..u64::MAX {
        match socket.recv(buf) {
            Err(error) if error.kind() == io::ErrorKind::Interrupted => {}
            Err(error) if is_limited && error.kind() == io::ErrorKind::WouldBlock => return Ok(0),
            received => return received,
        }
    }
    Err(io::Error::from(io::ErrorKind::Interrupted))
}

impl<R: Net + Drop> UdpEar<R> {
    /// An ear that wasn't tuned, over the runtime's network.
    pub fn new(net: R) -> Self
        ensures counts { result.faults ≡ 0 }
        ensures port { result.port ≡ None }
        ensures last { result.last ≡ None }
    {
        UdpEar::with_silence(net, SILENCE)
    }

    /// An ear that wasn't tuned, and that ends after this many seconds of silence once it has heard a datagram; with 0 it
    /// doesn't end so.
    pub fn with_silence(net: R, silence: u32) -> Self
        ensures counts { result.faults ≡ 0 }
        ensures port { result.port ≡ None }
        ensures last { result.last ≡ None }
    {
        UdpEar {
            net,
            socket: None,
            port: None,
            silence,
            is_limited: false,
            faults: 0,
            last: None,
        }
    }

    /// What the system said of the last call that failed; None if none failed.
    pub fn last_failure(&self) -> Option<&NetFailure>
        ensures { option_map (λ failure. failure.now) result ≡ self.now.last }
    {
        self.last.as_ref()
    }

    /// Counts a failure, and keeps what the system said.
    fn fault(&mut self, call: NetCall, error: io::Error) -> Failed
        ensures rose { Rose self.old.faults self.new.faults }
        ensures later { self.old.faults ≤ self.new.faults }
        ensures last { IsLastOf call self.old.port self.new.last }
        ensures error { option_map (λ failure. failure.error) self.new.last ≡ Some error }
        ensures rest { self.new ≡ record self.old { faults = self.new.faults; last = self.new.last } }
    {
        self.faults = self.faults.saturating_add(1);
        self.last = Some(NetFailure::new(call, self.port, error));
        Failed
    }

    /// Hears a datagram, or a silence; it fails if no tuning in has succeeded. A tuning in that fails leaves the socket of an
    /// earlier one.
    fn receive(&mut self, buf: &mut [u8]) -> io::Result<Heard>
        requires { 0 < length buf.old }
        ensures heard { IfOk result (Hears None None buf.new) }
        ensures rest { self.new ≡ record self.old { is_limited = self.new.is_limited } }
    {
        let Some(socket) = &self.socket else {
            return Err(io::Error::other("there is nothing to hear with"));
        };
        let len = receive_some(socket, buf, self.is_limited)?;
        if !self.is_limited {
            let silence = Duration::from_secs(u64::from(self.silence));
            self.is_limited = socket.set_read_timeout(Some(silence)).is_ok();
        }
        Ok(match len {
            0 => Heard::Over,
            len => Heard::Bucket(len),
        })
    }
}

impl<R: Net + Drop> Ear for UdpEar<R> {
    ghost state = { λ ear. untold_ear ear.faults ear.port };

    fn tune_in(&mut self, port: u16) -> Result<(), Failed>
        ensures tuned { self.new.port ≡ Some port }
        ensures cause { TellsFailure self.old.faults self.new.faults result }
        ensures last { KeepsLastOf NetCall.TuneIn (Some port) self.old.last self.new.last result }
    {
        self.port = Some(port);
        match UdpSocket::bind(&self.net, loopback(port)) {
            Ok(socket) => {
                self.socket = Some(socket);
                self.is_limited = false;
                Ok(())
            }
            Err(error) => Err(self.fault(NetCall::TuneIn, error)),
        }
    }

    fn hear(&mut self, buf: &mut [u8]) -> Result<Heard, Failed>
        requires { 0 < length buf.old }
        ensures heard { IfOk result (Hears None None buf.new) }
        ensures cause { TellsFailure self.old.faults self.new.faults result }
        ensures last { KeepsLastOf NetCall.Hear self.old.port self.old.last self.new.last result }
        ensures rest { self.new ≡ record self.old { is_limited = self.new.is_limited; faults = self.new.faults; last = self.new.last } }
    {
        match self.receive(buf) {
            Ok(heard) => Ok(heard),
            Err(error) => Err(self.fault(NetCall::Hear, error)),
        }
    }
}
