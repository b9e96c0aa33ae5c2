//! What the system said of a call of a mast or an ear that failed.

ghost use Rattle.std.specs.Prelude.{◌≡◌};

use std::{fmt, io};

/// What was done.
#[derive(Clone, Copy, Debug, PartialEq, Eq)]
pub enum NetCall {
    Aim,
    Send,
    Finish,
    TuneIn,
    Hear,
}

impl fmt::Display for NetCall {
    fn fmt<W: fmt::Write>(&self, f: &mut fmt::Formatter<W>) -> fmt::Result {
        f.write_str(match self {
            NetCall::Aim => "aiming at",
            NetCall::Send => "sending to",
            NetCall::Finish => "sending the end to",
            NetCall::TuneIn => "tuning in to",
            NetCall::Hear => "hearing on",
        })
    }
}

/// A call that failed: what was done, on which port, and the error.
#[derive(Clone, Copy, Drop)]
pub struct NetFailure {
    call: NetCall,
    port: Option<u16>,
    error: io::Error,
}

impl NetFailure {
    /// The failure of a call on this port.
    pub(crate) fn new(call: NetCall, port: Option<u16>, error: io::Error) -> NetFailure
        ensures call { result.call ≡ call }
        ensures port { result.port ≡ port }
        ensures error { result.error ≡ error }
    {
        NetFailure { call, port, error }
    }

    /// What was done.
    pub fn call(&self) -> NetCall
        ensures { result ≡ self.now.call }
    {
        self.call
    }

    /// The port that the device was aimed at or tuned to; None if it wasn't.
    pub fn port(&self) -> Option<u16>
        ensures { result ≡ self.now.port }
    {
        self.port
    }

    /// The error.
    pub fn error(&self) -> io::Error
        ensures { result ≡ self.now.error }
    {
        self.error
    }
}

impl fmt::Display for NetFailure {
    fn fmt<W: fmt::Write>(&self, f: &mut fmt::Formatter<W>) -> fmt::Result {
        match self.port {
            Some(port) => write!(f, "{} port {port}: {}", self.call, self.error),
            None => write!(f, "{} no port: {}", self.call, self.error),
        }
    }
}
