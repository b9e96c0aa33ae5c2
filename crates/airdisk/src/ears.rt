//! An ear that reports on standard error the port on which it listens, and from time to time how much it has heard.

ghost use Rattle.std.specs.Prelude.{◌≡◌};

use air_devices::{Ear, Failed, Heard};
use std::time::{Clock, Duration, Instant};

/// The least time between two reports, in seconds.
const REST: u64 = 10;

/// An ear, whether it reports, when it last did, and how many datagrams and bytes it has heard.
#[derive(Drop)]
pub struct ToldEar<E: Ear + Drop, R: Clock + Eprint + Drop> {
    ear: E,
    rt: R,
    is_telling: bool,
    said: Option<Instant>,
    datagrams: u64,
    bytes: u64,
}

impl<E: Ear + Drop, R: Clock + Eprint + Drop> ToldEar<E, R> {
    /// The ear with reports, or without.
    pub fn new(ear: E, rt: R, is_telling: bool) -> Self
        ensures { result.ear ≡ ear }
    {
        ToldEar {
            ear,
            rt,
            is_telling,
            said: None,
            datagrams: 0,
            bytes: 0,
        }
    }

    /// The ear without its reports.
    pub fn ear(&self) -> &E
        ensures { result.now ≡ self.now.ear }
    {
        &self.ear
    }

    /// Reports the port.
    fn tell_port(&mut self, port: u16)
        ensures rest { self.new.ear ≡ self.old.ear }
    {
        if !self.is_telling {
            return;
        }
        let rt = &self.rt;
        let _ = eprintln!(rt; "airdisk: listening on 127.0.0.1, port {port}");
        self.said = Instant::now(rt).ok();
    }

    /// Whether the next report is due.
    fn is_due(&self) -> bool {
        match self.said {
            Some(said) => match said.elapsed(&self.rt) {
                Ok(gone) => Duration::from_secs(REST) <= gone,
                Err(_) => false,
            },
            None => false,
        }
    }

    /// Counts what was heard, and reports if a report is due.
    fn count(&mut self, heard: Heard)
        ensures rest { self.new.ear ≡ self.old.ear }
    {
        let Heard::Bucket(len) = heard else {
            return;
        };
        self.datagrams = self.datagrams.saturating_add(1);
        self.bytes = self.bytes.saturating_add(len as u64);
        if !self.is_due() {
            return;
        }
        let rt = &self.rt;
        let (datagrams, bytes) = (self.datagrams, self.bytes);
        let noun = if datagrams == 1 {
            "datagram"
        } else {
            "datagrams"
        };
        let _ = eprintln!(rt; "airdisk: {datagrams} {noun} came, {bytes} bytes");
        self.said = Instant::now(rt).ok();
    }
}

impl<E: Ear + Drop, R: Clock + Eprint + Drop> Ear for ToldEar<E, R> {
    ghost state = { λ told. E.state told.ear };

    fn tune_in(&mut self, port: u16) -> Result<(), Failed> {
        self.ear.tune_in(port)?;
        self.tell_port(port);
        Ok(())
    }

    fn hear(&mut self, buf: &mut [u8]) -> Result<Heard, Failed> {
        let heard = self.ear.hear(buf)?;
        self.count(heard);
        Ok(heard)
    }
}
