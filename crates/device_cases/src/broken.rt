//! A runtime of which every call fails, as if its disk, network and output were gone.
//!
//! The shelf of `broken` and the devices of `system` use it, so that a case shows what they say of each failed call.

use std::alloc::Allocator;
use std::fmt::Display;
use std::fs::{File, Metadata, OpenOptions};
use std::io::{Error, ErrorKind, Result};
use std::net::{Net, SocketAddr, TcpListener, TcpStream, UdpSocket};
use std::rt::Files;
use std::time::{Clock, Duration};

/// The runtime.
#[derive(Drop)]
pub struct BrokenSystem;

/// The error of every call.
fn failure() -> Error {
    Error::from(ErrorKind::BrokenPipe)
}

impl Files for BrokenSystem {
    type File = File;

    type Dir = File;

    fn open_file(&self, _how: &OpenOptions, _path: &str) -> Result<File> {
        Err(failure())
    }

    fn open_dir(&self, _path: &str) -> Result<File> {
        Err(failure())
    }

    fn metadata(&self, _path: &str) -> Result<Metadata> {
        Err(failure())
    }

    fn symlink_metadata(&self, _path: &str) -> Result<Metadata> {
        Err(failure())
    }

    fn copy(&self, _from: &str, _to: &str) -> Result<u64> {
        Err(failure())
    }

    fn rename(&self, _from: &str, _to: &str) -> Result<()> {
        Err(failure())
    }

    fn remove_file(&self, _path: &str) -> Result<()> {
        Err(failure())
    }

    fn create_dir(&self, _path: &str) -> Result<()> {
        Err(failure())
    }

    fn remove_dir(&self, _path: &str) -> Result<()> {
        Err(failure())
    }

    fn remove_dir_all<B: Allocator>(&self, _alloc: B, _path: &str) -> Result<()> {
        Err(failure())
    }
}

impl Print for BrokenSystem {
    fn print<D: Display + Drop>(&self, _value: D) -> Result<()> {
        Err(failure())
    }

    fn println<D: Display + Drop>(&self, _value: D) -> Result<()> {
        Err(failure())
    }

    fn write_all(&self, _bytes: &[u8]) -> Result<()> {
        Err(failure())
    }
}

impl Net for BrokenSystem {
    type Stream = TcpStream;

    type Listener = TcpListener;

    fn bind(&self, _addr: SocketAddr) -> Result<TcpListener> {
        Err(failure())
    }

    fn connect(&self, _addr: SocketAddr) -> Result<TcpStream> {
        Err(failure())
    }

    fn bind_udp(&self, _addr: SocketAddr) -> Result<UdpSocket> {
        Err(failure())
    }
}

impl Clock for BrokenSystem {
    fn monotonic(&self) -> Result<Duration> {
        Err(failure())
    }

    fn since_1970(&self) -> Result<Duration> {
        Err(failure())
    }
}
