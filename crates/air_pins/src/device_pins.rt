//! These pins of `air_devices` say what a shelf over files makes of a second name and of a second file, and what an ear makes of a datagram without
//! bytes.
//!
//! Neither tells what a file or a socket gives, so the pins say what holds of every answer.
#![tactic(auto)]

ghost use Rattle.std.specs.Prelude.{◌≡◌, ◌≢◌, ◌<◌, [], ◌∷◌, true, codes, length, IfOk, IsErr, IsSome};
ghost use Rattle.air_devices.specs.ReadFiles.{is_among};
ghost use Rattle.air_pins.specs.SmallFiles.{first_read, second_read};

use air_devices::{Ear, Failed, FileShelf, Heard, Shelf, UdpEar};
use std::net::Net;
use std::rt::Files;

/// If another file was picked last, a read fails. It doesn't read on in that file, as under the name of this one.
/// Promise: a refusal leaves its objects
pub fn another_name_is_read_on<R: Files + Print + Drop>(
    shelf: &mut FileShelf<R>,
    name: &str,
    buf: &mut [u8],
) -> Result<usize, Failed>
    requires picked { IsSome shelf.old.picked }
    requires other { shelf.old.name.bytes ≡ codes "deck" }
    requires name { name.now ≡ codes "tape" }
    requires room { 0 < length buf.old }
    ensures { IsErr result }
{
    shelf.read(name, buf)
}

/// After one more pick the two files that were read are still among those that no output may be.
/// Promise: a refusal leaves its objects
pub fn files_read_before_are_forgotten<R: Files + Print + Drop>(
    shelf: &mut FileShelf<R>,
    name: &str,
) -> Result<(), Failed>
    requires { shelf.old.read.ids.items ≡ first_read ∷ second_read ∷ [] }
    ensures first { is_among first_read shelf.new.read.ids.items ≡ true }
    ensures second { is_among second_read shelf.new.read.ids.items ≡ true }
{
    shelf.pick(name)
}

/// A datagram without bytes is the end, and no bucket of no bytes.
/// Promise: what goes over the air
pub fn end_mark_heard_as_a_bucket<R: Net + Drop>(
    ear: &mut UdpEar<R>,
    buf: &mut [u8],
) -> Result<Heard, Failed>
    requires tuned { IsSome ear.old.port }
    requires room { 0 < length buf.old }
    ensures { IfOk result (λ heard. heard ≢ Heard.Bucket 0) }
{
    ear.hear(buf)
}
