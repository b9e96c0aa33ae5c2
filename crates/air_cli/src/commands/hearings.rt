//! All readers of a deck hear an ear together: each datagram is decoded once and then dropped.

ghost use Rattle.std.specs.Prelude.{◌≡◌, ℕ, ◌<◌, ◌+◌, ◌^◌, Err, None, Some, All, IfErr, IfOk, IsSome, OnOk, length, map};
ghost use Rattle.air_model.specs.Buckets.{bucket_in};
ghost use Rattle.receiver_core.specs.Receivers.{heard_count};
ghost use Rattle.listeners.specs.Listeners.{hears_one};
ghost use Rattle.air_cli.specs.Hearings.{AreEarSessions, EarFailsFirst, IsHearAnswer};
ghost use Rattle.air_cli.specs.Private.EarSteps.{HaveHeardEar};

use air_base::NoMemory;
use air_devices::{Ear, Heard};
use bucket_codec::decode;
use chunk_program::Planned;
use listeners::{Listener, Sessions, all_hear, end_all, listeners_of};
use std::alloc::Global;

/// The greatest number of bytes that is heard of a datagram.
pub const MOST_HEARD_BYTES: usize = 2_048;

/// Why readers did not hear everything.
#[derive(Clone, Copy, Debug, PartialEq, Eq)]
pub enum HearFault {
    /// The ear failed, after this number of datagrams.
    Ear { heard: u64 },
    /// Out of memory.
    NoMemory,
}

impl From<NoMemory> for HearFault {
    ghost use Rattle.std.specs.Prelude.{◌≡◌};
    ghost use Rattle.air_cli.specs.declared.commands.hearings.HearFault.TheVariants.{NoMemory};

    ghost from_gives = { λ _ fault. fault ≡ NoMemory };

    fn from(_error: NoMemory) -> Self {
        HearFault::NoMemory
    }
}

/// Lets all listeners hear one datagram.
fn all_hear_bytes(
    alloc: Global,
    listeners: Vec<Listener>,
    bytes: &[u8],
) -> Result<Vec<Listener>, NoMemory>
    requires { All (λ l. heard_count l.state.counts + 1 < 2 ^ 64) listeners.items }
    ensures { IfOk result (λ ls. ls.items ≡ map (hears_one (bucket_in bytes.now)) listeners.items) }
{
    all_hear(alloc, listeners, &decode(bytes))
}

/// Lets all listeners hear what an ear gives into this buffer, until its end, or until they heard the greatest number of datagrams.
fn all_hear_ear<E: Ear>(
    alloc: Global,
    listeners: Vec<Listener>,
    ear: &mut E,
    buf: &mut [u8],
    hears: u32,
) -> Result<Vec<Listener>, HearFault>
    requires room { length buf.old ≡ MOST_HEARD_BYTES }
    requires tuned { IsSome (E.state ear.old).port }
    requires counts { All (λ l. heard_count l.state.counts + hears < 2 ^ 64) listeners.items }
    ensures heard { IfOk result (λ ls. HaveHeardEar hears (E.state ear.old).told (E.state ear.new).told listeners.items ls.items) }
    ensures calm { OnOk result ((E.state ear.new).faults ≡ (E.state ear.old).faults) }
    ensures fault { IfErr result (IsHearAnswer hears (E.state ear.old) (E.state ear.new)) }
    ensures first { (heard : ℕ) → result ≡ Err (HearFault.Ear heard) → EarFailsFirst E.state ear.old ear.new }
    ensures port { (E.state ear.new).port ≡ (E.state ear.old).port }
{
    let mut listeners = listeners;
    for n in 0..hears {
        let taken = u64::from(n);
        let Ok(heard) = ear.hear(buf) else {
            return Err(HearFault::Ear { heard: taken });
        };
        let Heard::Bucket(len) = heard else {
            return Ok(listeners);
        };
        listeners = all_hear_bytes(alloc, listeners, &buf[..len])?;
    }
    Ok(listeners)
}

/// Tunes the ear to a port, and lets all readers of a deck hear it until its end, or until they heard as many datagrams as the deck says. The lines
/// and the counts are those of their sessions over the first 2,048 bytes of each datagram. If the ear failed, `heard` datagrams had been heard
/// before: 0 if it could not be tuned. It heard nothing after its first failure.
pub fn ear_sessions<E: Ear>(
    alloc: Global,
    planned: &Planned,
    ear: &mut E,
    port: u16,
) -> Result<Sessions, HearFault>
    requires { (E.state ear.old).port ≡ None }
    ensures sessions { IfOk result (λ s. AreEarSessions planned.now (E.state ear.old).told (E.state ear.new).told s.verdicts.items s.counts.items) }
    ensures calm { OnOk result ((E.state ear.new).faults ≡ (E.state ear.old).faults) }
    ensures fault { IfErr result (IsHearAnswer planned.now.settings.hears (E.state ear.old) (E.state ear.new)) }
    ensures first { (heard : ℕ) → result ≡ Err (HearFault.Ear heard) → EarFailsFirst E.state ear.old ear.new }
    ensures port { (E.state ear.new).port ≡ Some port }
{
    let hears = planned.deck().settings().hears;
    if ear.tune_in(port).is_err() {
        return Err(HearFault::Ear { heard: 0 });
    }
    let listeners = listeners_of(alloc, planned)?;
    let mut buf = [0; MOST_HEARD_BYTES];
    let heard = all_hear_ear(alloc, listeners, ear, &mut buf, hears)?;
    let sessions = end_all(alloc, heard)?;
    Ok(sessions)
}
