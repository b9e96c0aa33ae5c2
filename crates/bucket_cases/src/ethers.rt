//! What a reader hears of the ether, and the words that it draws.
//!
//! `ether` takes the seed, the reader's number, how many of a hundred are lost, heard again and delayed, and the number of pushes. `words` takes a seed
//! and a stream.

ghost use Rattle.std.specs.Prelude.{◌≡◌, OnOk};
ghost use Rattle.air_ether.specs.HeardSoFar.{IsQuiet};

use air_base::NoMemory;
use air_ether::Ether;
use case_lines::{BadCase, Parts, add_hex};
use rand_core::utils::NextWord;
use rand_pcg::Lcg64Xsh32;
use std::alloc::Global;

/// Hears all that is due, and adds it.
fn add_heard(ether: &mut Ether, came: &mut Vec<u8>) -> Result<(), NoMemory>
    ensures quiet { OnOk result (IsQuiet ether.new) }
    ensures most { OnOk result (ether.new.most ≡ ether.old.most) }
    ensures pushes { OnOk result (ether.new.pushes ≡ ether.old.pushes) }
    ensures ended { OnOk result (ether.new.ended ≡ ether.old.ended) }
{
    while let Some(bytes) = ether.next() {
        came.push(b' ')?;
        add_hex(bytes, came)?;
    }
    came.push(b'\n')?;
    Ok(())
}

/// Pushes buckets of one byte, 0, 1, 2 and so on, and adds what is heard after each push, after the end, and once more.
pub fn ether(alloc: Global, parts: &mut Parts<'_>, came: &mut Vec<u8>) -> Result<(), NoMemory> {
    let (seed, number) = (parts.number(), parts.narrow());
    let (loss, again, late) = (parts.narrow(), parts.narrow(), parts.narrow());
    let pushes = parts.byte();
    if loss > 100 || again > 100 || late > 100 {
        parts.refuse(BadCase::NoCall);
        return Ok(());
    }
    let mut ether = Ether::new(alloc, seed, number, loss, again, late, 1)?;
    for place in 0..pushes {
        ether.push(&[place]);
        came.extend_from_slice(b"heard")?;
        add_heard(&mut ether, came)?;
    }
    ether.end();
    came.extend_from_slice(b"end")?;
    add_heard(&mut ether, came)?;
    came.extend_from_slice(b"then")?;
    add_heard(&mut ether, came)
}

/// Adds six words of the generator of a seed and a stream.
pub fn words(parts: &mut Parts<'_>, came: &mut Vec<u8>) -> Result<(), NoMemory> {
    let seed = parts.number();
    let mut generator = Lcg64Xsh32::new(seed, parts.number());
    came.extend_from_slice(b"drawn")?;
    for _ in 0..6 {
        came.push(b' ')?;
        add_hex(&generator.next_word().to_be_bytes(), came)?;
    }
    Ok(())
}
