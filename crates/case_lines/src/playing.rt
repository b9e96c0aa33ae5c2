//! Plays the cases of a text one after another, and writes the transcript.
//!
//! The result of a case is indented by four spaces. The result of a mistyped case is only what is wrong with it.

use crate::adding::add_lines;
use crate::reading::{BadCase, Parts, first_part};
use air_base::NoMemory;
use std::alloc::Global;
use std::io::{self, Read, Write};

/// What plays cases. It may keep what earlier cases set.
pub trait Player {
    /// What a player needs of the runtime that it holds, such as that threads may share it.
    ghost needs: { Type 0 } = { Unit {0} };

    /// Plays the case of a word, takes its parts, and adds the lines of its result.
    fn play(
        &mut self,
        alloc: Global,
        word: &[u8],
        parts: &mut Parts<'_>,
        came: &mut Vec<u8>,
    ) -> Result<(), NoMemory>
        requires { needs };
}

/// Adds what is wrong with a case, if something is. A part that is left is one too many.
fn add_bad(parts: &mut Parts<'_>, out: &mut Vec<u8>) -> Result<(), NoMemory> {
    if parts.left() > 0 {
        parts.refuse(BadCase::TooMany);
    }
    if let Some(bad) = parts.bad() {
        out.extend_from_slice(b"    bad case: ")?;
        out.extend_from_slice(bad.as_text())?;
        out.push(b'\n')?;
    }
    Ok(())
}

/// Adds the line and, if it is a case, its result.
fn play_line<P: Player>(
    alloc: Global,
    player: &mut P,
    line: &[u8],
    out: &mut Vec<u8>,
) -> Result<(), NoMemory>
    requires { P.needs }
{
    out.extend_from_slice(line)?;
    out.push(b'\n')?;
    if line.is_empty() || line[0] == b'#' {
        return Ok(());
    }
    let (word, about) = first_part(line, b' ');
    let mut parts = Parts::new(about);
    let mut came = Vec::new(alloc);
    player.play(alloc, word, &mut parts, &mut came)?;
    if parts.bad().is_none() {
        add_lines(b"    ", &came, out)?;
    }
    add_bad(&mut parts, out)
}

/// The transcript of the cases; each line ends with a line feed.
fn play<P: Player>(alloc: Global, player: &mut P, cases: &[u8]) -> Result<Vec<u8>, NoMemory>
    requires { P.needs }
{
    let mut out = Vec::new(alloc);
    let mut rest = cases;
    for _ in 0..cases.len() {
        if rest.is_empty() {
            break;
        }
        let (line, more) = first_part(rest, b'\n');
        play_line(alloc, player, line, &mut out)?;
        rest = more;
    }
    Ok(out)
}

/// Plays the cases of standard input, and prints the transcript.
pub fn play_stdin<R: Input + Print + AllocGlobal, P: Player>(
    rt: &R,
    player: &mut P,
) -> io::Result<()>
    requires { P.needs }
{
    let mut cases = Vec::new(rt.alloc());
    rt.reader().read_to_end(&mut cases)?;
    let Ok(transcript) = play(rt.alloc(), player, &cases) else {
        return Err(io::Error::from(io::ErrorKind::OutOfMemory));
    };
    io::writer(rt).write_all(&transcript)
}
