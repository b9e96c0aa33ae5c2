//! The number of a port, as a word spells it.

ghost use Rattle.std.specs.Prelude.{◌≡◌};
ghost use Rattle.air_base.specs.Numbers.{number_of};
ghost use Rattle.air_cli.specs.Words.{port_of};

use air_base::read_u64;

/// The greatest number of a port; the least is 1.
pub const LAST_PORT: u64 = 65_535;

/// The port that a word spells, if it spells one.
pub(crate) fn port_of(word: &str) -> Option<u16>
    ensures { result ≡ port_of (number_of word.now) }
{
    match read_u64(word.as_bytes()) {
        Some(port) if 1 <= port && port <= LAST_PORT => Some(port as u16),
        _ => None,
    }
}
