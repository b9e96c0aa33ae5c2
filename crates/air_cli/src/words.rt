//! The words of a command, and the help on them.

ghost use Rattle.std.specs.Prelude.{◌≡◌, ◌↔◌, Some, option_map, map, string_bytes, IfSome, IsTrue};
ghost use Rattle.air_cli.specs.Words.{HasSize, NeedsWait, asked_drill, asked_of, asked_of_numbers, asked_of_one, asked_of_three, asked_of_two, asked_seek};
ghost use Rattle.air_cli.specs.Commands.{asked_by};

pub(crate) mod places;
pub(crate) mod ports;

use crate::words::places::{asked_item, asked_place};
use crate::words::ports::port_of;
use air_base::read_u64;
use item_catalog::MOST_DRILL_SIZE;

/// What the program can do: a line for each command.
pub const HELP: &str = "airdisk: data on air, proved

  airdisk plan DECK            print the broadcast program of a deck
  airdisk split DECK           print the disk sizes of least expected wait, and what the deck's own cost
  airdisk script DECK          run the script of a deck, and print the report of its readers
  airdisk script DECK TAPE     the same, and write what was aired to a tape
  airdisk tune DECK TAPE       let the readers of a deck hear a tape, and print their report
  airdisk beam DECK TAPE       run the script of a deck, write it to an indexed tape, and print how many records it has
  airdisk seek TAPE ITEM FROM  find an item on an indexed tape from a record on, and print where it is
  airdisk drill SEED SIZE      make a deck of size 1 to 100, run its script, and print what came of it
  airdisk audit DECK REPORT    replay a report by its own history, and print which of its lines agree
  airdisk run DECK TAPE        run a deck on threads, print the report, and write the tape
  airdisk cast DECK PORT       run a deck on threads, send what is aired to a port of this machine, and print the history
  airdisk listen DECK PORT     let the readers of a deck hear what arrives at a port, and print their report
  airdisk --help, -h           print this text
  airdisk --version, -V        print the version
  airdisk help [COMMAND]       print this text, or its lines on a command

  AIRDISK_RATE=N airdisk cast DECK PORT         send N buckets a second, 1 to 1000000
  AIRDISK_SILENCE=N airdisk listen DECK PORT    once a datagram has come, end after N seconds of silence, at most 1000000; 30 where not set, 0 for never

The manual is docs/GUIDE.md in the repository.
";

/// A command, with what the words after it name.
#[derive(Clone, Copy, Debug)]
pub enum Command<'a> {
    /// To plan a deck.
    Plan {
        deck: &'a str,
    },
    /// To find the best split of a deck.
    Split {
        deck: &'a str,
    },
    /// To run a deck's script, and to write its tape if one is named.
    Script {
        deck: &'a str,
        tape: Option<&'a str>,
    },
    /// To let a deck's readers hear a tape.
    Tune {
        deck: &'a str,
        tape: &'a str,
    },
    /// To write the script of a deck to an indexed tape.
    Beam {
        deck: &'a str,
        tape: &'a str,
    },
    /// To seek an item on an indexed tape, from a record on.
    Seek {
        tape: &'a str,
        item: u16,
        from: u32,
    },
    /// To run the drill of a seed and a size.
    Drill {
        seed: u64,
        size: u32,
    },
    /// To audit a report by a deck.
    Audit {
        deck: &'a str,
        report: &'a str,
    },
    /// To run a deck on threads, and to write its tape.
    Run {
        deck: &'a str,
        tape: &'a str,
    },
    /// To cast such a run to a port.
    Cast {
        deck: &'a str,
        port: u16,
    },
    /// To let a deck's readers listen on a port.
    Listen {
        deck: &'a str,
        port: u16,
    },
}

/// The command that the words ask for, or `None` if they are no command.
pub fn command_of<'a>(words: &'a [String]) -> Option<Command<'a>>
    ensures asked { option_map asked_by result ≡ asked_of (map (λ w. string_bytes w) words.now) }
    ensures sized { IfSome result (λ c. HasSize (asked_by c)) }
{
    match words {
        [name, deck] if !deck.is_empty() => command_of_one(name, deck),
        [name, first, second] if !first.is_empty() && !second.is_empty() => {
            command_of_two(name, first, second)
        }
        [name, first, second, third] if !first.is_empty() => {
            command_of_three(name, first, second, third)
        }
        _ => None,
    }
}

/// Whether the words ask for a command that waits. What other words ask for `air_quiet` runs too, and that one ends.
pub fn waits(words: &[String]) -> bool
    ensures waiting { IsTrue result ↔ NeedsWait (asked_of (map (λ w. string_bytes w) words.now)) }
{
    match command_of(words) {
        Some(command) => needs_wait(&command),
        None => false,
    }
}

/// Whether a command waits.
fn needs_wait(command: &Command) -> bool
    ensures { IsTrue result ↔ NeedsWait (Some (asked_by command.now)) }
{
    match command {
        Command::Run { .. } | Command::Cast { .. } | Command::Listen { .. } => true,
        Command::Plan { .. }
        | Command::Split { .. }
        | Command::Script { .. }
        | Command::Tune { .. }
        | Command::Beam { .. }
        | Command::Seek { .. }
        | Command::Drill { .. }
        | Command::Audit { .. } => false,
    }
}

/// What a command's name and one file ask for.
fn command_of_one<'a>(name: &str, deck: &'a str) -> Option<Command<'a>>
    ensures asked { option_map asked_by result ≡ asked_of_one name.now deck.now }
    ensures sized { IfSome result (λ c. HasSize (asked_by c)) }
{
    if name == "plan" {
        Some(Command::Plan { deck })
    } else if name == "split" {
        Some(Command::Split { deck })
    } else if name == "script" {
        Some(Command::Script { deck, tape: None })
    } else {
        None
    }
}

/// What a command's name and two more words ask for.
fn command_of_two<'a>(name: &str, first: &'a str, second: &'a str) -> Option<Command<'a>>
    ensures asked { option_map asked_by result ≡ asked_of_two name.now first.now second.now }
    ensures sized { IfSome result (λ c. HasSize (asked_by c)) }
{
    if name == "script" {
        Some(Command::Script {
            deck: first,
            tape: Some(second),
        })
    } else if name == "tune" {
        Some(Command::Tune {
            deck: first,
            tape: second,
        })
    } else if name == "beam" {
        Some(Command::Beam {
            deck: first,
            tape: second,
        })
    } else if name == "audit" {
        Some(Command::Audit {
            deck: first,
            report: second,
        })
    } else if name == "run" {
        Some(Command::Run {
            deck: first,
            tape: second,
        })
    } else {
        command_of_numbers(name, first, second)
    }
}

/// What a command's name and two more words ask for, if the last of them is a number.
fn command_of_numbers<'a>(name: &str, first: &'a str, second: &str) -> Option<Command<'a>>
    ensures asked { option_map asked_by result ≡ asked_of_numbers name.now first.now second.now }
    ensures sized { IfSome result (λ c. HasSize (asked_by c)) }
{
    if name == "drill" {
        drill_of(read_u64(first.as_bytes()), read_u64(second.as_bytes()))
    } else if name == "cast" {
        match port_of(second) {
            Some(port) => Some(Command::Cast { deck: first, port }),
            None => None,
        }
    } else if name == "listen" {
        match port_of(second) {
            Some(port) => Some(Command::Listen { deck: first, port }),
            None => None,
        }
    } else {
        None
    }
}

/// What a command's name and three words more ask for.
fn command_of_three<'a>(
    name: &str,
    first: &'a str,
    second: &str,
    third: &str,
) -> Option<Command<'a>>
    ensures asked { option_map asked_by result ≡ asked_of_three name.now first.now second.now third.now }
    ensures sized { IfSome result (λ c. HasSize (asked_by c)) }
{
    if name == "seek" {
        seek_of(first, asked_item(second), asked_place(third))
    } else {
        None
    }
}

/// The search on a tape for an item from a place on, if there are both.
fn seek_of<'a>(tape: &'a str, item: Option<u16>, from: Option<u32>) -> Option<Command<'a>>
    ensures asked { option_map asked_by result ≡ asked_seek tape.now item from }
    ensures sized { IfSome result (λ c. HasSize (asked_by c)) }
{
    match (item, from) {
        (Some(item), Some(from)) => Some(Command::Seek { tape, item, from }),
        _ => None,
    }
}

/// The drill of a seed and a size, if they are numbers and a drill may have the size.
fn drill_of<'a>(seed: Option<u64>, size: Option<u64>) -> Option<Command<'a>>
    ensures asked { option_map asked_by result ≡ asked_drill seed size }
    ensures sized { IfSome result (λ c. HasSize (asked_by c)) }
{
    match (seed, size) {
        (Some(seed), Some(size)) if 1 <= size && size <= u64::from(MOST_DRILL_SIZE) => {
            Some(Command::Drill {
                seed,
                size: size as u32,
            })
        }
        _ => None,
    }
}
