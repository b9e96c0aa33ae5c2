//! The top call for the commands that need no waiting.
//!
//! All that a command prints and writes is made before anything is printed or written, except that `script` and `beam`
//! write their tapes while they air them. The
//! contract is one definition by cases of the status: its cause, what was printed and written, and what is left.

ghost use Rattle.std.specs.Prelude.{◌≤◌, map, string_bytes, Some};
ghost use Rattle.air_cli.specs.Answers.{Completes, IsSuccess, Leaves, QuietAnswers};
ghost use Rattle.air_cli.specs.Audit.{audit_meaning};
ghost use Rattle.air_cli.specs.Commands.{asked_by, quiet_meaning};
ghost use Rattle.air_cli.specs.Drill.{drill_meaning};
ghost use Rattle.air_cli.specs.Headline.{QuietHeadline};
ghost use Rattle.air_cli.specs.Meanings.{no_command};
ghost use Rattle.air_cli.specs.Plan.{plan_meaning};
ghost use Rattle.air_cli.specs.Seek.{seek_meaning};
ghost use Rattle.air_cli.specs.Split.{split_meaning};
ghost use Rattle.air_cli.specs.Tune.{tune_meaning};
ghost use Rattle.air_cli.specs.Words.{HasSize, asked_of};
ghost use Rattle.item_catalog.specs.declared.deck.drill.TheConstants.{MOST_DRILL_SIZE};

use crate::commands::audit::audit;
use crate::commands::beam::beam;
use crate::commands::drill::drill;
use crate::commands::plan::plan;
use crate::commands::script::script;
use crate::commands::seek::seek;
use crate::commands::split::split;
use crate::commands::tune::tune;
use crate::endings::give_or_refuse;
use crate::outputs::refusals::refuse;
use crate::words::{Command, command_of};
use air_devices::Shelf;
use air_report::Status;
use std::alloc::Global;
use std::thread::Threads;

/// Runs what the words ask for: `plan DECK`, `split DECK`, `script DECK`, `script DECK TAPE`, `tune DECK TAPE`, `beam DECK TAPE`, `seek TAPE ITEM FROM`,
/// `drill SEED SIZE` or `audit DECK REPORT`.
pub fn air_quiet<T: Threads + Sync, S: Shelf>(
    threads: &T,
    alloc: Global,
    words: &[String],
    shelf: &mut S,
) -> Status
    ensures answers { QuietAnswers (quiet_meaning (asked_of (map (λ w. string_bytes w) words.now))) (S.state shelf.old) (S.state shelf.new) result }
    ensures headline { IsSuccess result → QuietHeadline (asked_of (map (λ w. string_bytes w) words.now)) (S.state shelf.old) (S.state shelf.new) result }
    ensures complete { Completes (quiet_meaning (asked_of (map (λ w. string_bytes w) words.now))) (S.state shelf.old) (S.state shelf.new) result }
    ensures leaves { Leaves (quiet_meaning (asked_of (map (λ w. string_bytes w) words.now))) (S.state shelf.old) (S.state shelf.new) }
{
    match command_of(words) {
        Some(command) => run(threads, alloc, shelf, &command),
        None => refuse_words(alloc, shelf),
    }
}

/// Runs a command. A command that waits isn't run here: it is refused like words that are no command.
fn run<T: Threads + Sync, S: Shelf>(
    threads: &T,
    alloc: Global,
    shelf: &mut S,
    command: &Command,
) -> Status
    requires { HasSize (asked_by command.now) }
    ensures answers { QuietAnswers (quiet_meaning (Some (asked_by command.now))) (S.state shelf.old) (S.state shelf.new) result }
    ensures leaves { Leaves (quiet_meaning (Some (asked_by command.now))) (S.state shelf.old) (S.state shelf.new) }
{
    match command {
        Command::Plan { deck } => give_plan(alloc, shelf, deck),
        Command::Split { deck } => give_split(alloc, shelf, deck),
        Command::Script { deck, tape } => script(alloc, shelf, deck, *tape),
        Command::Tune { deck, tape } => give_tuning(threads, alloc, shelf, deck, tape),
        Command::Beam { deck, tape } => beam(alloc, shelf, deck, tape),
        Command::Seek { tape, item, from } => {
            give_search(threads, alloc, shelf, tape, *item, *from)
        }
        Command::Drill { seed, size } => give_drill(alloc, shelf, *seed, *size),
        Command::Audit { deck, report } => give_audit(alloc, shelf, deck, report),
        Command::Run { .. } | Command::Cast { .. } | Command::Listen { .. } => {
            refuse_words(alloc, shelf)
        }
    }
}

/// Refuses words that are no command.
fn refuse_words<S: Shelf>(alloc: Global, shelf: &mut S) -> Status
    ensures answers { QuietAnswers no_command (S.state shelf.old) (S.state shelf.new) result }
    ensures leaves { Leaves no_command (S.state shelf.old) (S.state shelf.new) }
{
    refuse(alloc, shelf, Status::Words)
}

/// Plans a deck and delivers the plan; or refuses.
fn give_plan<S: Shelf>(alloc: Global, shelf: &mut S, deck: &str) -> Status
    ensures answers { QuietAnswers (plan_meaning deck.now) (S.state shelf.old) (S.state shelf.new) result }
    ensures leaves { Leaves (plan_meaning deck.now) (S.state shelf.old) (S.state shelf.new) }
{
    let made = plan(alloc, shelf, deck);
    give_or_refuse(alloc, shelf, None, made)
}

/// Finds the best split of a deck and delivers it; or refuses.
fn give_split<S: Shelf>(alloc: Global, shelf: &mut S, deck: &str) -> Status
    ensures answers { QuietAnswers (split_meaning deck.now) (S.state shelf.old) (S.state shelf.new) result }
    ensures leaves { Leaves (split_meaning deck.now) (S.state shelf.old) (S.state shelf.new) }
{
    let made = split(alloc, shelf, deck);
    give_or_refuse(alloc, shelf, None, made)
}

/// Lets a deck's readers hear a tape and delivers their report; or refuses.
fn give_tuning<T: Threads + Sync, S: Shelf>(
    threads: &T,
    alloc: Global,
    shelf: &mut S,
    deck: &str,
    tape: &str,
) -> Status
    ensures answers { QuietAnswers (tune_meaning deck.now tape.now) (S.state shelf.old) (S.state shelf.new) result }
    ensures leaves { Leaves (tune_meaning deck.now tape.now) (S.state shelf.old) (S.state shelf.new) }
{
    let made = tune(threads, alloc, shelf, deck, tape);
    give_or_refuse(alloc, shelf, None, made)
}

/// Seeks an item on a tape and delivers the line of the search; or refuses.
fn give_search<T: Threads + Sync, S: Shelf>(
    threads: &T,
    alloc: Global,
    shelf: &mut S,
    tape: &str,
    item: u16,
    from: u32,
) -> Status
    ensures answers { QuietAnswers (seek_meaning tape.now item from) (S.state shelf.old) (S.state shelf.new) result }
    ensures leaves { Leaves (seek_meaning tape.now item from) (S.state shelf.old) (S.state shelf.new) }
{
    let made = seek(threads, alloc, shelf, tape, item, from);
    give_or_refuse(alloc, shelf, None, made)
}

/// Runs the drill of a seed and a size and delivers its line; or refuses.
fn give_drill<S: Shelf>(alloc: Global, shelf: &mut S, seed: u64, size: u32) -> Status
    requires some { 1 ≤ size }
    requires few { size ≤ MOST_DRILL_SIZE }
    ensures answers { QuietAnswers (drill_meaning seed size) (S.state shelf.old) (S.state shelf.new) result }
    ensures leaves { Leaves (drill_meaning seed size) (S.state shelf.old) (S.state shelf.new) }
{
    let made = drill(alloc, seed, size);
    give_or_refuse(alloc, shelf, None, made)
}

/// Audits a report by a deck and delivers the findings; or refuses.
fn give_audit<S: Shelf>(alloc: Global, shelf: &mut S, deck: &str, report: &str) -> Status
    ensures answers { QuietAnswers (audit_meaning deck.now report.now) (S.state shelf.old) (S.state shelf.new) result }
    ensures leaves { Leaves (audit_meaning deck.now report.now) (S.state shelf.old) (S.state shelf.new) }
{
    let made = audit(alloc, shelf, deck, report);
    give_or_refuse(alloc, shelf, None, made)
}
