//! A drill: the script of a deck that is made from a seed and a size, and its result in one line.

ghost use Rattle.std.specs.Prelude.{◌≡◌, ◌≤◌, IfOk};
ghost use Rattle.air_model.specs.Outputs.{script_tape};
ghost use Rattle.chunk_program.specs.Plans.{AreShort};
ghost use Rattle.scripts.specs.DrillLines.{drill_line, drill_numbers, drill_output};
ghost use Rattle.scripts.specs.DrillSums.{SumsFit};
ghost use Rattle.item_catalog.specs.declared.deck.drill.TheConstants.{MOST_DRILL_SIZE};

mod sums;

use crate::drills::sums::{
    count_aborted, count_accepted, count_commits, count_starts, count_unfinished, sum_copied,
    sum_dozed, sum_opened,
};
use crate::laws::{drill_counts_law, drill_slots_law, drill_tape_law};
use crate::whole_scripts::{AiredScript, hear_script};
use air_base::NoMemory;
use air_report::{finish, put_numbers, row_writer};
use air_sender::tape_len;
use chunk_program::Planned;
use item_catalog::{Deck, drill_deck};
use std::alloc::Global;

/// The line of the drill of a seed and a size.
pub fn run_drill(alloc: Global, seed: u64, size: u32) -> Result<Vec<u8>, NoMemory>
    requires some { 1 ≤ size }
    requires few { size ≤ MOST_DRILL_SIZE }
    ensures { IfOk result (λ text. text.items ≡ drill_output seed size) }
{
    drill_slots_law();
    drill_tape_law();
    drill_counts_law();
    let deck = drill_deck(alloc, seed, size)?;
    let planned = plan_short(alloc, deck)?;
    let aired = hear_script(alloc, &planned)?;
    let text = line_of(alloc, &numbers_of(&planned, &aired))?;
    Ok(text)
}

/// A deck whose programs are short enough, with its plans: so it fails only where memory runs out.
fn plan_short(alloc: Global, deck: Deck) -> Result<Planned, NoMemory>
    requires { AreShort deck }
    ensures { IfOk result (λ p. p ≡ deck) }
{
    match Planned::new(alloc, deck) {
        Ok(planned) => Ok(planned),
        Err(_) => Err(NoMemory),
    }
}

/// The numbers of a deck, of its script's history and tape, and of what its readers' sessions tell.
fn numbers_of(planned: &Planned, aired: &AiredScript) -> [u64; 11]
    requires { SumsFit aired.now.sessions.counts.items }
    ensures { result
        ≡ drill_numbers planned.now aired.now.events.items (script_tape planned.now) aired.now.sessions.verdicts.items aired.now.sessions.counts.items }
{
    let verdicts = &aired.sessions.verdicts;
    let counts = &aired.sessions.counts;
    [
        u64::from(planned.deck().items()),
        count_commits(&aired.events),
        count_starts(&aired.events),
        u64::from(planned.program(0).slots()),
        tape_len(planned),
        count_accepted(verdicts),
        count_aborted(verdicts),
        count_unfinished(verdicts),
        sum_opened(counts),
        sum_dozed(counts),
        sum_copied(counts),
    ]
}

/// The line of these numbers.
#[tactic(auto, unfolding(air_model::specs::Rows::rows_text))]
fn line_of(alloc: Global, numbers: &[u64]) -> Result<Vec<u8>, NoMemory>
    ensures { IfOk result (λ text. text.items ≡ drill_line numbers.now) }
{
    let wtr = put_numbers(alloc, row_writer(Vec::new(alloc)), b"drill", numbers)?;
    let text = finish(wtr)?;
    Ok(text)
}
