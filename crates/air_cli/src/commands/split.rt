//! The command `split`: the disk sizes of least expected wait for a named deck, and what its own sizes cost.

ghost use Rattle.std.specs.Prelude.{◌≡◌, ◌≤◌, ◌<◌, ◌^◌, ◌++◌, ◌∷◌, [], IfErr, IfOk, OnOk, map};
ghost use Rattle.csv.specs.Writing.{row_text};
ghost use Rattle.air_base.specs.NumberLists.{list_text};
ghost use Rattle.air_base.specs.Numbers.{number_text};
ghost use Rattle.air_model.specs.Rows.{row_writer};
ghost use Rattle.air_report.specs.RowWriters.{IsRowWriter, written_text};
ghost use Rattle.disk_split.specs.SplitAnswers.{search_size};
ghost use Rattle.disk_split.specs.Splits.{IsBest, cost, sizes_in, split_text};
ghost use Rattle.disk_split.specs.declared.splits.TheConstants.{MOST_SPLIT};
ghost use Rattle.air_cli.specs.Private.BeforeDelivery.{IsMade, IsUnmade, ReadsInputs};
ghost use Rattle.air_cli.specs.Split.{UnsplitCause, split_meaning};

use crate::files::decks::read_deck_file;
use crate::outputs::report_and_tape::ReportAndTape;
use air_base::{NoMemory, write_u64};
use air_devices::Shelf;
use air_report::{Status, add_row, finish, row_writer};
use csv::Writer;
use disk_split::{Split, SplitFault, best_split};
use item_catalog::Deck;
use std::alloc::Global;

/// The text of the named deck's best split.
#[tactic(auto, using(crate::proofs::MakeLemmas::is_unmade, crate::proofs::MakeLemmas::is_unmade_calm, crate::proofs::SplitLemmas::deck_split, crate::proofs::SplitLemmas::unsplit_split, crate::proofs::MakeLemmas::wanting))]
pub(crate) fn split<S: Shelf>(
    alloc: Global,
    shelf: &mut S,
    name: &str,
) -> Result<ReportAndTape, Status>
    ensures made { IfOk result (IsMade (split_meaning name.now) (S.state shelf.old) (S.state shelf.new)) }
    ensures unmade { IfErr result (IsUnmade (split_meaning name.now) (S.state shelf.old) (S.state shelf.new)) }
    ensures reads { ReadsInputs (split_meaning name.now) (S.state shelf.old) (S.state shelf.new) }
{
    let deck = read_deck_file(alloc, shelf, name)?;
    let split = split_deck(alloc, &deck)?;
    let text = split_text(alloc, &deck, &split)?;
    Ok(ReportAndTape {
        text,
        tape: None,
        differs: false,
    })
}

/// The best split of a deck, or the status that refuses it.
#[tactic(auto, unfolding(crate::specs::Split::UnsplitCause))]
fn split_deck(alloc: Global, deck: &Deck) -> Result<Split, Status>
    ensures best { IfOk result (λ split. IsBest deck.now split.sizes × (split.cost ≡ cost deck.now split.sizes)) }
    ensures given { IfOk result (λ split. split.given ≡ cost deck.now (sizes_in deck.now)) }
    ensures few { OnOk result (search_size deck.now ≤ MOST_SPLIT) }
    ensures narrow { IfOk result (λ split. (split.cost < 2 ^ 64) × (split.given < 2 ^ 64)) }
    ensures refused { IfErr result (UnsplitCause deck.now) }
{
    match best_split(alloc, deck) {
        Ok(split) => Ok(split),
        Err(SplitFault::TooMuch { product }) => Err(Status::TooMuch { product }),
        Err(SplitFault::TooLong { slots }) => Err(Status::PlanTooLong { slots }),
        Err(SplitFault::NoMemory) => Err(Status::NoMemory),
    }
}

/// The text of a split of a deck: its row, and that of the deck's own sizes.
fn split_text(alloc: Global, deck: &Deck, split: &Split) -> Result<Vec<u8>, NoMemory>
    requires cost { split.now.cost ≡ cost deck.now split.now.sizes }
    requires given { split.now.given ≡ cost deck.now (sizes_in deck.now) }
    requires cost_narrow { split.now.cost < 2 ^ 64 }
    requires given_narrow { split.now.given < 2 ^ 64 }
    ensures { IfOk result (λ text. text.items ≡ split_text deck.now split.now.sizes) }
{
    let mut wtr = row_writer(Vec::new(alloc));
    let best = split.sizes.as_slice();
    put_split(alloc, &mut wtr, b"split", best, split.cost as u64)?;
    let own = own_sizes(alloc, deck)?;
    put_split(alloc, &mut wtr, b"given", &own, split.given as u64)?;
    let text = finish(wtr)?;
    Ok(text)
}

/// Adds the row of sizes and of what they cost.
fn put_split(
    alloc: Global,
    wtr: &mut Writer<Vec<u8>>,
    name: &[u8],
    sizes: &[u16],
    cost: u64,
) -> Result<(), NoMemory>
    requires { IsRowWriter wtr.old }
    ensures ready { OnOk result (IsRowWriter wtr.new) }
    ensures text { OnOk result (written_text wtr.new
        ≡ written_text wtr.old ++ row_text row_writer (name.now ∷ list_text (map number_text sizes.now) ∷ number_text cost ∷ [])) }
{
    let sizes = sizes_text(alloc, sizes)?;
    let mut number = Vec::new(alloc);
    write_u64(cost, &mut number)?;
    add_row(wtr, &[name, sizes.as_slice(), number.as_slice()])?;
    Ok(())
}

/// The sizes as a list: numbers separated by single spaces.
fn sizes_text(alloc: Global, sizes: &[u16]) -> Result<Vec<u8>, NoMemory>
    ensures { IfOk result (λ text. text.items ≡ list_text (map number_text sizes.now)) }
{
    let mut text = Vec::new(alloc);
    for (i, size) in sizes.iter().enumerate() {
        if i > 0 {
            text.extend_from_slice(b" ")?;
        }
        write_u64(u64::from(*size), &mut text)?;
    }
    Ok(text)
}

/// The deck's own sizes.
fn own_sizes(alloc: Global, deck: &Deck) -> Result<Vec<u16>, NoMemory>
    ensures { IfOk result (λ sizes. sizes.items ≡ sizes_in deck.now) }
{
    let mut sizes = Vec::new(alloc);
    for disk in 0..deck.disks() {
        sizes.push(deck.size(disk))?;
    }
    Ok(sizes)
}
