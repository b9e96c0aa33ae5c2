//! These pins fix what `read_lines` of `air_report` answers for short texts that spell no report of the small deck. Each is refused with the first
//! record that has a fault, and with the least kind there, or out of memory.

ghost use Rattle.std.specs.Prelude.{◌≡◌, codes};
ghost use Rattle.report_pins.specs.ReportAnswers.{IsReportFaultOrNoMemory};
ghost use Rattle.report_pins.specs.SmallDeck.{commit_skipped, cut_accept, glanced_before, looked_before, small_deck, started_after, two_unknown, young_deck};

use air_report::{ReadLines, ReportError, read_lines};
use item_catalog::Deck;
use std::alloc::Global;

/// An accept has all items of its query.
/// Promise: texts are exact
pub fn accept_of_a_proper_prefix(
    alloc: Global,
    deck: &Deck,
    bytes: &[u8],
) -> Result<ReadLines, ReportError>
    requires deck { deck.now ≡ small_deck }
    requires bytes { bytes.now ≡ cut_accept }
    ensures { IsReportFaultOrNoMemory 2 6 result }
{
    read_lines(alloc, deck, bytes)
}

/// `aged` is an unknown tag if buckets have no ages.
/// Promise: texts are exact
pub fn aged_where_buckets_have_no_ages(
    alloc: Global,
    deck: &Deck,
    bytes: &[u8],
) -> Result<ReadLines, ReportError>
    requires deck { deck.now ≡ small_deck }
    requires bytes { bytes.now ≡ codes "aged,0,2,1,0@1=10,1@1" }
    ensures { IsReportFaultOrNoMemory 1 3 result }
{
    read_lines(alloc, deck, bytes)
}

/// If they have ages, it is a tag, so one alone lacks its fields.
/// Promise: texts are exact
pub fn aged_unknown_where_buckets_have_ages(
    alloc: Global,
    deck: &Deck,
    bytes: &[u8],
) -> Result<ReadLines, ReportError>
    requires deck { deck.now ≡ young_deck }
    requires bytes { bytes.now ≡ codes "aged" }
    ensures { IsReportFaultOrNoMemory 1 1 result }
{
    read_lines(alloc, deck, bytes)
}

/// A byte after a place makes the field no place.
/// Promise: texts are exact
pub fn bytes_behind_a_place_forgotten(
    alloc: Global,
    deck: &Deck,
    bytes: &[u8],
) -> Result<ReadLines, ReportError>
    requires deck { deck.now ≡ small_deck }
    requires bytes { bytes.now ≡ codes "abort,0,2,1,0@1=10,1@1x,0" }
    ensures { IsReportFaultOrNoMemory 1 2 result }
{
    read_lines(alloc, deck, bytes)
}

/// Nothing is read in cycle 0, the catalog.
/// Promise: texts are exact
pub fn catalog_taken_for_a_cycle_of_a_read(
    alloc: Global,
    deck: &Deck,
    bytes: &[u8],
) -> Result<ReadLines, ReportError>
    requires deck { deck.now ≡ small_deck }
    requires bytes { bytes.now ≡ codes "accept,0,2,1,0@0=10 1@0=20" }
    ensures { IsReportFaultOrNoMemory 1 7 result }
{
    read_lines(alloc, deck, bytes)
}

/// Each updater's commits are counted from 0.
/// Promise: texts are exact
pub fn commits_of_another_updater(
    alloc: Global,
    deck: &Deck,
    bytes: &[u8],
) -> Result<ReadLines, ReportError>
    requires deck { deck.now ≡ small_deck }
    requires bytes { bytes.now ≡ commit_skipped }
    ensures { IsReportFaultOrNoMemory 2 5 result }
{
    read_lines(alloc, deck, bytes)
}

/// A cycle has to start before it is read, and not after.
/// Promise: texts are exact
pub fn cycle_among_all_starts_of_the_report(
    alloc: Global,
    deck: &Deck,
    bytes: &[u8],
) -> Result<ReadLines, ReportError>
    requires deck { deck.now ≡ small_deck }
    requires bytes { bytes.now ≡ started_after }
    ensures { IsReportFaultOrNoMemory 1 7 result }
{
    read_lines(alloc, deck, bytes)
}

/// If a line comes late and has no cycle, the least kind is answered.
/// Promise: texts are exact
pub fn greatest_kind_of_a_report(
    alloc: Global,
    deck: &Deck,
    bytes: &[u8],
) -> Result<ReadLines, ReportError>
    requires deck { deck.now ≡ small_deck }
    requires bytes { bytes.now ≡ looked_before }
    ensures { IsReportFaultOrNoMemory 2 4 result }
{
    read_lines(alloc, deck, bytes)
}

/// Of two faulty records the first is answered. It also refuses that the record after it is answered.
/// Promise: texts are exact
pub fn later_fault_for_the_first(
    alloc: Global,
    deck: &Deck,
    bytes: &[u8],
) -> Result<ReadLines, ReportError>
    requires deck { deck.now ≡ small_deck }
    requires bytes { bytes.now ≡ two_unknown }
    ensures { IsReportFaultOrNoMemory 1 3 result }
{
    read_lines(alloc, deck, bytes)
}

/// No start comes after a glance.
/// Promise: texts are exact
pub fn order_that_forgets_glances(
    alloc: Global,
    deck: &Deck,
    bytes: &[u8],
) -> Result<ReadLines, ReportError>
    requires deck { deck.now ≡ small_deck }
    requires bytes { bytes.now ≡ glanced_before }
    ensures { IsReportFaultOrNoMemory 2 4 result }
{
    read_lines(alloc, deck, bytes)
}
