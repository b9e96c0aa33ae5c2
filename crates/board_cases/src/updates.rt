//! Cases of updates: the update that lists make, or the rule that they break.
//!
//! The transcript has the update, its copy, and the update of its lists, and whether the copy fits a number of items.

use crate::events::update_of;
use air_base::NoMemory;
use air_history::{Update, UpdateFault};
use case_lines::{Parts, add_items, add_line, add_writes};
use std::alloc::Global;

/// Adds a line of the lists of the update.
fn add_lists(word: &[u8], update: &Update, out: &mut Vec<u8>) -> Result<(), NoMemory> {
    out.extend_from_slice(word)?;
    out.extend_from_slice(b" reads")?;
    add_items(update.reads(), out)?;
    out.extend_from_slice(b", writes")?;
    add_writes(update.writes(), out)?;
    out.push(b'\n')?;
    Ok(())
}

/// Adds the text of the fault.
pub fn tell_fault(alloc: Global, fault: &UpdateFault, came: &mut Vec<u8>) -> Result<(), NoMemory> {
    add_line(fault.to_string(alloc)?.as_bytes(), &[], came)
}

/// Adds the update that the lists make, or the rule that they break.
pub fn tell_update(
    alloc: Global,
    parts: &mut Parts<'_>,
    came: &mut Vec<u8>,
) -> Result<(), NoMemory> {
    let (items, update) = match update_of(alloc, parts) {
        Ok(made) => made,
        Err(fault) => return tell_fault(alloc, &fault, came),
    };
    update.shows_rules_kept();
    let again = Update::of_lists(alloc, update.reads(), update.writes())?;
    let copy = update.copy(alloc)?;
    add_lists(b"update", &update, came)?;
    add_lists(b"copy", &copy, came)?;
    add_lists(b"of its lists", &again, came)?;
    let fits = copy.fits(items);
    let told = if fits {
        b"fits".as_slice()
    } else {
        b"does not fit".as_slice()
    };
    add_line(told, &[u64::from(items)], came)
}
