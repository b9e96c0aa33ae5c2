//! Notes on decks of which a program is too long.

use crate::notes::word;
use crate::plain_files::ReadsAgain;
use air_base::NoMemory;
use air_base::limits::MOST_SLOTS;
use chunk_program::{PlanFault, Program, cut};
use fault_notes::ShownText;
use item_catalog::Deck;
use std::alloc::Global;

/// The first edition of a deck whose program is too long, or `None` if that isn't found.
fn long_edition(alloc: Global, deck: &Deck) -> Option<u32> {
    for edition in 0..deck.replans() + 1 {
        let Ok(disks) = cut(alloc, deck, edition) else {
            return None;
        };
        match Program::plan(alloc, deck, &disks, edition) {
            Ok(_) => {}
            Err(PlanFault::TooLong { .. }) => return Some(edition),
            Err(PlanFault::NoMemory) => return None,
        }
    }
    None
}

/// A note on a deck of which a program would have `slots` slots. If the deck has replans, it also says which program.
pub fn plan_note<F: ReadsAgain>(
    alloc: Global,
    words: &[String],
    files: &mut F,
    slots: u64,
) -> Result<Option<String>, NoMemory> {
    let name = word(words, 1);
    let (edition, changes) = match files.deck(alloc, name) {
        Some(deck) => (long_edition(alloc, &deck), 0 < deck.replans()),
        None => (None, false),
    };
    let deck = ShownText::whole(name);
    match edition {
        Some(edition) if 0 < edition => Ok(Some(format!(in alloc;
            "{deck}: the program of replan {edition} would have {slots} slots, and a program may have {MOST_SLOTS}"
        )?)),
        Some(_) if changes => Ok(Some(format!(in alloc;
            "{deck}: the program of its own disks would have {slots} slots, and a program may have {MOST_SLOTS}"
        )?)),
        _ => Ok(Some(format!(in alloc;
            "{deck}: its program would have {slots} slots, and a program may have {MOST_SLOTS}"
        )?)),
    }
}
