//! Decks that have a fault only at their end.

use crate::records::before::RecordsBefore;
use crate::words::sentences::Sentence;
use air_base::limits::{MOST_FULL_ITEMS, MOST_ITEMS};

/// A note on the first replan whose sizes don't add up to the number of items, or `None`.
fn replan_note(before: &RecordsBefore) -> Option<Sentence<'static>> {
    for (place, sizes) in before.replan_sizes.iter().enumerate() {
        let edition = place as u64 + 1;
        if edition <= before.replans && *sizes != before.items {
            let wording =
                "the sizes of replan #last# add up to #first#, and the number of items is #second#";
            return Some(Sentence::numbers(wording, *sizes, before.items, edition));
        }
    }
    None
}

/// A note that there are groups with a policy that has none.
fn group_note(before: &RecordsBefore) -> Sentence<'static> {
    let wording =
        "the setting group is #first#, and the policy is #name#: only the policy F has groups";
    Sentence::words(wording, "", before.policy, "").with(before.group, 0, "")
}

/// A note on the end of a deck that declares all this, where this kind of fault applies.
pub fn end_note(before: &RecordsBefore, kind: u8) -> Sentence<'static> {
    if kind == 10 {
        return group_note(before);
    }
    if before.sizes != before.items {
        let wording =
            "the sizes of the disks add up to #first#, and the number of items is #second#";
        return Sentence::numbers(wording, before.sizes, before.items, 0);
    }
    if let Some(sentence) = replan_note(before) {
        return sentence;
    }
    if before.items == 0 {
        return Sentence::numbers("there is no item and no disk", 0, 0, 0);
    }
    let wording =
        "there are #first# items: at most #second#, and with set,version,2 at most #last#";
    Sentence::numbers(
        wording,
        before.items,
        MOST_FULL_ITEMS as u64,
        MOST_ITEMS as u64,
    )
}
