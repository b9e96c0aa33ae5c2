//! The law of the least groups, the contract of a function that does nothing.

ghost use Rattle.air_model.specs.Decks.{Deck};
ghost use Rattle.scripts.specs.OneGroups.{OneIsNone};

/// Groups of one item are no groups: decks that differ only in having groups of 1 or of 0 items air one tape of each history, and their readers have
/// one session each. So a session that, for example, keeps no copies if there are groups is refused.
pub fn one_group_law()
    ensures { (deck : Deck) → OneIsNone deck }
{}
