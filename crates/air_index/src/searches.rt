//! How far a search for an item is.

use crate::sought::Sought;

/// The stage of a search: which record it waits for.
#[derive(Clone, Copy)]
pub(crate) enum SearchStage {
    /// The first record that is opened.
    First,
    /// An index record, to which the first record leads.
    Index,
    /// A data record of the item, to which an index leads; `opens` records were opened before it.
    Item { opens: u32 },
    /// None: the search has its answer.
    Nothing { answer: Sought },
}

/// How far a search is.
#[derive(Clone, Copy)]
pub(crate) struct Search {
    /// How many records come before the one that is waited for.
    pub(crate) skip: u32,
    /// The place of that one.
    pub(crate) place: u64,
    /// Which one it is.
    pub(crate) stage: SearchStage,
}
