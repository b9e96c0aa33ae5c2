//! What the rule knows of a pass. These types are for the proofs only: no value of them is made.
use std::collections::LinkedList;

/// A list that was seen, with the numbers of the pass that saw it.
pub struct Sight<E> {
    pub entries: LinkedList<(u64, E)>,
    pub numbers: LinkedList<u64>,
}

/// What the rule knows of a pass: its ticket while it waits or is inside, the number of passes that `new` was given, the base,
/// and what it has seen. Inside a turn it has the list of the value that it was given, and during a join the two lists that
/// were joined.
pub struct View<E, B> {
    pub ticket: Option<u64>,
    pub passes: u64,
    pub base: Option<B>,
    pub sight: Sight<E>,
    pub noted: Option<LinkedList<(u64, E)>>,
    pub old: LinkedList<Sight<E>>,
}
