//! The words and the slot of a turnstile, and the rule that they satisfy between any two steps.
use crate::chronicles::Chronicle;
use crate::views::View;
use atomic_table::TableRule;
use std::snapshot::Snapshot;

/// The word of the next ticket.
pub(crate) const TICKETS: usize = 0;

/// The word of the ticket that is served.
pub(crate) const SERVING: usize = 1;

/// The slot of the value.
pub(crate) const SLOT: usize = 0;

/// What the rule is told when a turnstile is made.
#[derive(Drop)]
pub struct About<K> {
    pub value: Snapshot<K>,
    pub passes: u64,
}

/// The rule of the words and the slot.
pub struct Rule;

impl<K: Chronicle> TableRule<Option<K>, View<K::Entry, K::Base>, About<K>> for Rule {
    ghost use Rattle.turnstile.specs.Private.TurnstileRule.{IsByRule};
    ghost use Rattle.turnstile.specs.Private.SeatViews.{first as first_view};

    ghost holds = { λ _. IsByRule K.entries K.base };

    ghost first = { λ key. first_view (K.entries key.value.value) (K.base key.value.value) key.passes };
}
