//! What the kept copies do to a receiver: a copy of the wanted item is used or dropped, turn by turn up to the next verdict.

ghost use Rattle.std.specs.Prelude.{◌≡◌, ℕ, ◌-◌, ◌<◌, ◌||◌, [], ◌∷◌, ◌++◌, length, map, nat_lt, All};
ghost use Rattle.std.specs.Option.{is_some};
ghost use Rattle.air_history.specs.Clashes.{is_late};
ghost use Rattle.air_model.specs.Judges.{by_entries, place_of};
ghost use Rattle.air_model.specs.SessionLaws.{are_far};
ghost use Rattle.air_model.specs.Sessions.{copy_of, turn, wanted};
ghost use Rattle.receiver_core.specs.LastReads.{in_state};
ghost use Rattle.receiver_core.specs.ReceiverSteps.{step};
ghost use Rattle.receiver_core.specs.Private.Turns.{uses_copy};

use super::Receiver;
use crate::attempts::Attempt;
use pix_cache::PixCache;

impl Receiver {
    /// Tells whether a copy of the wanted item is kept.
    pub(super) fn has_copy(&self) -> bool
        ensures { result ≡ is_some (copy_of (wanted self.now.reader self.now.state) self.now.state) }
    {
        let Some(item) = self.wanted() else {
            return false;
        };
        self.copies.get(item).is_some()
    }

    /// Takes turns up to the next line.
    pub(super) fn settle_to_line(&mut self)
        requires given { self.old.state.lines ≡ [] }
        ensures { self.new ≡ in_state self.old (step (by_entries self.old.air.scheme) self.old.air self.old.reader self.old.state) }
    {
        while self.turn() {
            if self.waiting.is_some() {
                return;
            }
        }
    }

    /// Reads the wanted item from its copy, or drops the copy if it can't be used; tells whether it read one.
    pub(super) fn turn(&mut self) -> bool
        requires given { self.old.state.lines ≡ [] }
        ensures state { self.new ≡ in_state self.old (turn (by_entries self.old.air.scheme) self.old.air self.old.reader self.old.state) }
        ensures used { result ≡ uses_copy self.old.air self.old.reader self.old.state }
    {
        let Some(item) = self.wanted() else {
            return false;
        };
        let Some(kept) = self.copies.get(item) else {
            return false;
        };
        let cycle = kept.cycle;
        let version = self.air.version();
        if is_stale(&self.held, version, cycle, self.latest, self.reader.age()) {
            self.copies.drop_copy(item);
            return false;
        }
        match self.held.try_hold(item, cycle, kept.value, kept.column) {
            None => {
                self.counts.copied += 1;
                self.accept_if_whole();
                true
            }
            Some(_) => {
                self.copies.drop_copy(item);
                false
            }
        }
    }
}

/// Tells whether a copy of this cycle is too old now, or comes too late after the held reads, or lies too far from them in this version,
/// regardless of its item.
fn is_stale(held: &Attempt, version: u8, cycle: u32, latest: u32, age: u32) -> bool
    ensures { (item : ℕ) → result ≡ (nat_lt age (latest - cycle) || is_late held.now.policy (map place_of held.now.reads) (record { item = item; cycle = cycle })
        || are_far version (map place_of held.now.reads ++ record { item = item; cycle = cycle } ∷ [])) }
{
    latest.saturating_sub(cycle) > age || held.is_late(cycle) || held.is_far(version, cycle)
}

/// Drops the copies of all items.
pub(super) fn drop_all(copies: &mut PixCache, items: u16)
    requires numbers { length copies.old.pix ≡ items }
    requires within { All (λ r. r.item < items) copies.old.copies }
    ensures { copies.new ≡ record copies.old { copies = [] } }
{
    for item in 0..items {
        copies.drop_copy(item);
    }
}
