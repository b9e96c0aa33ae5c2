//! What a cycle is aired from: a board, or a board by groups if the deck has groups.

ghost use Rattle.std.specs.Prelude.{◌≡◌, ◌≤◌, ◌<◌, IfOk, length, get_or};
ghost use Rattle.air_base.specs.declared.limits.TheConstants.{MOST_VALUES};
ghost use Rattle.air_base.specs.declared.verdicts.Policy.{Policy};
ghost use Rattle.air_base.specs.declared.verdicts.Policy.TheVariants.{FMatrix};
ghost use Rattle.air_history.specs.Boards.{Board};
ghost use Rattle.air_sender.specs.BoardBuckets.{entries_on, spread};
ghost use Rattle.air_sender.specs.DeckGroups.{HasGroups};

use air_base::{NoMemory, Policy};
use chunk_program::Planned;
use control_matrix::Board;
use group_matrix::GroupBoard;
use std::alloc::Global;

/// A board by groups, not filled yet, for a deck with groups; nothing for a deck without.
pub fn groups_of(alloc: Global, planned: &Planned) -> Result<Option<GroupBoard>, NoMemory>
    ensures { IfOk result (HasGroups planned.now) }
{
    planned.shows_planned();
    let deck = planned.deck();
    let group = deck.settings().group;
    if group == 0 {
        return Ok(None);
    }
    let groups = GroupBoard::new(alloc, deck.items(), group)?;
    Ok(Some(groups))
}

/// A cycle, and the value and the entries of each item in it.
pub trait Source {
    /// The board that is aired.
    ghost board: { Self → Board };

    /// The policies by which it can be aired.
    ghost airs: { Policy → Type 0 };

    /// The cycle.
    fn its_cycle(&self) -> u32
        ensures found { result ≡ (board self.now).cycle };

    /// The number of items.
    fn count_items(&self) -> u16
        ensures counted { result ≡ length (board self.now).values }
        ensures some { 1 ≤ result }
        ensures few { result ≤ MOST_VALUES };

    /// The value of an item.
    fn value_of(&self, item: u16) -> u64
        requires { item < length (board self.now).values }
        ensures found { result ≡ get_or (board self.now).values item 0 };

    /// The entries that a policy airs with an item.
    fn entries_of(&self, policy: Policy, item: u16) -> &[u32]
        requires within { item < length (board self.now).values }
        requires allowed { airs policy }
        ensures found { result.now ≡ entries_on policy (board self.now) item }
        ensures sized { length result.now ≡ length (board self.now).values };
}

impl Source for Board {
    ghost board = { λ b. b };

    ghost airs = { λ p. Unit {0} };

    fn its_cycle(&self) -> u32 {
        self.cycle()
    }

    fn count_items(&self) -> u16 {
        self.n()
    }

    fn value_of(&self, item: u16) -> u64 {
        self.value(item)
    }

    fn entries_of(&self, policy: Policy, item: u16) -> &[u32] {
        match policy {
            Policy::FMatrix => self.column(item),
            Policy::Datacycle | Policy::RMatrix => self.vector(),
        }
    }
}

impl Source for GroupBoard {
    ghost use Rattle.air_base.specs.declared.verdicts.Policy.TheVariants.{FMatrix};
    ghost use Rattle.air_sender.specs.BoardBuckets.{spread};

    ghost board = { spread };

    ghost airs = { λ p. p ≡ FMatrix };

    fn its_cycle(&self) -> u32 {
        self.cycle()
    }

    fn count_items(&self) -> u16 {
        self.n()
    }

    fn value_of(&self, item: u16) -> u64 {
        self.value(item)
    }

    fn entries_of(&self, _policy: Policy, item: u16) -> &[u32] {
        self.column(item)
    }
}
