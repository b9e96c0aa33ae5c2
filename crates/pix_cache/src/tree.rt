//! The tree over the copy slots: its root is the copy slot that a newcomer takes, which is an empty one if there is one,
//! otherwise that of the least copy.
//!
//! Contracts see its leaves, one for each copy slot.

ghost use Rattle.std.specs.Prelude.{◌≡◌, ◌<◌, ◌≤◌, ℕ, true, length, get_or, map, All, IfOk, MatchOption, slice_set};
ghost use Rattle.air_base.specs.declared.limits.TheConstants.{MOST_ROOM};
ghost use Rattle.pix_cache.specs.Leaves.{copy_leaf, empty_leaf, nowhere, renumbered_leaf, weight};

use crate::leaf::Leaf;
use crate::nodes::{blank, place, renumber};
use air_base::NoMemory;
use std::alloc::Global;
use std::marker::Model;

/// A tree over the copy slots.
#[derive(Drop)]
pub struct Tree {
    copy_slots: usize,
    nodes: Vec<Leaf>,
}

impl Model for Tree {
    ghost use Rattle.std.specs.Prelude.{List};
    ghost use Rattle.pix_cache.specs.declared.leaf.Leaf.{Leaf};

    ghost Value = { List Leaf };

    ghost use Rattle.pix_cache.specs.Private.TreeFields.{KeepsTree, leaves_of};

    ghost view = { leaves_of };

    ghost invariant = { KeepsTree };
}

impl Tree {
    /// The tree over this many empty copy slots. All memory is taken here.
    pub fn new(alloc: Global, copy_slots: usize) -> Result<Tree, NoMemory>
        requires { copy_slots ≤ MOST_ROOM }
        ensures copy_slots { IfOk result (λ t. length t ≡ copy_slots) }
        ensures none { IfOk result (λ t. (s : ℕ) → s < length t → get_or t s nowhere ≡ empty_leaf s) }
    {
        Ok(Tree {
            copy_slots,
            nodes: blank(alloc, copy_slots)?,
        })
    }

    /// The lightest copy slot; None if a copy of this item and PIX number is lighter still.
    pub fn room_for(&self, item: u16, pix: u64) -> Option<Leaf>
        ensures { MatchOption result (All (λ a. weight (copy_leaf 0 pix item) < weight a) self.now)
            (λ r. (r.copy_slot < length self.now) × (get_or self.now r.copy_slot nowhere ≡ r) × (weight r ≤ weight (copy_leaf 0 pix item)) × All (λ a. weight r ≤ weight a) self.now) }
    {
        if self.copy_slots == 0 {
            return None;
        }
        let least = self.nodes[1];
        let new = Leaf {
            copy_slot: 0,
            kept: true,
            pix,
            item,
        };
        if new.is_lighter(&least) {
            return None;
        }
        Some(least)
    }

    /// Changes what a copy slot holds, in time that grows with the logarithm of the number of copy slots.
    pub fn put(&mut self, leaf: Leaf)
        requires { leaf.copy_slot < length self.old }
        ensures { self.new ≡ slice_set self.old leaf.copy_slot leaf }
    {
        place(&mut self.nodes, self.copy_slots, leaf);
    }

    /// Gives each copy its item's PIX number.
    pub fn reorder(&mut self, pix: &[u64])
        requires { All (λ a. a.kept ≡ true → a.item < length pix.now) self.old }
        ensures { self.new ≡ map (renumbered_leaf pix.now) self.old }
    {
        renumber(&mut self.nodes, self.copy_slots, pix);
    }
}
