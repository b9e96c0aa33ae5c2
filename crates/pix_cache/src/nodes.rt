//! The nodes of the tree over the copy slots: each has the lighter of its two children.
//!
//! Leaf s is at place K + s for K copy slots, and the children of node v are at 2v and 2v + 1.

ghost use Rattle.std.specs.Prelude.{◌≡◌, ◌*◌, ◌+◌, ◌≤◌, ◌<◌, ℕ, true, false, length, drop, IfOk, slice_set, get_or};
ghost use Rattle.air_base.specs.declared.limits.TheConstants.{MOST_ROOM};
ghost use Rattle.pix_cache.specs.Leaves.{nowhere, renumbered_leaf};
ghost use Rattle.pix_cache.specs.Private.Trees.{IsTree};

use crate::leaf::{Leaf, lighter_of};
use air_base::NoMemory;
use std::alloc::Global;

/// Puts a leaf in its place and mends the nodes above it, whose number is the logarithm of that of the copy slots.
pub fn place(nodes: &mut [Leaf], copy_slots: usize, leaf: Leaf)
    requires few { copy_slots ≤ MOST_ROOM }
    requires within { leaf.copy_slot < copy_slots }
    requires tree { IsTree copy_slots nodes.old }
    ensures tree { IsTree copy_slots nodes.new }
    ensures leaves { drop copy_slots nodes.new ≡ slice_set (drop copy_slots nodes.old) leaf.copy_slot leaf }
{
    let mut node = copy_slots + leaf.copy_slot as usize;
    nodes[node] = leaf;
    while node > 1 {
        node /= 2;
        let left = nodes[2 * node];
        let right = nodes[2 * node + 1];
        nodes[node] = lighter_of(left, right);
    }
}

/// The tree over this many empty copy slots.
pub fn blank(alloc: Global, copy_slots: usize) -> Result<Vec<Leaf>, NoMemory>
    requires { copy_slots ≤ MOST_ROOM }
    ensures tree { IfOk result (λ t. IsTree copy_slots t.items) }
    ensures none { IfOk result (λ t. (s : ℕ) → s < copy_slots → get_or (drop copy_slots t.items) s nowhere ≡ record { copy_slot = s; kept = false; pix = 0; item = 0 }) }
{
    let mut nodes = vec![in alloc; Leaf::empty(0); 2 * copy_slots]?;
    for copy_slot in 0..copy_slots {
        place(&mut nodes, copy_slots, Leaf::empty(copy_slot as u16));
    }
    Ok(nodes)
}

/// Gives each kept leaf its item's PIX number.
pub fn renumber(nodes: &mut [Leaf], copy_slots: usize, pix: &[u64])
    requires few { copy_slots ≤ MOST_ROOM }
    requires copy_slots { (s : ℕ) → s < copy_slots → (get_or (drop copy_slots nodes.old) s nowhere).copy_slot ≡ s }
    requires items { (s : ℕ) → s < copy_slots → (get_or (drop copy_slots nodes.old) s nowhere).kept ≡ true → (get_or (drop copy_slots nodes.old) s nowhere).item < length pix.now }
    requires tree { IsTree copy_slots nodes.old }
    ensures tree { IsTree copy_slots nodes.new }
    ensures leaves { (s : ℕ) → s < copy_slots → get_or (drop copy_slots nodes.new) s nowhere ≡ renumbered_leaf pix.now (get_or (drop copy_slots nodes.old) s nowhere) }
{
    for copy_slot in 0..copy_slots {
        let leaf = nodes[copy_slots + copy_slot];
        if leaf.kept {
            let pix = pix[leaf.item as usize];
            place(nodes, copy_slots, Leaf { pix, ..leaf });
        }
    }
}
