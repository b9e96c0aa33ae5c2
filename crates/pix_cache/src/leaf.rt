//! What the tree knows of a copy slot: whether it holds a copy, and where that copy is in the order.

ghost use Rattle.std.specs.Prelude.{◌≡◌, false, nat_lt};
ghost use Rattle.pix_cache.specs.Leaves.{weight, lighter};

/// A copy slot, with what it holds: nothing, or a copy of an item with its PIX number.
#[derive(Clone, Copy, Drop)]
pub struct Leaf {
    pub copy_slot: u16,
    pub kept: bool,
    pub pix: u64,
    pub item: u16,
}

impl Leaf {
    /// An empty copy slot.
    pub fn empty(copy_slot: u16) -> Leaf
        ensures { result ≡ record { copy_slot = copy_slot; kept = false; pix = 0; item = 0 } }
    {
        Leaf {
            copy_slot,
            kept: false,
            pix: 0,
            item: 0,
        }
    }

    /// Whether this copy slot is lighter. An empty one is lighter than a copy; of two copies, the one with the lesser PIX
    /// number or, among equals, the greater item number is lighter.
    pub fn is_lighter(&self, other: &Leaf) -> bool
        ensures { result ≡ nat_lt (weight self.now) (weight other.now) }
    {
        if !self.kept {
            return other.kept;
        }
        if !other.kept {
            return false;
        }
        if self.pix != other.pix {
            return self.pix < other.pix;
        }
        let (mine, theirs) = (self.item, other.item);
        theirs < mine
    }
}

/// The lighter of two; the first if they weigh the same.
pub fn lighter_of(left: Leaf, right: Leaf) -> Leaf
    ensures { result ≡ lighter left right }
{
    if right.is_lighter(&left) { right } else { left }
}
