//! The search of the held cycles, an array over the items.
//!
//! For an item that isn't held, the array has a number that no entry reaches. So one search by `first_not_below` tests the
//! entries of a new read against all held reads at once.

ghost use Rattle.std.specs.Prelude.{◌≡◌, length};
ghost use Rattle.held_reads.specs.Private.FirstClash.{IsFirstClash};

use air_base::Clash;
use air_lanes::first_not_below;

/// What the array has for an item that isn't held.
pub const NOT_HELD: u32 = u32::MAX;

/// Returns the clash with the first item at which the entries aren't below its held cycle; there are `n` items.
pub fn first_clash(entries: &[u32], cycles: &[u32], n: u16) -> Option<Clash>
    requires entries { length entries.now ≡ n }
    requires cycles { length cycles.now ≡ n }
    ensures { IsFirstClash entries.now cycles.now result }
{
    let item = first_not_below(entries, cycles)?;
    Some(Clash {
        item: item as u16,
        cycle: cycles[item],
    })
}
