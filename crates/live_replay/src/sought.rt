//! The items that a backward walk looks for: those that a commit reads whose writer it hasn't met yet.

ghost use Rattle.std.specs.Prelude.{◌≡◌, ◌==◌, ◌<◌, ℕ, false, not, ◌&&◌, ◌||◌, All, IfOk, OnOk, length, get_or};
ghost use Rattle.std.specs.List.{list_any};

use air_base::NoMemory;
use air_history::Write;
use std::alloc::Global;

/// This many flags, none of which is set.
pub fn none_set(alloc: Global, count: usize) -> Result<Vec<bool>, NoMemory>
    ensures sized { IfOk result (λ flags. length flags.items ≡ count) }
    ensures clear { IfOk result (λ flags. (i : ℕ) → get_or flags.items i false ≡ false) }
{
    Ok(vec![in alloc; false; count]?)
}

/// Makes a list this many flags, none of which is set. What was in it before doesn't matter.
pub fn clear_flags(count: usize, flags: &mut Vec<bool>) -> Result<(), NoMemory>
    ensures sized { OnOk result (length flags.new.items ≡ count) }
    ensures clear { OnOk result ((i : ℕ) → get_or flags.new.items i false ≡ false) }
{
    flags.clear();
    flags.resize(count, false)?;
    Ok(())
}

/// Whether a write is of an item that is looked for.
pub fn writes_sought(writes: &[Write], sought: &[bool]) -> bool
    requires { All (λ w. w.item < length sought.now) writes.now }
    ensures { result ≡ list_any (λ w. get_or sought.now w.item false) writes.now }
{
    for write in writes {
        if sought[write.item as usize] {
            return true;
        }
    }
    false
}

/// Looks for the items that are written no longer.
pub fn forget_written(writes: &[Write], sought: &mut [bool])
    requires { All (λ w. w.item < length sought.old) writes.now }
    ensures { (i : ℕ) → get_or sought.new i false ≡
        (get_or sought.old i false && not (list_any (λ w. w.item == i) writes.now)) }
{
    for write in writes {
        sought[write.item as usize] = false;
    }
}

/// Looks for the items that are read, too.
pub fn seek_read(reads: &[u16], sought: &mut [bool])
    requires { All (λ r. r < length sought.old) reads.now }
    ensures { (i : ℕ) → get_or sought.new i false ≡
        (get_or sought.old i false || list_any (λ r. r == i) reads.now) }
{
    for item in reads {
        sought[*item as usize] = true;
    }
}
