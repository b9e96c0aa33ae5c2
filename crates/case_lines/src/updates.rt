//! The lists of an update, spelled as in a deck: `reads` and `writes` with a space before each item and each write.
//!
//! A caller puts a word before the list.

use air_base::{NoMemory, write_u64};
use air_history::Write;

/// Adds the number of each item.
pub fn add_items(items: &[u16], out: &mut Vec<u8>) -> Result<(), NoMemory> {
    for item in items {
        out.push(b' ')?;
        write_u64(u64::from(*item), out)?;
    }
    Ok(())
}

/// Adds each write: its item, its base if it has one, and its amount.
pub fn add_writes(writes: &[Write], out: &mut Vec<u8>) -> Result<(), NoMemory> {
    for write in writes {
        out.push(b' ')?;
        write_u64(u64::from(write.item), out)?;
        out.push(b'=')?;
        if let Some(base) = write.base {
            write_u64(u64::from(base), out)?;
        }
        if write.minus {
            out.push(b'-')?;
        } else if write.base.is_some() {
            out.push(b'+')?;
        }
        write_u64(write.amount, out)?;
    }
    Ok(())
}
