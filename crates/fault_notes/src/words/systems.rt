//! What the system said of a mast or an ear that failed.

use crate::words::texts::ShownText;
use air_base::NoMemory;
use std::alloc::Global;

/// What the system said of a failed call, which names the call and the port, and after how many datagrams it failed.
pub fn air_note(alloc: Global, failure: &str, after: u64) -> Result<String, NoMemory> {
    let failure = ShownText::whole(failure);
    let datagrams = if after == 1 { "datagram" } else { "datagrams" };
    Ok(format!(in alloc; "airdisk: {failure}, after {after} {datagrams}")?)
}
