//! The ether of one reader: which pushed buckets it hears, how often, and when.
//!
//! An ether draws three words for each push, whether it is heard or not (`odds`). It keeps only the last `KEPT` pushes
//! (`waiting`), so no call but `new` takes memory. What `next` gives is the heard list of all that was pushed: `cursor` finds
//! the next of its members that is due. `PlaceEther` gives the places of the heard list alone (`place_ether`). `laws` says what is due
//! before and after the end.
#![tactic(auto)]

mod cursor;
pub mod ether;
pub mod laws;
mod odds;
pub mod place_ether;
mod waiting;

pub use air_base::NoMemory;
pub use ether::{Ether, MOST_BYTES, MOST_DUE, MOST_PUSHES};
pub use place_ether::PlaceEther;
