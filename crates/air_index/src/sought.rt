//! What comes of seeking an item on an indexed tape.

/// Where an item was found, or that it is lost.
#[derive(Clone, Copy, Debug, PartialEq, Eq)]
pub enum Sought {
    /// The item's data record is that at `place`, counted from 0. Its bucket has this cycle, and this value of the item.
    Found {
        opens: u32,
        place: u64,
        cycle: u32,
        value: u64,
    },
    /// The search ends without it. `opens` is in both how many records were opened.
    Lost {
        opens: u32,
    },
}
