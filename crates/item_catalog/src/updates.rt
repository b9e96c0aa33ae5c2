//! The lists of a record: the items that are read, and the writes of an update, each read from its text.

pub(crate) mod item_lists;
pub(crate) mod leading_writes;
pub(crate) mod plain_writes;
pub(crate) mod write_lists;
