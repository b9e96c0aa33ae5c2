//! Bytes that are kept for a device in memory: a room of fixed length, and the room of a tape.

pub mod fixed_bytes;
pub mod tape_room;
