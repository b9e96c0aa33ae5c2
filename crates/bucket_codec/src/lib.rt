//! Buckets and tapes as bytes, both ways.
//!
//! `encoding` writes the one spelling of a bucket, `view` reads a bucket from a datagram or names its first fault, and `tape`
//! writes records and reads them back. `offsets` says where each field is, and `entries` how each version has the entries. The
//! contracts use the definitions of `air_model`. No call takes memory: entries and records are lent from the bytes that were
//! given.
#![tactic(auto)]

pub mod encoding;
mod entries;
pub mod offsets;
pub mod tape;
pub mod view;

pub use air_model::bucket::BucketFault;
pub use encoding::{Body, Bucket, encode, size_of};
pub use entries::entry_size;
pub use tape::{TapeFault, TapeReader, check_tape, tape_record};
pub use view::{BucketView, ViewKind, decode};
