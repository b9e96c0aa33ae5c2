//! The records of an indexed tape.

use crate::index_view::IndexView;
use bucket_codec::BucketView;

/// A record of an indexed tape.
#[derive(Drop)]
pub enum Indexed<'a> {
    /// An index record.
    Index(IndexView<'a>),
    /// A data record: how many records on the next index record is, and the bucket.
    Payload { wait: u32, bucket: BucketView<'a> },
}
