//! Why bytes are no bucket, and the laws of the bucket's bytes.
//!
//! `specs/Buckets.antt` has the definitions: the spelling, the relation and the reading. The codec depends on them.

ghost use Rattle.std.specs.Prelude.{◌≡◌, ◌↔◌, ℕ, List, [], ◌++◌, Ok};
ghost use Rattle.air_model.specs.Buckets.{AreBytes, Bucket, IsBucket, reading};

use std::error::Error;
use std::fmt;

/// Why bytes are no bucket: the first of these that applies.
#[derive(Clone, Copy, Debug, PartialEq, Eq)]
pub enum BucketFault {
    /// There are fewer than the 24 bytes of the head; `at` is their number.
    Short { at: u32 },
    /// The first two bytes aren't the magic.
    Magic,
    /// The version is neither 1 nor 2.
    Version,
    /// The kind is none of idle, column and vector.
    Kind,
    /// The number of bytes isn't that of the version, the kind and the count.
    Length,
    /// A number is outside its range.
    Shape,
}

impl fmt::Display for BucketFault {
    fn fmt<W: fmt::Write>(&self, f: &mut fmt::Formatter<W>) -> fmt::Result {
        match self {
            BucketFault::Short { at } => write!(f, "{at} bytes, and a bucket has at least 24"),
            BucketFault::Magic => f.write_str("the first two bytes aren't a bucket's"),
            BucketFault::Version => f.write_str("the version is neither 1 nor 2"),
            BucketFault::Kind => f.write_str("the kind is none of idle, column and vector"),
            BucketFault::Length => {
                f.write_str("the number of bytes isn't that of the kind and the count")
            }
            BucketFault::Shape => f.write_str("a number is outside its range"),
        }
    }
}

impl Error for BucketFault {}

/// Bytes are a bucket if and only if that bucket is read from them. So a fault is found if and only if they are no bucket.
pub fn reading_law()
    ensures { (bytes : List ℕ) (b : Bucket) → AreBytes bytes → IsBucket bytes b ↔ (reading bytes ≡ Ok b) }
{}

/// Bytes are at most one bucket.
pub fn one_bucket_law()
    ensures { (bytes : List ℕ) (a b : Bucket) → IsBucket bytes a → IsBucket bytes b → a ≡ b }
{}

/// No bucket's bytes begin with another's.
pub fn no_prefix_law()
    ensures { (bytes rest : List ℕ) (a b : Bucket) → IsBucket bytes a → IsBucket (bytes ++ rest) b → rest ≡ [] }
{}
