//! The array of a table's pointers, one for each bucket.
use crate::bucket_pointer::BucketPointer;
use thread_local_base::BUCKETS;

mod lends;

/// A pointer for each bucket. Dropping it frees nothing.
#[derive(Drop)]
pub struct PointerArray<T> {
    pub(crate) pointers: [BucketPointer<T>; BUCKETS],
}
