//! A bucket's pointer.

use crate::same::assert_same;
use std::mem::size_of;
use thread_local_buckets::BucketPointer;

#[test]
fn a_bucket_pointer_is_one_pointer(rt: HostRuntime) {
    assert_same(&rt, size_of::<BucketPointer<u64>>(), 8);
}
