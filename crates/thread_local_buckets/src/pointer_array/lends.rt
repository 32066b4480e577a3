//! Stands apart since, as a limit of the toolchain, no clause in a type's own file names its `the_row`.
//! Here the array lends one of its pointers.
ghost use Rattle.std.specs.Prelude.{◌≡◌, ◌<◌, slice_index_or};
ghost use types.Logic.{sem};
ghost use Rattle.std.specs.Borrow.{follows};
ghost use Rattle.thread_local_buckets.specs.contracts.bucket_pointer.BucketPointer.{the_row as pointer_row};
ghost use Rattle.thread_local_buckets.specs.contracts.pointer_array.PointerArray.{the_row};
ghost use Rattle.thread_local_buckets.specs.Pointers.{null_pointer, with_pointer};

use super::PointerArray;
use crate::bucket_pointer::BucketPointer;

impl<T> PointerArray<T> {
    /// Lends the pointer of a bucket.
    #[inline]
    pub fn pointer_mut(&mut self, bucket: usize) -> &mut BucketPointer<T>
        requires { bucket < 63 }
        ensures* writes_back { sem 𝓛
            (follows (the_row T.row) (pointer_row T.row) self.entry.ghost_name result.ghost_name
            (with_pointer self.old bucket)) }
        ensures value { result.now ≡ slice_index_or self.old.pointers bucket null_pointer }
    {
        &mut self.pointers[bucket]
    }
}
