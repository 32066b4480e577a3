//! Stands apart since, as a limit of the toolchain, no clause in a type's own file names its `the_row`.
//! Here the pointers lend a value.
ghost use Rattle.std.specs.Prelude.{◌≡◌, ◌<◌, length, Some, IsSome};
ghost use types.Logic.{sem};
ghost use Rattle.std.specs.Borrow.{follows};
ghost use Rattle.thread_local_base.specs.Buckets.{row};
ghost use Rattle.thread_local_base.specs.Rows.{value_in, with_slot};
ghost use Rattle.thread_local_buckets.specs.contracts.bucket_pointers.BucketPointers.{the_row};

use super::BucketPointers;
use thread_local_base::Thread;

impl<T> BucketPointers<T> {
    /// Lends the value in the slot of a place for writing.
    #[inline]
    pub fn get_mut(&mut self, thread: Thread) -> &mut T
        requires in_bucket { thread.index < length (row self.old thread.bucket) }
        requires published { IsSome (value_in self.old thread.bucket thread.index) }
        ensures* writes_back { sem 𝓛
            (follows (the_row T.row) T.row self.entry.ghost_name result.ghost_name
            (λ x. with_slot self.old thread.bucket thread.index (Some x))) }
        ensures value { value_in self.old thread.bucket thread.index ≡ Some result.now }
    {
        self.pointers
            .pointer_mut(thread.bucket)
            .get_mut(thread.index)
    }
}
