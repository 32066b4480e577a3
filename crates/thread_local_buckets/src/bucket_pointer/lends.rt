//! Stands apart since, as a limit of the toolchain, no clause in a type's own file names its `the_row`.
//! Here a bucket's pointer lends a value.
ghost use Rattle.std.specs.Prelude.{◌≡◌, ◌<◌, length, Some, IsSome};
ghost use types.Logic.{sem};
ghost use Rattle.std.specs.Borrow.{follows};
ghost use Rattle.thread_local_buckets.specs.contracts.bucket_pointer.BucketPointer.{the_row};
ghost use Rattle.thread_local_buckets.specs.Slots.{slot_value};
ghost use Rattle.thread_local_buckets.specs.LentValue.{with_slot_value};

use super::BucketPointer;

impl<T> BucketPointer<T> {
    /// Lends the value in a slot for writing.
    #[inline]
    pub fn get_mut(&mut self, index: usize) -> &mut T
        requires in_block { index < length self.old.slots }
        requires published { IsSome (slot_value self.old.slots index) }
        ensures* writes_back { sem 𝓛
            (follows (the_row T.row) T.row self.entry.ghost_name result.ghost_name
            (with_slot_value self.old index)) }
        ensures value { slot_value self.old.slots index ≡ Some result.now }
    {
        unsafe { &mut *(self.at as *mut T).add(index) }
    }
}
