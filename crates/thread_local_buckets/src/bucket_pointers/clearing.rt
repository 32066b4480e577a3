//! Clearing a table: every value is dropped, reserved buckets stay, and all others are freed.
ghost use Rattle.std.specs.Prelude.{◌≡◌, ℕ, ◌<◌, IsTrue};
ghost use Rattle.thread_local_base.specs.Place.{id_at};
ghost use Rattle.thread_local_base.specs.Buckets.{row, stands, IsTable};
ghost use Rattle.thread_local_base.specs.Owner.{cleared_row};

use super::BucketPointers;
use thread_local_base::bucket_size;

impl<T: Drop> BucketPointers<T> {
    /// Drops every value. A bucket that has one of the first `reserved` slots stays, and every
    /// other is freed. The last bucket that may stand comes first, since the heap takes blocks back
    /// faster in this order.
    #[inline(never)]
    pub fn clear(&mut self, reserved: usize)
        requires standing { (bucket : ℕ) → bucket < 63 → id_at bucket 0 < reserved → IsTrue (stands self.old bucket) }
        ensures rows { (bucket : ℕ) → bucket < 63 → row self.new bucket ≡ cleared_row reserved bucket }
        ensures table { IsTable self.new }
    {
        let last = self.standing().ilog2() as usize;
        'buckets: for done in 0..last + 1 {
            let bucket = last - done;
            let size = bucket_size(bucket);
            if size <= reserved {
                self.pointers.pointer_mut(bucket).empty(size);
            } else {
                self.pointers.pointer_mut(bucket).release(size, &self.alloc);
            }
        }
    }
}
