//! The steps of the walks that move values out of an owner's buckets.
ghost use Rattle.std.specs.Prelude.{◌≡◌, ◌+◌, ◌<◌, ◌∷◌};
ghost use Rattle.thread_local_base.specs.Buckets.{values};
ghost use Rattle.thread_local_base.specs.Walk.{walk, paired};
ghost use Rattle.thread_local_buckets.specs.Cursor.{values_left, IsOwnerWalk};
ghost use Rattle.thread_local_base.specs.Owner.{emptied};
ghost use Rattle.thread_local_buckets.specs.Emptied.{owned_emptied};

use super::Buckets;
use crate::OwnerCursor;

impl<T> Buckets<T> {
    /// Moves out the next value of a walk, of which there must be one, and returns it with its id.
    /// Its flag is cleared before it moves out.
    #[inline(always)]
    pub(crate) fn take_next(&mut self, cursor: &mut OwnerCursor) -> (usize, T)
        requires walk { IsOwnerWalk self.old.contents cursor.old }
        requires some { 0 < values_left cursor.old }
        ensures walk { IsOwnerWalk self.new.contents cursor.new }
        ensures first { walk (paired (values self.old.contents)) ≡ result ∷ walk (paired (values self.new.contents)) }
        ensures left { values_left cursor.new + 1 ≡ values_left cursor.old }
        ensures ends { values_left cursor.new ≡ 0 → emptied self.new.contents ≡ self.new.contents }
        ensures leaves { owned_emptied self.new ≡ owned_emptied self.old }
    {
        if cursor.rest == 0 {
            cursor.read_on(&mut self.pointers);
        }
        let bit = cursor.pass(&mut self.pointers);
        let index = cursor.raw.index - 64 + bit;
        let size = cursor.raw.bucket_size;
        let value = self
            .pointers
            .take_and_store(cursor.raw.bucket, size, cursor.chunk, index, cursor.rest);
        (index + (size - 1), value)
    }

    /// Drops every value, and keeps every bucket. It counts the values anew, since in a drop
    /// nothing is known of the cursor but whether values are left.
    pub(crate) fn drop_rest(&mut self)
    where
        T: Drop,
        ensures { self.new ≡ owned_emptied self.old }
    {
        let mut cursor = self.pointers.begin_walk();
        for _ in 0..cursor.len() {
            let (_, value) = self.take_next(&mut cursor);
            drop(value);
        }
    }
}
