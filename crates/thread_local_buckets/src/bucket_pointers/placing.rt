//! What an owner does at the place of an id: make its bucket, look for a value, and publish one.
ghost use Rattle.std.specs.Prelude.{◌≡◌, ◌<◌, [], true, false, length, Some, is_some, unwrap_or, OnOk, OnErr};
ghost use Rattle.thread_local_base.specs.Buckets.{row, stands, IsTable};
ghost use Rattle.thread_local_base.specs.Rows.{value_in, with_slot};
ghost use Rattle.thread_local_base.specs.Owner.{with_bucket};

use super::BucketPointers;
use crate::{Block, FlagSource, flag_word_at};
use std::alloc::AllocError;
use thread_local_base::{Thread, bucket_size};

impl<T> BucketPointers<T> {
    /// Makes the bucket if it doesn't stand, with all its slots empty, and only then asks for memory,
    /// once. `Err` means out of memory, and nothing has changed.
    pub fn ensure_bucket(&mut self, bucket: usize) -> Result<(), AllocError>
        requires { bucket < 63 }
        ensures ok { OnOk result (self.new ≡ with_bucket self.old bucket) }
        ensures err { OnErr result (self.new ≡ self.old) }
        ensures refused { OnErr result (stands self.old bucket ≡ false) }
        ensures absent { stands self.old bucket ≡ false → row self.old bucket ≡ [] }
        ensures table { IsTable self.old }
    {
        if self.stands(bucket) {
            return Ok(());
        }
        let block = Block::new(&self.alloc, bucket_size(bucket))?;
        self.made.bits |= 1 << bucket;
        self.pointers.pointer_mut(bucket).lay(block);
        Ok(())
    }

    /// Whether the slot of a place has a value. The bucket need not stand.
    pub fn is_published(&mut self, thread: Thread) -> bool
        ensures same { self.new ≡ self.old }
        ensures value { result ≡ is_some (value_in self.old thread.bucket thread.index) }
        ensures within { result ≡ true → thread.index < length (row self.old thread.bucket) }
        ensures stands { result ≡ true → stands self.old thread.bucket ≡ true }
    {
        let chunk = thread.index / 64;
        let flag_word = flag_word_at::<T>(bucket_size(thread.bucket), chunk);
        self.stands(thread.bucket)
            && self.flags(thread.bucket, chunk, flag_word) >> (thread.index % 64) & 1 == 1
    }
}

impl<T: Drop> BucketPointers<T> {
    /// Publishes the value in the slot of a place if the slot is empty, and else drops the value. The
    /// bucket is announced then.
    pub fn publish_or_drop(&mut self, thread: Thread, value: T)
        requires in_bucket { thread.index < length (row self.old thread.bucket) }
        ensures { self.new ≡ with_slot self.old thread.bucket thread.index
            (Some (unwrap_or (value_in self.old thread.bucket thread.index) value)) }
    {
        let chunk = thread.index / 64;
        let flag_word = flag_word_at::<T>(bucket_size(thread.bucket), chunk);
        let flags = self.flags(thread.bucket, chunk, flag_word);
        if flags >> (thread.index % 64) & 1 != 1 {
            let flags = flags | 1 << (thread.index % 64);
            self.announced.bits |= 1 << thread.bucket;
            self.pointers
                .pointer_mut(thread.bucket)
                .publish_and_store(thread.index, flag_word, flags, value);
        }
    }
}
