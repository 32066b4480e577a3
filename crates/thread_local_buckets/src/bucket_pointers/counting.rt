//! Counting the values of a table by the flags of its slots, 64 at a time.
ghost use Rattle.std.specs.Prelude.{◌≡◌, ◌+◌, ◌/◌, ◌^◌, ◌<◌, ◌≤◌, length};
ghost use Rattle.thread_local_base.specs.Place.{id_at};
ghost use Rattle.thread_local_base.specs.Buckets.{row, values};
ghost use Rattle.thread_local_base.specs.Walk.{walk};
ghost use Rattle.thread_local_base.specs.Counting.{count_below};
ghost use Rattle.thread_local_base.specs.Owner.{emptied};
ghost use Rattle.thread_local_buckets.specs.Announced.{Announces, AreAhead, HasNone};
ghost use Rattle.thread_local_buckets.specs.Counted.{counted_to};
ghost use Rattle.thread_local_buckets.specs.Cursor.{values_left, IsOwnerWalk};

use super::BucketPointers;
use crate::announced::FIRST_SEVEN;
use crate::{FlagSource, OwnerCursor, RawIter, flag_word_at, take_first_bucket};
use thread_local_base::bucket_size;

impl<T> BucketPointers<T> {
    /// How many values the chunks `from..to` of a bucket have.
    #[inline]
    fn count_in_chunks(&mut self, bucket: usize, size: usize, from: usize, to: usize) -> usize
        requires in_table { bucket < 63 }
        requires size { size ≡ 2 ^ bucket }
        requires whole { length (row self.old bucket) ≡ 2 ^ bucket }
        requires order { from ≤ to }
        requires inside { to ≤ (2 ^ bucket + 63) / 64 }
        ensures same { self.new ≡ self.old }
        ensures counted { counted_to self.old bucket from + result ≡ counted_to self.old bucket to }
    {
        let mut count = 0;
        for chunk in from..to {
            let flag_word = flag_word_at::<T>(size, chunk);
            count += self.flags(bucket, chunk, flag_word).count_ones() as usize;
        }
        count
    }

    /// How many values eight chunks have, from this one on. They are counted only where not all of
    /// their words are 0.
    #[inline]
    fn count_in_eight(&mut self, bucket: usize, size: usize, chunk: usize) -> usize
        requires in_table { bucket < 63 }
        requires size { size ≡ 2 ^ bucket }
        requires whole { length (row self.old bucket) ≡ 2 ^ bucket }
        requires inside { chunk + 8 ≤ (2 ^ bucket + 63) / 64 }
        ensures same { self.new ≡ self.old }
        ensures counted { counted_to self.old bucket chunk + result ≡ counted_to self.old bucket (chunk + 8) }
    {
        let mut any = 0;
        for at in 0..8 {
            let flag_word = flag_word_at::<T>(size, chunk + at);
            any |= self.flags(bucket, chunk + at, flag_word);
        }
        if any == 0 {
            return 0;
        }
        self.count_in_chunks(bucket, size, chunk, chunk + 8)
    }

    /// How many values the bucket has. The caller passes the bucket's size.
    fn count_in_bucket(&mut self, bucket: usize, size: usize) -> usize
        requires in_table { bucket < 63 }
        requires whole { length (row self.old bucket) ≡ 2 ^ bucket }
        requires size { size ≡ 2 ^ bucket }
        ensures same { self.new ≡ self.old }
        ensures counted { count_below (values self.old) (id_at bucket 0) + result
            ≡ count_below (values self.old) (id_at (bucket + 1) 0) }
    {
        let chunks = (size + 63) / 64;
        let groups = chunks / 8;
        let mut count = 0;
        for group in 0..groups {
            count += self.count_in_eight(bucket, size, group * 8);
        }
        count + self.count_in_chunks(bucket, size, groups * 8, chunks)
    }

    /// How many values there are, where so many are in the first seven buckets, and these are the
    /// further buckets that are announced. It is never inlined, so that the count of a table without
    /// such buckets is short.
    #[cold]
    #[inline(never)]
    fn count_further(&mut self, counted: usize, further: u64) -> usize
        requires counted { counted ≡ count_below (values self.old) (id_at 7 0) }
        requires ahead { AreAhead (HasNone self.old) further 7 }
        ensures same { self.new ≡ self.old }
        ensures counted { result ≡ length (walk (values self.old)) }
        ensures fits { result < 2 ^ 63 }
    {
        let mut count = counted;
        let mut left = further;
        'buckets: while left != 0 {
            let (bucket, size) = take_first_bucket(&mut left);
            if self.stands(bucket) {
                count += self.count_in_bucket(bucket, size);
            }
        }
        count
    }

    /// How many values there are. It reads the flags of all slots of the announced buckets that stand,
    /// which are one word for each of the first seven.
    #[inline(never)]
    pub fn count_values(&mut self, announced: u64) -> usize
        requires announced { Announces announced self.old }
        ensures same { self.new ≡ self.old }
        ensures counted { result ≡ length (walk (values self.old)) }
        ensures fits { result < 2 ^ 63 }
    {
        let mut count = 0;
        for bucket in 0..7 {
            if self.stands(bucket) {
                count += self.count_in_chunks(bucket, bucket_size(bucket), 0, 1);
            }
        }
        let further = announced & !FIRST_SEVEN;
        if further == 0 {
            return count;
        }
        self.count_further(count, further)
    }

    /// The cursor of a walk over all values, which it counts.
    #[inline]
    pub fn begin_walk(&mut self) -> OwnerCursor
        ensures same { self.new ≡ self.old }
        ensures walk { IsOwnerWalk self.old result }
        ensures raw { result.raw ≡ record { yielded = 0; bucket = 0; bucket_size = 1; index = 0 } }
        ensures rest { result.rest ≡ 0 }
        ensures ends { values_left result ≡ 0 → emptied self.old ≡ self.old }
    {
        let announced = self.announced.bits;
        OwnerCursor {
            raw: RawIter {
                yielded: 0,
                bucket: 0,
                bucket_size: 1,
                index: 0,
            },
            read: 0,
            chunk: 0,
            rest: 0,
            later: self.count_values(announced),
            left: announced & !1,
        }
    }
}
