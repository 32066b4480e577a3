//! The pointers of a table, which contracts see as its contents.
ghost use Rattle.std.specs.Prelude.{◌≡◌, ℕ, ◌+◌, ◌*◌, ◌/◌, ◌^◌, ◌<◌, true, false, [], length, Some, None, is_some, OnOk, OnErr, IsSome};
ghost use Rattle.thread_local_base.specs.Bits.{is_set};
ghost use Rattle.thread_local_base.specs.Buckets.{row, stands, no_contents, IsTable};
ghost use Rattle.thread_local_base.specs.Rows.{value_in, with_row, with_slot, empty_row};
ghost use Rattle.thread_local_buckets.specs.Announced.{Covers};
ghost use Rattle.thread_local_buckets.specs.Cursor.{AreFlagsAt};
ghost use Rattle.thread_local_buckets.specs.Slots.{flag_word_at};

use crate::announced::FIRST_SEVEN;
use crate::pointer_array::PointerArray;
use crate::{Block, BucketBits, FlagSource, flag_word_at};
use std::alloc::{AllocError, Global};
use std::marker::Model;
use std::mem::forget;
use thread_local_base::{Thread, bucket_size};

mod clearing;
mod counting;
mod lends;
mod placing;

/// The pointers of a table, one for each of its buckets, the heap that their blocks come from, and two
/// words of buckets. Contracts see the contents.
///
/// Only `ensure_bucket` takes memory, and no call takes a lock. A value's drop may wait: `clear` and
/// `publish_or_drop` drop values. Dropping the pointers drops every value and frees every block.
pub struct BucketPointers<T> {
    pointers: PointerArray<T>,
    alloc: Global,
    /// The announced buckets, among them each that holds a value and the first seven.
    announced: BucketBits,
    /// The buckets that were made here. Each other one that stands is announced.
    made: BucketBits,
}

impl<T> Model for BucketPointers<T> {
    ghost use Rattle.thread_local_base.specs.Buckets.{Contents, IsTable};
    ghost use Rattle.thread_local_base.specs.Code.{contents_coded};
    ghost use Rattle.std.specs.Prelude.{bit_or};
    ghost use Rattle.thread_local_buckets.specs.Announced.{Announces, Covers};
    ghost use Rattle.thread_local_buckets.specs.Pointers.{contents_of};

    ghost Value = { Contents T };

    ghost coded = { contents_coded T.code };

    ghost view = { λ w. contents_of w.pointers };

    ghost invariant = { λ w.
        IsTable (contents_of w.pointers)
        × Announces w.announced.bits (contents_of w.pointers)
        × Covers (bit_or w.announced.bits w.made.bits) (contents_of w.pointers) };
}

impl<T> BucketPointers<T> {
    /// Pointers without a bucket.
    pub fn new(alloc: Global) -> BucketPointers<T>
        ensures { result ≡ no_contents }
    {
        BucketPointers {
            pointers: PointerArray {
                pointers: Default::default(),
            },
            alloc,
            announced: BucketBits { bits: FIRST_SEVEN },
            made: BucketBits { bits: 0 },
        }
    }

    /// A word with a bit for each bucket that stands. Announced buckets have one, too.
    #[inline]
    pub fn standing(&mut self) -> u64
        ensures covers { Covers result self.old }
        ensures some { 0 < result }
        ensures table { IsTable self.old }
        ensures same { self.new ≡ self.old }
    {
        self.announced.bits | self.made.bits
    }

    /// Stores `flags` for a slot's chunk, and then moves the slot's value out. `flags` are the
    /// chunk's, with this slot's cleared. The caller passes the bucket's size, and the chunk, which
    /// a walk computes once for all its values.
    #[inline]
    pub fn take_and_store(
        &mut self,
        bucket: usize,
        size: usize,
        chunk: usize,
        index: usize,
        flags: u64,
    ) -> T
        requires in_table { bucket < 63 }
        requires size { size ≡ 2 ^ bucket }
        requires chunk { chunk ≡ index / 64 }
        requires in_bucket { index < length (row self.old bucket) }
        requires published { IsSome (value_in self.old bucket index) }
        requires flags { AreFlagsAt (with_slot self.old bucket index None) bucket index flags }
        ensures value { value_in self.old bucket index ≡ Some result }
        ensures after { self.new ≡ with_slot self.old bucket index None }
    {
        let flag_word = flag_word_at::<T>(size, chunk);
        self.pointers
            .pointer_mut(bucket)
            .take_and_store(index, flag_word, flags)
    }
}

impl<T: Drop> Drop for BucketPointers<T> {
    fn drop(mut self) {
        self.clear(0);
        let Self {
            pointers,
            alloc: _,
            announced: _,
            made: _,
        } = self;
        // Each is null.
        forget(pointers);
    }
}

impl<T> FlagSource for BucketPointers<T> {
    type Value = T;

    ghost contents = { λ pointers. pointers };

    ghost given = { λ _. 0 };

    /// Whether the bucket stands.
    #[inline]
    fn stands(&mut self, bucket: usize) -> bool
        requires { bucket < 63 }
        ensures same { self.new ≡ self.old }
        ensures value { result ≡ stands self.old bucket }
        ensures whole { result ≡ true → length (row self.old bucket) ≡ 2 ^ bucket }
        ensures absent { result ≡ false → row self.old bucket ≡ [] }
        ensures table { IsTable self.old }
    {
        self.pointers.pointer_mut(bucket).stands()
    }

    /// The flags of a chunk's slots, a bit each. The bits past the last slot are 0.
    #[inline]
    fn flags(&mut self, bucket: usize, chunk: usize, flag_word: usize) -> u64
        requires in_table { bucket < 63 }
        requires in_bucket { chunk * 64 < length (row self.old bucket) }
        requires flag_word { flag_word ≡ flag_word_at T.row (2 ^ bucket) chunk }
        ensures same { self.new ≡ self.old }
        ensures value { (bit : ℕ)
            → bit < 64
            → is_set result bit ≡ is_some (value_in self.old bucket (chunk * 64 + bit)) }
        ensures table { IsTable self.old }
    {
        self.pointers.pointer_mut(bucket).flags(chunk, flag_word)
    }
}
