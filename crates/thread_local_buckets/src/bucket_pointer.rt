//! A bucket's pointer for one owner: null, or to a block of slots.
ghost use Rattle.std.specs.Prelude.{◌≡◌, ◌⊎◌, ℕ, ◌+◌, ◌*◌, ◌/◌, ◌<◌, List, [], length, Option, Some, None, is_some, IsSome, nat_lt, slice_set};
ghost use base.Stored.{coded_list};
ghost use Rattle.std.specs.Coded.{coded_option};
ghost use Rattle.thread_local_base.specs.Bits.{is_set};
ghost use Rattle.thread_local_buckets.specs.Slots.{heap_token, slot_value, empty_slots, flag_word_at};
ghost use Rattle.thread_local_buckets.specs.PointerOwns.{pointer_owns};

use crate::bytes::bytes_of_block;
use crate::{Block, Chunk, EmptyingBlock, flag_word_at};
use std::alloc::Global;
use std::marker::{Model, PhantomData};
use std::ptr::null_mut;

mod lends;

/// A bucket's pointer: null, or to a block of slots, with the right to free it. It has no slots
/// where it is null. No call takes memory.
pub struct BucketPointer<T> {
    pub(crate) at: *mut Chunk<T>,
    pub ghost slots: { List (Option T) } by { coded_list (coded_option T.code) },
}

impl<T> Model for BucketPointer<T> {
    ghost also_owns = { λ w. pointer_owns T.row heap_token w.at w.slots };
}

impl<T> BucketPointer<T> {
    /// Whether it points to a block.
    #[inline]
    pub fn stands(&mut self) -> bool
        ensures value { result ≡ nat_lt 0 (length self.old.slots) }
        ensures same { self.new ≡ self.old }
    {
        !self.at.is_null()
    }

    /// Points it, null so far, to a block whose flags are all made.
    pub fn lay(&mut self, block: Block<T, Global>)
        requires null { self.old.slots ≡ [] }
        requires made { (block.left ≡ 0) × (0 < length block.slots) }
        ensures { self.new.slots ≡ block.slots }
    {
        let Block { at, marker: _ } = block;
        self.at = at;
    }

    /// Takes the block, and becomes null. Any handle to the heap may free the block.
    pub fn lift(&mut self, alloc: &Global) -> Block<T, Global>
        requires { 0 < length self.old.slots }
        ensures null { self.new.slots ≡ [] }
        ensures block { (result.heap ≡ alloc.now) × (result.slots ≡ self.old.slots) × (result.left ≡ 0) }
    {
        let _ = alloc;
        let at = self.at;
        self.at = null_mut();
        Block {
            at,
            marker: PhantomData,
        }
    }

    /// The flags of a chunk's slots, a bit each: the word of this number. The bits past the last
    /// slot are 0.
    #[inline]
    pub fn flags(&mut self, chunk: usize, flag_word: usize) -> u64
        requires in_block { chunk * 64 < length self.old.slots }
        requires flag_word { flag_word ≡ flag_word_at T.row (length self.old.slots) chunk }
        ensures value { (bit : ℕ)
            → bit < 64
            → is_set result bit ≡ is_some (slot_value self.old.slots (chunk * 64 + bit)) }
        ensures same { self.new ≡ self.old }
    {
        let _ = chunk;
        unsafe { *(self.at as *mut u64).add(flag_word) }
    }

    /// Puts a value into an empty slot, and then stores `flags` as the word of this number, which is
    /// the slot's. `flags` are those of the slot's chunk, with this slot's set.
    #[inline]
    pub fn publish_and_store(&mut self, index: usize, flag_word: usize, flags: u64, value: T)
        requires in_block { index < length self.old.slots }
        requires flag_word { flag_word ≡ flag_word_at T.row (length self.old.slots) (index / 64) }
        requires empty { slot_value self.old.slots index ≡ None }
        requires flags { (bit : ℕ)
            → bit < 64
            → is_set flags bit
            ≡ is_some (slot_value (slice_set self.old.slots index (Some value)) (index / 64 * 64 + bit)) }
        ensures { self.new.slots ≡ slice_set self.old.slots index (Some value) }
    {
        let at = self.at;
        unsafe {
            (at as *mut T).add(index).write(value);
            (at as *mut u64).add(flag_word).write(flags);
        }
    }

    /// Stores `flags` as the word of this number, which is the slot's, and then moves the slot's
    /// value out. `flags` are those of the slot's chunk, with this slot's cleared.
    #[inline]
    pub fn take_and_store(&mut self, index: usize, flag_word: usize, flags: u64) -> T
        requires in_block { index < length self.old.slots }
        requires flag_word { flag_word ≡ flag_word_at T.row (length self.old.slots) (index / 64) }
        requires published { IsSome (slot_value self.old.slots index) }
        requires flags { (bit : ℕ)
            → bit < 64
            → is_set flags bit
            ≡ is_some (slot_value (slice_set self.old.slots index None) (index / 64 * 64 + bit)) }
        ensures value { slot_value self.old.slots index ≡ Some result }
        ensures after { self.new.slots ≡ slice_set self.old.slots index None }
    {
        let at = self.at;
        unsafe {
            (at as *mut u64).add(flag_word).write(flags);
            (at as *mut T).add(index).read()
        }
    }
}

impl<T: Drop> BucketPointer<T> {
    /// Drops the values of the block, and keeps the block. It has `len` slots, all empty then.
    pub fn empty(&mut self, len: usize)
        requires { length self.old.slots ≡ len }
        ensures { self.new.slots ≡ empty_slots len }
    {
        'slots: for index in 0..len {
            let flag_word = flag_word_at::<T>(len, index / 64);
            let flags = self.flags(index / 64, flag_word);
            if flags >> (index % 64) & 1 == 1 {
                drop(self.take_and_store(index, flag_word, flags & !(1 << (index % 64))));
            }
        }
    }

    /// Drops the values of the block and frees it, where there is a block. `len` is how many slots
    /// it has.
    pub fn release(&mut self, len: usize, alloc: &Global)
        requires { (self.old.slots ≡ []) ⊎ (length self.old.slots ≡ len) }
        ensures { self.new.slots ≡ [] }
    {
        if !self.stands() {
            return;
        }
        let mut emptying = EmptyingBlock::of(self.lift(alloc), 0);
        'slots: for index in 0..len {
            let flag_word = flag_word_at::<T>(len, index / 64);
            if emptying.is_next_published(index, flag_word) {
                drop(emptying.move_next(index));
            }
        }
        emptying.deallocate(alloc, len, bytes_of_block::<T>(len));
    }
}

/// A null pointer.
impl<T> Default for BucketPointer<T> {
    ghost is_default = { λ pointer. pointer.slots ≡ [] };

    fn default() -> Self {
        BucketPointer { at: null_mut() }
    }
}

/// Dropping a pointer frees nothing. Its owner frees the block first, since a pointer doesn't know
/// how many slots its block has.
impl<T> Drop for BucketPointer<T> {
    fn drop(self) {
        let Self { at: _ } = self;
    }
}

unsafe impl<T: Send> Send for BucketPointer<T> {}
