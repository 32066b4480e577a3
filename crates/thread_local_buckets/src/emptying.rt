//! A block that is being emptied: its first slots are room again, and the others are still slots,
//! each empty or with a value.
ghost use Rattle.std.specs.Prelude.{◌≡◌, ℕ, ◌+◌, ◌/◌, ◌<◌, List, [], length, take, drop, Option, Some, is_some, IsSome, if◌then◌else◌};
ghost use base.Stored.{coded_list};
ghost use Rattle.std.specs.Coded.{coded_option};
ghost use Rattle.thread_local_buckets.specs.Slots.{slot_value, empty_slots, slots_ty, flag_word_at, Fits};
ghost use prog.Memory.{size};
ghost use Rattle.thread_local_buckets.specs.Emptying.{emptying_owns, rest};

use crate::block::Block;
use crate::chunk::Chunk;
use std::alloc::Allocator;
use std::marker::{Model, PhantomData};
use std::mem::align_of;

/// A block that is being emptied: its first `gone` slots are room again, whatever their flags say,
/// and the others are still slots.
///
/// A slot's flag stays as it is when its value is dropped. So where dropping a value does nothing,
/// the pass over the slots does nothing either.
pub struct EmptyingBlock<T, A: Allocator> {
    at: *mut Chunk<T>,
    marker: PhantomData<A>,
    pub ghost heap: { A },
    pub ghost slots: { List (Option T) } by { coded_list (coded_option T.code) },
    pub ghost gone: { ℕ },
}

impl<T, A: Allocator> Model for EmptyingBlock<T, A> {
    ghost also_owns = { λ l. emptying_owns T.row (A.dealloc_token l.heap) l.at l.gone l.slots };
}

impl<T, A: Allocator> EmptyingBlock<T, A> {
    /// Begins to empty a block, whose first `gone` slots are empty and become room at once.
    #[inline]
    pub fn of(block: Block<T, A>, gone: usize) -> EmptyingBlock<T, A>
        requires whole { block.left ≡ 0 }
        requires empty { take gone block.slots ≡ empty_slots gone }
        ensures { (result.heap ≡ block.heap)
            × (result.slots ≡ drop gone block.slots)
            × (result.gone ≡ gone) }
    {
        let _ = gone;
        let Block { at, marker: _ } = block;
        EmptyingBlock {
            at,
            marker: PhantomData,
        }
    }

    /// Whether the next slot has a value, by its flag in the word of this number. A slot without
    /// one becomes room.
    #[inline]
    pub(crate) fn is_next_published(&mut self, index: usize, flag_word: usize) -> bool
        requires next { (index ≡ self.old.gone) × (0 < length self.old.slots) }
        requires flag_word { flag_word ≡ flag_word_at T.row (self.old.gone + length self.old.slots) (index / 64) }
        ensures value { result ≡ is_some (slot_value self.old.slots 0) }
        ensures after { (self.new.heap ≡ self.old.heap)
            × (self.new.slots ≡ (if result then self.old.slots else rest self.old.slots))
            × (self.new.gone ≡ (if result then self.old.gone else self.old.gone + 1)) }
    {
        unsafe {
            let flags = *(self.at as *mut u64).add(flag_word);
            (flags >> (index % 64)) & 1 == 1
        }
    }

    /// Moves the value out of the next slot, which becomes room.
    #[inline]
    pub(crate) fn move_next(&mut self, index: usize) -> T
        requires in_block { (index ≡ self.old.gone) × (0 < length self.old.slots) }
        requires published { IsSome (slot_value self.old.slots 0) }
        ensures value { slot_value self.old.slots 0 ≡ Some result }
        ensures after { (self.new.heap ≡ self.old.heap)
            × (self.new.slots ≡ rest self.old.slots)
            × (self.new.gone ≡ self.old.gone + 1) }
    {
        unsafe { (self.at as *mut T).add(index).read() }
    }

    /// Frees the block, once all its slots are room. It takes `bytes`.
    pub fn deallocate(self, alloc: &A, len: usize, bytes: usize)
        requires left { (self.heap ≡ alloc.now) × (self.slots ≡ []) × (self.gone ≡ len) }
        requires size { Fits T.row len → bytes ≡ size (slots_ty T.row len) }
    {
        let _ = len;
        let Self { at, marker: _ } = self;
        unsafe {
            alloc.deallocate(at as *mut u8, bytes, align_of::<Chunk<T>>());
        }
    }
}
