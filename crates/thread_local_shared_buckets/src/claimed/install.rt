//! A claim that found its bucket missing installs a block for it, with the value of its slot if there
//! is one.
ghost use Rattle.std.specs.Prelude.{◌≡◌, ◌^◌, None, IsSome, IfSome, MatchOption, slice_set};
ghost use Rattle.thread_local_buckets.specs.Slots.{empty_slots, slot_value};
ghost use Rattle.thread_local_shared_buckets.specs.Announcing.{BeginsWithFirst};
ghost use Rattle.thread_local_shared_buckets.specs.Known.{found_as, state_of};
ghost use Rattle.thread_local_base.specs.Learnt.{Missing, Vacant};
ghost use Rattle.thread_local_base.specs.Place.{IsPlaceOf, bucket_of};
ghost use Rattle.thread_local_ids.specs.Taken.{IsRightTo};
ghost use Rattle.thread_local_ids.specs.Sharings.{Belongs};

use super::{ClaimedSlot, HOLDING, VACANT};
use crate::announcements::Announced;
use crate::claim::{emptied, flag_word_of};
use crate::{Announcements, SharedBucket};
use std::alloc::Global;
use std::marker::Brand;
use std::ptr::null_mut;
use std::sync::atomic::Ordering::SeqCst;
use std::sync::atomic::raw::ptr;
use thread_local_base::{Thread, bucket_size};
use thread_local_buckets::Block;
use thread_local_ids::Right;

impl<'a, T> ClaimedSlot<'a, T> {
    /// Announces the bucket and offers a block with the value of the slot, which publishes it. Where
    /// another block was installed first, that one stays, the value is published there, and this block
    /// is freed.
    #[inline(always)]
    pub(crate) fn install(
        &mut self,
        alloc: &Global,
        thread: Thread,
        block: Block<T, Global>,
        right: &Right,
        announcements: &Announcements,
    )
        requires missing { self.old.learnt ≡ Missing }
        requires place { IsPlaceOf thread.bucket thread.index self.old.id }
        requires index { thread.index ≡ self.old.index }
        requires block { (block.heap ≡ alloc.now) × (block.left ≡ 0) }
        requires others { slice_set block.slots thread.index None ≡ empty_slots (2 ^ thread.bucket) }
        requires value { IsSome (slot_value block.slots thread.index) }
        requires right { IsRightTo self.old.table self.old.id right.now }
        requires announcements { (announcements.now ≡ self.old.word) × BeginsWithFirst announcements.now }
        requires sharing { Belongs self.old.sharing self.old.table }
        ensures same { self.new ≡ record self.old {
          at = self.new.at;
          state = self.new.state;
          learnt = self.new.learnt;
          left = self.new.left;
        } }
        ensures learnt { self.new.learnt ≡ found_as (slot_value block.slots thread.index) }
    {
        let announced = announcements.announce(thread.bucket);
        let back = self.exchange(thread.index, block, right, announced, HOLDING);
        if let Some(block) = back {
            self.publish_second(alloc, thread, block, announcements);
        }
    }

    /// Publishes the value of a block where another block was installed first, and frees that block. It
    /// is never inlined, so that the way of the first is short.
    #[cold]
    #[inline(never)]
    fn publish_second(
        &mut self,
        alloc: &Global,
        thread: Thread,
        block: Block<T, Global>,
        announcements: &Announcements,
    )
        requires vacant { self.old.learnt ≡ Vacant }
        requires place { IsPlaceOf thread.bucket thread.index self.old.id }
        requires index { thread.index ≡ self.old.index }
        requires block { (block.heap ≡ alloc.now) × (block.left ≡ 0) }
        requires others { slice_set block.slots thread.index None ≡ empty_slots (2 ^ thread.bucket) }
        requires value { IsSome (slot_value block.slots thread.index) }
        requires announcements { (announcements.now ≡ self.old.word) × BeginsWithFirst announcements.now }
        requires sharing { Belongs self.old.sharing self.old.table }
        ensures same { self.new ≡ record self.old {
          at = self.new.at;
          state = self.new.state;
          learnt = self.new.learnt;
          left = self.new.left;
        } }
        ensures learnt { self.new.learnt ≡ found_as (slot_value block.slots thread.index) }
    {
        let (value, block) = emptied(block, alloc, thread);
        block.release(alloc, bucket_size(thread.bucket));
        let flag_word = flag_word_of::<T>(thread);
        let again = announcements.announce(thread.bucket);
        self.publish(thread.index, flag_word, value, again);
    }

    /// One compare and exchange: where the bucket's pointer is null, it points to the block from
    /// then on, of whose slots only that of this id may have a value. `state` is the number of what a
    /// look at that slot finds. Else the block comes back, and the slot is vacant from then on. The
    /// bucket is announced. All ids up to this one were held at once, so as many as the bucket has
    /// slots.
    #[inline(always)]
    pub(crate) fn exchange(
        &mut self,
        index: usize,
        block: Block<T, Global>,
        right: &Right,
        announced: Announced,
        state: u64,
    ) -> Option<Block<T, Global>>
        requires missing { self.old.learnt ≡ Missing }
        requires index { index ≡ self.old.index }
        requires made { (block.left ≡ 0)
            × (slice_set block.slots self.old.index None ≡ empty_slots (2 ^ bucket_of self.old.id)) }
        requires right { IsRightTo self.old.table self.old.id right.now }
        requires announced { (announced.by ≡ self.old.word) × (announced.bucket ≡ bucket_of self.old.id) }
        requires state { state ≡ state_of (found_as (slot_value block.slots self.old.index)) }
        requires sharing { Belongs self.old.sharing self.old.table }
        ensures same { self.new ≡ record self.old {
          at = self.new.at;
          state = self.new.state;
          learnt = self.new.learnt;
          left = self.new.left;
        } }
        ensures learnt { MatchOption result
            (self.new.learnt ≡ found_as (slot_value block.slots self.old.index))
            (λ _. self.new.learnt ≡ Vacant) }
        ensures back { IfSome result (λ back.
            (back.heap ≡ block.heap) × (back.slots ≡ block.slots) × (back.left ≡ 0)) }
    {
        let bucket = self.at as *const SharedBucket<T>;
        let at = block.at;
        let (standing, state, back) = match unsafe {
            ptr::compare_exchange::<u64, Brand>(
                &raw const (*bucket).at as *const *mut u64,
                null_mut(),
                at as *mut u64,
                SeqCst,
                SeqCst,
            )
        } {
            Ok(_) => {
                let Block { at: _, marker: _ } = block;
                (at as *const (), state, None)
            }
            Err(first) => (first as *const (), VACANT, Some(block)),
        };
        let value = unsafe { (standing as *const T).add(index) };
        self.at = value as *const ();
        self.state = state;
        back
    }
}
