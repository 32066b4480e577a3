//! A claim of a slot, in three states: its bucket was missing, the slot is vacant, the slot holds a
//! value. It begins in any of them, and goes on from one to the next.
ghost use Rattle.std.specs.Prelude.{◌≡◌, ◌≢◌, ◌/◌, ◌-◌, ◌^◌, ◌<◌, ◌⊎◌, true, Some, None, Ok, Err, IsSome};
ghost use Rattle.std.specs.Prelude.{IfOk, OnOk, IfErr, OnErr, MatchBool, MatchOption, MatchResult, slice_set};
ghost use Rattle.thread_local_base.specs.Learnt.{Unknown, Missing, Vacant, Holding, Finds, learnt_by_publish};
ghost use Rattle.thread_local_base.specs.Place.{IsPlaceOf, bucket_of, id_at};
ghost use Rattle.thread_local_buckets.specs.Slots.{empty_slots, slot_value, flag_word_at};
ghost use Rattle.thread_local_base.specs.Held.{is_held};
ghost use Rattle.thread_local_base.specs.IdMoves.{Take, held_after, noted};
ghost use Rattle.thread_local_ids.specs.Sharings.{Belongs, is_first, left_of};
ghost use mathlib.Core.List.{IsPrefix};
ghost use Rattle.thread_local_shared_buckets.specs.Known.{HasLooked, value_held};
ghost use Rattle.thread_local_shared_buckets.specs.Room.{IsEmpty, HasRoom, IsFilledBy};

use crate::claimed::{ClaimedSlot, HOLDING, MISSING, VACANT};
use crate::{Announcements, Shared};
use std::alloc::{AllocError, Global};
use std::marker::Model;
use thread_local_base::{Thread, bucket_size};
use thread_local_buckets::{Block, BucketPointer, flag_word_at};
use thread_local_ids::{HeldId, Page, Right, Token};

/// The slot of an id, for the holder of the id, whose right lies with the slot meanwhile. Contracts
/// see its table, the sharing, its id, what was done with the table's ids before the id was taken,
/// whether its bucket is reserved, and what it has learnt of the slot: that the bucket was missing,
/// that the slot is vacant, or the value that the slot holds.
///
/// No call waits, but a closure that a call runs may, and so may the drop of one that it doesn't run.
/// Only `fill`, `try_fill`, `set` and `room` take memory. These, `Shared::claim`, `publish_in` and
/// `publish` make atomic steps.
pub struct Claim<'a, T> {
    slot: ClaimedSlot<'a, T>,
    id: usize,
    /// The word in which the claim announces its bucket.
    announcements: &'a Announcements,
    right: Right,
}

impl<'a, T> Model for Claim<'a, T> {
    ghost use Rattle.thread_local_shared_buckets.specs.Room.{IsClaim};
    ghost use Rattle.thread_local_shared_buckets.specs.ClaimViews.{ClaimView, claim_view_coded};

    ghost Value = { ClaimView T };

    ghost coded = { claim_view_coded T.code };

    ghost view = { λ c.
        record {
          table = c.slot.table;
          sharing = c.slot.sharing;
          id = c.id;
          before = c.right.before;
          reserved = c.slot.reserved;
          learnt = c.slot.learnt;
        } };

    ghost invariant = { λ c. IsClaim c.slot c.id c.announcements.now c.right };
}

impl<T> Shared<T> {
    /// Claims the slot of a held id, for as long as the buckets are borrowed: one atomic load of
    /// the bucket's pointer, and where the bucket stands, one of the word that has the slot's flag.
    /// The bucket of a reserved slot is never missing.
    pub fn claim(&self, held: HeldId) -> Claim<'_, T>
        requires table { held.right.table ≡ self.now.table }
        requires sharing { Belongs self.now.sharing self.now.table }
        ensures same_slot { (result.table ≡ self.now.table)
            × (result.sharing ≡ self.now.sharing)
            × (result.id ≡ held.id)
            × (result.before ≡ held.right.before) }
        ensures found { Finds Unknown result.learnt }
        ensures learnt { HasLooked result.learnt }
        ensures reserved { id_at (bucket_of held.id) 0 < self.now.reserved → result.learnt ≢ Missing }
        ensures left { is_first self.now.sharing self.now.table ≡ true
            → held.right.left ≡ left_of T.row (value_held result.learnt) }
    {
        let HeldId { id, right } = held;
        let thread = Thread::new(id);
        let pointers = &self.parts().pointers;
        let bucket = &pointers.pointers.pointers[thread.bucket];
        let (mut slot, right) = ClaimedSlot::hold(bucket, thread.index, right);
        slot.find(thread.index, flag_word_of::<T>(thread));
        slot.notes();
        Claim {
            slot,
            id,
            announcements: &pointers.announced,
            right,
        }
    }
}

impl<'a, T> Claim<'a, T> {
    /// Fills the slot if it is empty, with the closure's value, for which a missing bucket is made.
    /// Where memory is refused, the closure isn't called.
    #[inline]
    pub fn fill<F: FnOnce() -> T + Drop>(
        &mut self,
        alloc: Global,
        create: F,
    ) -> Result<(), AllocError>
        requires callable { IsEmpty self.old.learnt → F.pre create }
        ensures ok { OnOk result (IsFilledBy (F.post create) self.old self.new) }
        ensures err { OnErr result ((self.old.learnt ≡ Missing) × (self.new ≡ self.old)) }
    {
        if self.slot.state() == HOLDING {
            return Ok(());
        }
        let thread = Thread::new(self.id);
        if self.is_missing() {
            return self.fill_missing(alloc, thread, create);
        }
        self.publish(thread, create());
        Ok(())
    }

    /// `fill` where the bucket was missing: finds it or makes a block for it, then calls the closure
    /// and publishes its value. The place of the first id is known here, so the compiler makes a
    /// short way of its own for it. It is never inlined, so that other calls are short.
    #[inline(never)]
    fn fill_missing<F: FnOnce() -> T + Drop>(
        &mut self,
        alloc: Global,
        thread: Thread,
        create: F,
    ) -> Result<(), AllocError>
        requires missing { self.old.learnt ≡ Missing }
        requires place { IsPlaceOf thread.bucket thread.index self.old.id }
        requires callable { F.pre create }
        ensures ok { OnOk result (IsFilledBy (F.post create) self.old self.new) }
        ensures err { OnErr result (self.new ≡ self.old) }
    {
        if self.id != 0 {
            return self.fill_further(alloc, thread, create);
        }
        let first = Thread::new(0);
        let block = self.room(&alloc, first)?;
        self.publish_in(&alloc, first, block, create());
        Ok(())
    }

    /// `fill_missing` for the ids behind the first.
    #[inline(never)]
    fn fill_further<F: FnOnce() -> T + Drop>(
        &mut self,
        alloc: Global,
        thread: Thread,
        create: F,
    ) -> Result<(), AllocError>
        requires missing { self.old.learnt ≡ Missing }
        requires place { IsPlaceOf thread.bucket thread.index self.old.id }
        requires callable { F.pre create }
        ensures ok { OnOk result (IsFilledBy (F.post create) self.old self.new) }
        ensures err { OnErr result (self.new ≡ self.old) }
    {
        let block = self.room(&alloc, thread)?;
        self.publish_in(&alloc, thread, block, create());
        Ok(())
    }

    /// `fill` by a closure that may fail. `Ok` hands its error on, and the slot is still empty. A
    /// bucket that was made for it stands then.
    #[inline]
    pub fn try_fill<F: FnOnce() -> Result<T, E> + Drop, E>(
        &mut self,
        alloc: Global,
        create: F,
    ) -> Result<Result<(), E>, AllocError>
        requires callable { IsEmpty self.old.learnt → F.pre create }
        ensures ok { IfOk result (λ filled.
            MatchResult filled
            (λ _. IsFilledBy (λ value. F.post create (Ok value)) self.old self.new)
            (λ error. IsEmpty self.old.learnt × (self.new ≡ record self.old { learnt = Vacant }) × F.post create (Err error))) }
        ensures err { OnErr result ((self.old.learnt ≡ Missing) × (self.new ≡ self.old)) }
    {
        if self.slot.state() == HOLDING {
            return Ok(Ok(()));
        }
        let thread = Thread::new(self.id);
        let block = self.room(&alloc, thread)?;
        match create() {
            Ok(value) => {
                self.publish_in(&alloc, thread, block, value);
                Ok(Ok(()))
            }
            Err(error) => {
                if let Some(block) = block {
                    self.install_empty(&alloc, thread, block);
                }
                Ok(Err(error))
            }
        }
    }

    /// Installs a block without a value, for a bucket that was missing. The bucket is announced
    /// before. Where another block was installed first, that one stays, and this block is freed. It is
    /// never inlined, so that the way of who publishes is short.
    #[cold]
    #[inline(never)]
    fn install_empty(&mut self, alloc: &Global, thread: Thread, block: Block<T, Global>)
        requires missing { self.old.learnt ≡ Missing }
        requires place { IsPlaceOf thread.bucket thread.index self.old.id }
        requires block { (block.heap ≡ alloc.now)
            × (block.slots ≡ empty_slots (2 ^ thread.bucket))
            × (block.left ≡ 0) }
        ensures { self.new ≡ record self.old { learnt = Vacant } }
    {
        let announced = self.announcements.announce(thread.bucket);
        let right = &self.right;
        let back = self
            .slot
            .exchange(thread.index, block, right, announced, VACANT);
        if let Some(block) = back {
            block.release(alloc, bucket_size(thread.bucket));
        }
    }

    /// Publishes a value in a slot that is empty, for which a missing bucket is made. Where memory is
    /// refused, the value comes back.
    #[inline]
    pub fn set(&mut self, alloc: Global, value: T) -> Result<(), T>
        requires empty { IsEmpty self.old.learnt }
        ensures ok { OnOk result (self.new ≡ record self.old { learnt = Holding value }) }
        ensures err { IfErr result (λ given.
            (given ≡ value) × (self.old.learnt ≡ Missing) × (self.new ≡ self.old)) }
    {
        let thread = Thread::new(self.id);
        match self.room(&alloc, thread) {
            Ok(block) => {
                self.publish_in(&alloc, thread, block, value);
                Ok(())
            }
            Err(_) => Err(value),
        }
    }

    /// Makes room for a value in a slot that is empty. It looks again for a bucket that was missing, by
    /// the same loads as `Shared::claim`, and where it is missing still, makes a block for it: the one request for
    /// memory. Where it answers no block, the slot is vacant, whoever installed the bucket's block.
    #[inline(always)]
    pub fn room(
        &mut self,
        alloc: &Global,
        thread: Thread,
    ) -> Result<Option<Block<T, Global>>, AllocError>
        requires empty { IsEmpty self.old.learnt }
        requires place { IsPlaceOf thread.bucket thread.index self.old.id }
        ensures same { self.new ≡ record self.old { learnt = self.new.learnt } }
        ensures ok { IfOk result (HasRoom alloc.now thread.bucket self.new.learnt) }
        ensures err { OnErr result ((self.old.learnt ≡ Missing) × (self.new ≡ self.old)) }
        ensures vacant { self.old.learnt ≡ Vacant → self.new.learnt ≡ Vacant }
    {
        if !self.is_missing() {
            return Ok(None);
        }
        self.slot.find(thread.index, flag_word_of::<T>(thread));
        if !self.is_missing() {
            return Ok(None);
        }
        Ok(Some(Block::new(alloc, bucket_size(thread.bucket))?))
    }

    /// Publishes a value where there is room for it. Where no block was made, the bucket stands. Else
    /// the value goes into the block, and the bucket is announced. One compare and exchange installs
    /// the block, which publishes the value, too. Where another block was installed first, that one
    /// stays, the value is published there, and this block is freed.
    #[inline(always)]
    pub fn publish_in(
        &mut self,
        alloc: &Global,
        thread: Thread,
        block: Option<Block<T, Global>>,
        value: T,
    )
        requires room { HasRoom alloc.now thread.bucket self.old.learnt block }
        requires place { IsPlaceOf thread.bucket thread.index self.old.id }
        ensures { self.new ≡ record self.old { learnt = Holding value } }
    {
        let Some(block) = block else {
            return self.publish_standing(thread, value);
        };
        let block = filled(block, alloc, thread, value);
        let right = &self.right;
        self.slot
            .install(alloc, thread, block, right, self.announcements);
    }

    /// `publish`, which is never inlined, so that the way of who installs a block is short.
    #[cold]
    #[inline(never)]
    fn publish_standing(&mut self, thread: Thread, value: T)
        requires vacant { self.old.learnt ≡ Vacant }
        requires place { IsPlaceOf thread.bucket thread.index self.old.id }
        ensures { self.new ≡ record self.old { learnt = Holding value } }
    {
        self.publish(thread, value);
    }

    /// Publishes a value in a vacant slot: the bucket is announced, the value is written, and then the
    /// flag is set, by one atomic addition that never has to be tried again.
    #[inline]
    pub fn publish(&mut self, thread: Thread, value: T)
        requires vacant { self.old.learnt ≡ Vacant }
        requires place { IsPlaceOf thread.bucket thread.index self.old.id }
        ensures same { self.new ≡ record self.old { learnt = self.new.learnt } }
        ensures learnt { learnt_by_publish self.old.learnt value ≡ Some self.new.learnt }
    {
        let announced = self.announcements.announce(thread.bucket);
        self.slot
            .publish(thread.index, flag_word_of::<T>(thread), value, announced);
    }

    /// The id whose slot it is.
    pub fn id(&self) -> usize
        ensures id { result ≡ self.now.id }
        ensures in_range { result < 2 ^ 63 - 1 }
    {
        self.id
    }

    /// Whether the bucket was missing when the claim looked for it last.
    #[tactic(auto, using(crate::proofs::StateLaws::missing_by))]
    pub fn is_missing(&self) -> bool
        ensures { MatchBool result (self.now.learnt ≡ Missing) (self.now.learnt ≢ Missing) }
    {
        self.slot.state() == MISSING
    }

    /// The value that the slot holds, for as long as the claim is borrowed.
    #[tactic(auto, using(crate::proofs::StateLaws::published_by))]
    pub fn get(&self) -> Option<&T>
        ensures { MatchOption result ((self.now.learnt ≡ Missing) ⊎ (self.now.learnt ≡ Vacant)) (λ x.
            self.now.learnt ≡ Holding x.now) }
    {
        if self.slot.state() == HOLDING {
            Some(self.slot.value())
        } else {
            None
        }
    }

    /// A token of what the slot was published with, where it holds a value. At run time it reads
    /// what the claim knows.
    #[tactic(auto, using(crate::proofs::StateLaws::published_by))]
    pub fn token(&self) -> Option<Token<T>>
        ensures { MatchOption result ((self.now.learnt ≡ Missing) ⊎ (self.now.learnt ≡ Vacant)) (λ p.
            (p.sharing ≡ self.now.sharing)
            × (p.id ≡ self.now.id)
            × (self.now.learnt ≡ Holding p.value)) }
    {
        if self.slot.state() != HOLDING {
            return None;
        }
        Some(self.slot.token(self.id))
    }

    /// Shows that the slot holds what a token says that it was published with. At run time it does
    /// nothing.
    pub fn agrees(&mut self, token: &Token<T>)
        requires id { self.old.id ≡ token.now.id }
        requires sharing { self.old.sharing ≡ token.now.sharing }
        requires named { IsSome self.old.sharing }
        ensures holds { self.old.learnt ≡ Holding token.now.value }
        ensures same { self.new ≡ self.old }
    {
        self.slot.agrees(token);
    }

    /// Gives the claim up, and returns the held id. The id's note says what the slot is left with.
    pub fn give_up(self) -> HeldId
        ensures table { result.right.table ≡ self.entry.table }
        ensures id { (result.id ≡ self.entry.id) × (result.right.before ≡ self.entry.before) }
        ensures left { is_first self.entry.sharing self.entry.table ≡ true
            → result.right.left ≡ left_of T.row (value_held self.entry.learnt) }
    {
        let Self {
            slot,
            id,
            announcements: _,
            right,
        } = self;
        let mut slot = slot;
        slot.notes();
        HeldId {
            id,
            right: slot.give_up(right),
        }
    }

    /// Shows that two claims of one table are of different slots. At run time it does nothing.
    pub fn apart(&mut self, other: &mut Claim<'_, T>)
        requires { self.old.table ≡ other.old.table }
        ensures ids { self.old.id ≢ other.old.id }
        ensures same { (self.new ≡ self.old) × (other.new ≡ other.old) }
    {
        self.right.apart(&mut other.right)
    }

    /// The page of the table's ids that ends with the take of this id. At run time it does nothing.
    pub fn page(&self) -> Page
        ensures { (result.table ≡ self.now.table) × (result.moves ≡ noted self.now.before Take) }
    {
        self.right.page()
    }

    /// Shows that the id is held after all moves of a later page. At run time it does nothing.
    pub fn held_at(&mut self, page: Page)
        requires table { page.table ≡ self.old.table }
        requires later { IsPrefix (noted self.old.before Take) page.moves }
        ensures held { is_held (held_after page.moves) self.old.id ≡ true }
        ensures same { self.new ≡ self.old }
    {
        self.right.held_at(page);
    }
}

impl<'a, T: Sync> Claim<'a, T> {
    /// The value with a token of it, or `None`, as `get` and `token` answer them. But this value
    /// may be used after the claim is gone, for as long as the bucket is borrowed: a published
    /// value stays in its slot until then.
    #[tactic(auto, using(crate::proofs::StateLaws::published_by))]
    pub fn lasting(&self) -> Option<(Token<T>, &'a T)>
        ensures { MatchOption result ((self.now.learnt ≡ Missing) ⊎ (self.now.learnt ≡ Vacant)) (λ x.
            (x.0.sharing ≡ self.now.sharing)
            × (x.0.id ≡ self.now.id)
            × (x.0.value ≡ x.1.now)
            × (self.now.learnt ≡ Holding x.1.now)) }
    {
        if self.slot.state() == HOLDING {
            let token = self.slot.token(self.id);
            Some((token, self.slot.lasting()))
        } else {
            None
        }
    }
}

/// The number of the word that has the flag of the slot at a place.
#[inline]
pub(crate) fn flag_word_of<T>(thread: Thread) -> usize
    ensures { result ≡ flag_word_at T.row (2 ^ thread.bucket) (thread.index / 64) }
{
    flag_word_at::<T>(bucket_size(thread.bucket), thread.index / 64)
}

/// A block that nobody else sees, with a value in the slot of a place.
#[inline]
fn filled<T>(block: Block<T, Global>, alloc: &Global, thread: Thread, value: T) -> Block<T, Global>
    requires block { (block.slots ≡ empty_slots (2 ^ thread.bucket)) × (block.left ≡ 0) }
    ensures block { (result.heap ≡ alloc.now) × (result.left ≡ 0) }
    ensures others { slice_set result.slots thread.index None ≡ empty_slots (2 ^ thread.bucket) }
    ensures value { slot_value result.slots thread.index ≡ Some value }
{
    let mut pointer = BucketPointer::default();
    pointer.lay(block);
    let flags = 1 << (thread.index % 64);
    pointer.publish_and_store(thread.index, flag_word_of::<T>(thread), flags, value);
    pointer.lift(alloc)
}

/// Moves the value of a place's slot out of such a block.
#[inline]
pub(crate) fn emptied<T>(
    block: Block<T, Global>,
    alloc: &Global,
    thread: Thread,
) -> (T, Block<T, Global>)
    requires left { block.left ≡ 0 }
    requires others { slice_set block.slots thread.index None ≡ empty_slots (2 ^ thread.bucket) }
    requires published { IsSome (slot_value block.slots thread.index) }
    ensures value { slot_value block.slots thread.index ≡ Some result.0 }
    ensures block { (result.1.heap ≡ alloc.now)
        × (result.1.slots ≡ empty_slots (2 ^ thread.bucket))
        × (result.1.left ≡ 0) }
{
    let mut pointer = BucketPointer::default();
    pointer.lay(block);
    let value = pointer.take_and_store(thread.index, flag_word_of::<T>(thread), 0);
    (value, pointer.lift(alloc))
}
