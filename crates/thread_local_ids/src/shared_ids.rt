//! The ids of a table while threads share it.
ghost use Rattle.std.specs.Prelude.{◌≡◌, ◌≢◌, ◌+◌, ◌-◌, ◌^◌, ◌<◌, ◌≤◌, ℕ, min, max, IsOk, IfOk, Err, alloc_error, length, [], true, false};
ghost use mathlib.Core.List.{IsPrefix};
ghost use Rattle.thread_local_base.specs.IdMoves.{held_after, published_in};
ghost use Rattle.thread_local_base.specs.Buckets.{values};
ghost use Rattle.thread_local_base.specs.Held.{is_held, HoldsAllBelow};
ghost use Rattle.thread_local_ids.specs.Sharings.{IsFirst, left_of};
ghost use Rattle.thread_local_ids.specs.SharedIds.{AreNew};
ghost use Rattle.thread_local_ids.specs.Taken.{IsTakenAfter, IsTake};
ghost use Rattle.thread_local_ids.specs.FirstIds.{IsReturn};

use crate::first::{FIRST_IDS, FirstIds};
use crate::further::Further;
use crate::locks::lock::Lock;
use crate::rights::held::HeldId;
use crate::rights::page::Page;
use crate::rights::right::SlotRights;
use crate::tokens::book::Book;
use std::alloc::{AllocError, Global};
use std::marker::Model;
use std::sync::Wait;
use thread_local_base::{LocalError, ThreadIdManager};

/// Gives out the least id that isn't held, and takes ids back, while threads share it. An id below 58
/// is given back without the lock, and taken without it unless other threads take or return ids at
/// the same time. Only `take` may take memory.
pub struct SharedIds {
    pub(crate) first: FirstIds,
    pub(crate) further: Lock<Further>,
}

impl Model for SharedIds {
    ghost use Rattle.std.specs.Prelude.{◌≡◌};
    ghost use Rattle.thread_local_ids.specs.SharedIds.{SharedView, shared_coded, shared_of};

    ghost Value = { SharedView };

    ghost coded = { shared_coded };

    ghost view = { shared_of };

    ghost invariant = { λ ids. ids.further.tag ≡ ids.first.table };
}

impl SharedIds {
    /// The ids of a new table, none of them held. For contracts there are beside them the page from
    /// before any id is taken, and the rights to its slots. It takes no memory, nor do the first 58 ids.
    pub fn new(alloc: Global) -> (SharedIds, Page, SlotRights)
        ensures new { AreNew result }
        ensures room { result.1.room ≡ 58 }
    {
        SharedIds::of(ThreadIdManager::new(alloc))
    }

    /// The ids of a new table as from `new`, with room for `ids` of them, or for every id where that is
    /// less. It asks for memory once, and not at all where `ids` is at most 58. It refuses where that
    /// memory isn't given.
    pub fn with_room(alloc: Global, ids: usize) -> Result<(SharedIds, Page, SlotRights), AllocError>
        ensures new { IfOk result AreNew }
        ensures room { IfOk result (λ made. min ids (2 ^ 63 - 1) ≤ made.1.room) }
        ensures few { IfOk result (λ made. made.1.room < min ids (2 ^ 63 - 1) + 64) }
        ensures room_in_range { IfOk result (λ made. made.1.room ≤ 2 ^ 63 - 1) }
        ensures no_ids { ids ≡ 0 → IsOk result }
    {
        let managed = if ids > FIRST_IDS { ids } else { 0 };
        Ok(SharedIds::of(ThreadIdManager::with_room(alloc, managed)?))
    }

    /// The ids of a new table, which the manager gives out from 58 on.
    fn of(manager: ThreadIdManager) -> (SharedIds, Page, SlotRights)
        requires { manager.held ≡ [] }
        ensures new { AreNew result }
        ensures room { result.1.room ≡ max 58 manager.room }
    {
        let (first, log, (page, slots)) = FirstIds::begun(&manager);
        let further = Further {
            manager,
            log,
            start: page.again(),
            reached: 0,
        };
        let ids = SharedIds {
            first,
            further: Lock::new(further),
        };
        (ids, page, slots)
    }

    /// Takes the least id that isn't held, with its right, and leaves the page of all that was done
    /// so far, where it is refused too. It waits only where all of the first ids are held, or where
    /// other threads take or return ids at the same time. `Memory` means out of memory, where all ids
    /// from 58 on are held that there is room for; the first 58 need none. `Exhausted` means that
    /// all 2^63 - 1 ids are held.
    #[inline]
    pub fn take<R: Wait>(&self, rt: &R, page: &mut Page) -> Result<HeldId, LocalError>
        requires { page.old.table ≡ self.now.table }
        ensures taken { IfOk result (λ held. IsTakenAfter self.now.table page.old.moves page.new.moves held) }
        ensures early { IsPrefix page.old.moves page.new.moves }
        ensures table { page.new.table ≡ page.old.table }
        ensures memory { result ≡ Err (LocalError.Memory alloc_error)
            → HoldsAllBelow page.old.room (held_after page.new.moves) }
        ensures exhausted { result ≡ Err LocalError.Exhausted
            → HoldsAllBelow (2 ^ 63 - 1) (held_after page.new.moves) }
    {
        if let Some(held) = self.first.take(page) {
            return Ok(held);
        }
        self.take_further(rt, page)
    }

    /// Takes the least id, where no first id could be taken a moment ago.
    #[cold]
    #[inline(never)]
    fn take_further<R: Wait>(&self, rt: &R, page: &mut Page) -> Result<HeldId, LocalError>
        requires { page.old.table ≡ self.now.table }
        ensures take { IsTake self.now.table page.old page.new result }
        ensures table { page.new.table ≡ page.old.table }
    {
        for _ in rt.forever() {
            let tried = self.further.lock(rt).take(&self.first, page);
            if let Some(tried) = tried {
                return tried;
            }
            if let Some(held) = self.first.take(page) {
                return Ok(held);
            }
        }
        unreachable!()
    }

    /// Takes an id back, and answers the page that ends with its return. It waits only for the lock of
    /// the further ids, where the id is one of these.
    #[inline]
    pub fn give<R: Wait>(&self, rt: &R, held: HeldId) -> Page
        requires table { held.right.table ≡ self.now.table }
        ensures table { result.table ≡ self.now.table }
        ensures moves { IsReturn held.right.before held.id result.moves }
        ensures left { published_in result.moves held.id ≡ held.right.left }
    {
        if held.id >= FIRST_IDS {
            return self.give_further(rt, held);
        }
        let HeldId { id, right } = held;
        self.first.give(right, 64 << id)
    }

    /// Takes a further id back, under the lock.
    #[cold]
    #[inline(never)]
    fn give_further<R: Wait>(&self, rt: &R, held: HeldId) -> Page
        requires table { held.right.table ≡ self.now.table }
        requires further { 58 ≤ held.id }
        ensures table { result.table ≡ self.now.table }
        ensures moves { IsReturn held.right.before held.id result.moves }
        ensures left { published_in result.moves held.id ≡ held.right.left }
    {
        self.further.lock(rt).give(&self.first, held)
    }

    /// The most ids that were held at once since the table was made or cleared. It extends the page by
    /// all that was done by then. It takes the lock, so it may wait.
    pub fn peak<R: Wait>(&self, rt: &R, page: &mut Page) -> usize
        requires { page.old.table ≡ self.now.table }
        ensures table { page.new.table ≡ self.now.table }
        ensures early { IsPrefix page.old.moves page.new.moves }
        ensures peak { result ≡ length (held_after page.new.moves) }
    {
        let (peak, later) = self.further.lock(rt).peak(&self.first, page);
        *page = later;
        peak
    }

    /// The book with all that was done with the ids by then. In the table's first sharing it tells of each
    /// id that isn't held what the history says. The ids are dropped.
    pub fn with_history<T>(self, book: Book<T>) -> Book<T>
        ensures book { (result.sharing ≡ book.sharing) × (result.contents ≡ book.contents) }
        ensures history { (result.table ≡ self.table) × (result.whole ≡ true) }
        ensures left { IsFirst book.sharing self.table
            → (id : ℕ)
            → id < 2 ^ 63 - 1
            → is_held (held_after result.moves) id ≡ false
            → published_in result.moves id ≡ left_of T.row (values result.contents id) }
    {
        self.into_first().with_history(book)
    }

    /// The first ids alone. The manager of the others is dropped, with its memory.
    #[inline]
    fn into_first(self) -> FirstIds
        ensures { result.table ≡ self.table }
    {
        let Self { first, further } = self;
        let Further {
            manager,
            log: _,
            start: _,
            reached: _,
        } = further.into_inner();
        drop(manager);
        first
    }

    /// Takes every id back, those of forgotten holders too, and counts the peak anew. The room stays.
    /// For contracts the ids are those of another table from then on: it answers that table's page from
    /// before any id is taken, and the rights to its slots.
    pub fn clear(&mut self) -> (Page, SlotRights)
        ensures table { self.new.table ≢ self.old.table }
        ensures page { (result.0.table ≡ self.new.table) × (result.0.moves ≡ []) }
        ensures slots { result.1.table ≡ self.new.table }
    {
        self.further.get_mut().clear(&mut self.first)
    }
}

impl Drop for SharedIds {
    #[inline]
    fn drop(self) {
        drop(self.into_first());
    }
}
