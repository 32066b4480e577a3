//! The object that keeps a value for each thread: the buckets and the ids that threads share. What
//! the type of its values has to show, and tokens that say what its slots were published with, have
//! their names here too.
ghost use Rattle.std.specs.Prelude.{◌≡◌, ◌≢◌, ◌≤◌, ◌<◌, ◌-◌, ◌*◌, ◌^◌, ℕ, max, length};
ghost use Rattle.std.specs.Prelude.{true, false, None, Some, Err, alloc_error, IfOk, IsSome, map, [], All};
ghost use Rattle.std.specs.List.{AllPairs};
ghost use Rattle.std.specs.List.Sorted.{IsStrictlyIncreasing};
ghost use Rattle.thread_local_base.specs.Capacity.{reserved_slots};
ghost use Rattle.thread_local_buckets.specs.IterMut.{iter_mut_given, entries_mut_given, entries_mut_rest};
ghost use Rattle.thread_local_base.specs.Buckets.{values};
ghost use Rattle.thread_local_base.specs.Judged.{Judged};
ghost use Rattle.thread_local_base.specs.Place.{bucket_of};
ghost use Rattle.thread_local_base.specs.Walk.{walk};
ghost use Rattle.thread_local_base.specs.Held.{least, is_held, held_count, HoldsAllBelow};
ghost use Rattle.thread_local_base.specs.IdMoves.{Take, held_after, noted, published_in};
ghost use mathlib.Core.List.{IsPrefix};
ghost use Rattle.thread_local_ids.specs.SharedIds.{AreNew};
ghost use Rattle.thread_local_ids.specs.Sharings.{IsFirst, is_first, left_of};
ghost use Rattle.thread_local_ids.specs.TokenLists.{AllOf};
ghost use Rattle.thread_local_shared_buckets.specs.Grown.{only_reserved};
ghost use Rattle.thread_local_shared_buckets.specs.Walks.{fresh, fresh_with};

use crate::local::{By, Local, Seat, Seated};
use std::alloc::Global;
use std::default::MadeWith;
use std::marker::{Model, PhantomData};
use std::sync::Wait;
use thread_local_base::held::a_history_leaves_ids_held;
use thread_local_base::{LocalError, Thread};
pub use thread_local_base::{Judge, judge_sync};
pub use thread_local_buckets::CapacityError;
use thread_local_buckets::{Buckets, EntriesMut, IntoEntries, IntoIter, IterMut};
use thread_local_ids::left::a_value_left_is_found;
use thread_local_ids::{SharedIds, SlotRights};
pub use thread_local_ids::{Book, Page, Token, Told};
use thread_local_shared_buckets::{Entries, Iter, Shared, Tokens};

// `buckets_mut`, `drain` and `get_mut` stand in table/lends.rt.
mod lends;

/// One object that keeps a separate value for each thread that uses it.
///
/// A thread asks for a `Local`, which takes the least id that isn't held, and finds or makes that
/// id's value through it. A value outlives its `Local`, and stays where it is until the exclusive
/// owner of the table moves or drops it. The owner walks over all values by ascending id; if `T` is
/// `Sync`, every thread may, while others publish more. Threads share a table through a `&`, and it
/// can be sent to another thread. One can be made of every `T: Send` that is judged, as `new` says.
///
/// Only `local`, `local_after`, `slots_and_peak`, `give_back` and the drop of a `Local` may take the
/// table's lock, so no other call here waits. An id below 58 is returned without it, and taken
/// without it unless other threads take or return ids at the same time. Only `local`, `local_after`
/// and `with_capacity` take memory. But `clear` drops values, as the drop of a table, of a walk by
/// value or of a `Drain` does, and a value's drop may wait and may take memory: a value may hold a
/// `Local` of another table.
///
/// A bucket of 2^58 bytes or more, and values aligned above 16, are refused as if out of memory,
/// here and by every `Local`. No type was found that is aligned so: the language refuses
/// `repr(align)`.
///
/// Of its calls Rust's crate has `new`, `with_capacity`, `clear`, `iter`, `iter_mut` and the loops
/// over a table; there the table also has the calls of a `Local`. All others are the port's own.
///
/// Contracts see the table's name, the number of reserved slots, whether each bucket that isn't
/// reserved was made for an id of the table, for how many ids there was room when the table was
/// made or cleared, and the sharing, if that has a name. A sharing begins when the table is made,
/// cleared or renewed, and lasts until an owner's call lends or takes the values. While it lasts,
/// tokens (`Token`) say which values slots hold.
///
/// What was done with the table's ids, in the order of its steps, is their history. A `Page` is a
/// beginning of it, which has no bytes. Each `Local` has the page that ends with its take, and
/// returns have theirs, so callers tell which id was taken or given back before which. In the
/// first sharing, which begins when the table is made or cleared, the history also says with which
/// value a slot was published: it is noted when the `Local` gives the id back.
pub struct ThreadLocal<T> {
    pub(crate) buckets: Shared<T>,
    pub(crate) ids: SharedIds,
    first: Page,
    pub(crate) alloc: Global,
}

impl<T> Model for ThreadLocal<T> {
    ghost use Rattle.std.specs.Prelude.{◌≡◌, ◌-◌, ◌^◌, []};
    ghost use Rattle.thread_local_ids.specs.Sharings.{Belongs};
    ghost use Rattle.thread_local.specs.Tables.{ThreadLocalView, thread_local_view_coded, thread_local_view};

    ghost Value = { ThreadLocalView };

    ghost coded = { thread_local_view_coded };

    ghost view = { λ table. thread_local_view table.buckets table.first.room };

    // The ids are those of the table whose buckets these are, and so is the first page, which tells of
    // no move. The sharing isn't the first of another table.
    ghost invariant = { λ table.
        (table.ids.table ≡ table.buckets.table)
        × (table.first.table ≡ table.buckets.table)
        × (table.first.moves ≡ [])
        × Belongs table.buckets.sharing table.buckets.table };
}

impl<T> ThreadLocal<T> {
    /// A table with no value, no bucket and no id held. The type of the values is judged: the check
    /// shows that at most types, and `Judge` and `judge_sync` show it at the others. Rust's crate
    /// takes no allocator.
    pub fn new(alloc: Global) -> ThreadLocal<T>
    where
        T: Send,
        requires judged { Judged T.row }
        ensures sharing { IsSome result.sharing }
        ensures first { IsFirst result.sharing result.table }
        ensures reserved { result.reserved ≡ 0 }
        ensures room { result.room ≡ 58 }
        ensures grown { result.grown_by_ids ≡ true }
    {
        ThreadLocal::of(alloc, Buckets::new(alloc), SharedIds::new(alloc))
    }

    /// Makes a table of an owner's buckets, which have no value, and of new ids.
    fn of(alloc: Global, buckets: Buckets<T>, made: (SharedIds, Page, SlotRights)) -> ThreadLocal<T>
        requires judged { Judged T.row }
        requires empty { (id : ℕ) → values buckets.contents id ≡ None }
        requires ids { AreNew made }
        ensures sharing { IsSome result.sharing }
        ensures first { IsFirst result.sharing result.table }
        ensures reserved { result.reserved ≡ buckets.reserved }
        ensures room { result.room ≡ made.1.room }
        ensures grown { result.grown_by_ids ≡ only_reserved buckets }
    {
        let (ids, first, slots) = made;
        let (pointers, reserved) = buckets.into_parts();
        ThreadLocal {
            buckets: Shared::first(pointers, reserved, slots),
            ids,
            first,
            alloc,
        }
    }

    /// A table with no value and no id held, but with room for `capacity` ids, and with the first
    /// buckets, one for each binary digit of the capacity. Their slots are reserved:
    /// `is_reserved` says of a `Local` whether its slot is one of them.
    ///
    /// `TooLarge` means that the capacity is 2^63 or more, and comes before memory is asked for.
    /// `Memory` means out of memory, for ids beyond the first 58 or for a bucket: it asks for the
    /// room for ids first, and then for the buckets, from bucket 0 up. What was obtained before is
    /// freed, though no clause says so. Rust's crate panics where this refuses.
    pub fn with_capacity(alloc: Global, capacity: usize) -> Result<ThreadLocal<T>, CapacityError>
    where
        T: Drop + Send,
        requires judged { Judged T.row }
        ensures sharing { IfOk result (λ table. IsSome table.sharing) }
        ensures first { IfOk result (λ table. IsFirst table.sharing table.table) }
        ensures reserved { IfOk result (λ table. table.reserved ≡ reserved_slots capacity) }
        ensures room { IfOk result (λ table. capacity ≤ table.room) }
        ensures grown { IfOk result (λ table. table.grown_by_ids ≡ true) }
        ensures too_large { 2 ^ 63 ≤ capacity → result ≡ Err CapacityError.TooLarge }
        ensures not_too_large { result ≡ Err CapacityError.TooLarge → 2 ^ 63 ≤ capacity }
    {
        CapacityError::check(capacity)?;
        let ids = SharedIds::with_room(alloc, capacity)?;
        let buckets = Buckets::with_capacity(alloc, capacity)?;
        Ok(ThreadLocal::of(alloc, buckets, ids))
    }

    /// A `Local` with the least id that isn't held after what was done with the ids before: the
    /// `Local` knows that, and `local_after` also says how it extends what the caller knew. In the
    /// table's first sharing the slot holds what these moves say. The call may take the table's lock,
    /// so it may wait, and looks once whether the id's slot holds a value, so that `get` needs no look.
    ///
    /// It asks for memory only where all ids from 58 on are held that there is room for, and not for
    /// the first 58: `Memory` means out of memory. `Exhausted` means that all 2^63 - 1 ids are held.
    /// Rust's crate finds the running thread by itself.
    #[inline(always)]
    pub fn local<'a, R: Wait>(&'a self, rt: &'a R) -> Result<Local<'a, T, R>, LocalError>
        ensures table { IfOk result (λ local.
            (local.table ≡ self.now.table)
            × (local.sharing ≡ self.now.sharing)
            × (local.reserved ≡ self.now.reserved)) }
        ensures in_range { IfOk result (λ local. local.id < 2 ^ 63 - 1) }
        ensures least { IfOk result (λ local. local.id ≡ least (held_after local.before)) }
        ensures left { IfOk result (λ local.
            IsFirst self.now.sharing self.now.table
            → left_of T.row local.value ≡ published_in local.before local.id) }
    {
        self.local_after(rt, &mut self.page())
    }

    /// The page of the table's ids from before any was taken, for a first `local_after`. At run
    /// time it does nothing.
    #[inline]
    pub fn page(&self) -> Page
        ensures { (result.table ≡ self.now.table) × (result.moves ≡ []) }
    {
        self.first.again()
    }

    /// `local`, which shows that what was done with the table's ids before extends a page of the
    /// table, and leaves the page of all that was done so far, where it is refused too. So it says
    /// which ids were held when it was refused: for `Memory` all that there was room for from the
    /// beginning, for `Exhausted` all 2^63 - 1. While fewer are held, this call is refused no memory.
    #[inline(always)]
    pub fn local_after<'a, R: Wait>(
        &'a self,
        rt: &'a R,
        page: &mut Page,
    ) -> Result<Local<'a, T, R>, LocalError>
        requires { page.old.table ≡ self.now.table }
        ensures table { IfOk result (λ local.
            (local.table ≡ self.now.table)
            × (local.sharing ≡ self.now.sharing)
            × (local.reserved ≡ self.now.reserved)) }
        ensures in_range { IfOk result (λ local. local.id < 2 ^ 63 - 1) }
        ensures least { IfOk result (λ local. local.id ≡ least (held_after local.before)) }
        ensures left { IfOk result (λ local.
            IsFirst self.now.sharing self.now.table
            → left_of T.row local.value ≡ published_in local.before local.id) }
        ensures early { IsPrefix page.old.moves page.new.moves }
        ensures found { IfOk result (λ local.
            IsFirst self.now.sharing self.now.table
            → (value : T)
            → published_in page.old.moves local.id ≡ left_of T.row (Some value)
            → local.value ≡ Some value) }
        ensures since { IfOk result (λ local. IsPrefix page.old.moves local.before) }
        ensures page { page.new.table ≡ page.old.table }
        ensures moves { IfOk result (λ local. page.new.moves ≡ noted local.before Take) }
        ensures memory { result ≡ Err (LocalError.Memory alloc_error)
            → HoldsAllBelow self.now.room (held_after page.new.moves) }
        ensures granted { held_count (held_after page.new.moves) < self.now.room
            → result ≢ Err (LocalError.Memory alloc_error) }
        ensures exhausted { result ≡ Err LocalError.Exhausted
            → HoldsAllBelow (2 ^ 63 - 1) (held_after page.new.moves) }
    {
        // That what a page says of the id is still said.
        a_value_left_is_found::<T>();
        // That the page says the room of this table.
        self.first.in_line(page);
        let held = self.ids.take(rt, page)?;
        let seat = Seat {
            table: self,
            claim: self.buckets.claim(held),
        };
        let by = By {
            rt,
            of: PhantomData,
        };
        Ok(Seated { by, seat })
    }

    /// How many slots the table's buckets have together.
    pub fn slots(&mut self) -> usize
        ensures reserved { self.old.reserved ≤ result }
        ensures same { self.new ≡ self.old }
    {
        self.buckets.slots_reached(&self.first, &Told::new()).0
    }

    /// How many slots the table's buckets have together, and the most ids that were held at once
    /// since the table was made or cleared. Others may use the table meanwhile: a bucket that is made
    /// then may be counted or not. It takes the table's lock, so it may wait.
    ///
    /// The page and the list of tokens are for contracts alone, and have no bytes: `table.page()` and
    /// `Told::new()` serve every caller.
    pub fn slots_and_peak<R: Wait>(&self, rt: &R, page: &mut Page, told: &Told<T>) -> (usize, usize)
        requires { page.old.table ≡ self.now.table }
        ensures reserved { self.now.reserved ≤ result.0 }
        ensures slots { self.now.grown_by_ids ≡ true → result.0 ≤ max self.now.reserved (2 * result.1 - 1) }
        ensures told { AllOf self.now.sharing (λ token. 2 ^ bucket_of token.id ≤ result.0) told.now }
        ensures values { IsSome self.now.sharing
            → All (λ token. token.sharing ≡ self.now.sharing) told.now
            → AllPairs (λ one other. one.id ≢ other.id) told.now
            → length told.now ≤ result.0 }
        ensures page { page.new.table ≡ page.old.table }
        ensures early { IsPrefix page.old.moves page.new.moves }
        ensures peak { result.1 ≡ length (held_after page.new.moves) }
        ensures shown { length (held_after page.old.moves) ≤ result.1 }
    {
        let (slots, seen) = self.buckets.slots_reached(page, told);
        *page = seen;
        // That a later page has no lower peak.
        a_history_leaves_ids_held();
        (slots, self.ids.peak(rt, page))
    }

    /// The values by ascending id, each lent as `&mut`. It is the walk `iter_mut` of the buckets
    /// that `buckets_mut` lends, whose contract says what it gives. Rust's crate promises no order.
    pub fn iter_mut(&mut self) -> IterMut<'_, T>
        ensures fresh { iter_mut_given result ≡ 0 }
    {
        self.buckets.owner().iter_mut()
    }

    /// `iter_mut`, with the id of each value: the walk `entries_mut` of the buckets that
    /// `buckets_mut` lends.
    pub fn entries_mut(&mut self) -> EntriesMut<'_, T>
        ensures fresh { entries_mut_given result ≡ 0 }
        ensures ascending { IsStrictlyIncreasing (map (λ entry. entry.0) (entries_mut_rest result)) }
    {
        self.buckets.owner().entries_mut()
    }

    /// The buckets by value. The ids are dropped. A contract knows the number of reserved slots,
    /// and not which values there are: the calls of `Buckets` say what they find.
    pub fn into_buckets(self) -> Buckets<T>
        ensures { result.reserved ≡ self.reserved }
    {
        self.into_buckets_and_book().0
    }

    /// The values by ascending id, each moved out with its id: the walk `into_entries` of the
    /// buckets that `into_buckets` gives.
    pub fn into_entries(self) -> IntoEntries<T>
        ensures ascending { IsStrictlyIncreasing (map (λ entry. entry.0) result) }
    {
        self.into_buckets().into_entries()
    }

    /// The buckets by value, and what the slots were published with in the sharing that ends: the
    /// book tells of each token of this sharing that its value is there, at its id. It has the whole
    /// history, which in a first sharing says the same of each id that isn't held. The ids are
    /// dropped.
    pub fn into_buckets_and_book(self) -> (Buckets<T>, Book<T>)
        ensures reserved { result.0.reserved ≡ self.reserved }
        ensures sharing { result.1.sharing ≡ self.sharing }
        ensures contents { result.1.contents ≡ result.0.contents }
        ensures history { (result.1.table ≡ self.table) × (result.1.whole ≡ true) }
        ensures left { IsFirst self.sharing self.table
            → (id : ℕ)
            → id < 2 ^ 63 - 1
            → is_held (held_after result.1.moves) id ≡ false
            → published_in result.1.moves id ≡ left_of T.row (values result.1.contents id) }
    {
        let Self {
            buckets,
            ids,
            first: _,
            alloc: _,
        } = self;
        let (pointers, reserved, book) = buckets.into_parts();
        (
            Buckets::from_parts(pointers, reserved),
            ids.with_history(book),
        )
    }

    /// The values by ascending id, each moved out, with the book of the sharing that ends: the walk
    /// that a loop over the table makes, which is this one without its book. The ids are dropped.
    #[inline]
    pub fn into_iter_and_book(self) -> (IntoIter<T>, Book<T>)
    where
        T: Drop,
        ensures walk { result.0 ≡ walk (values result.1.contents) }
        ensures sharing { result.1.sharing ≡ self.sharing }
        ensures history { (result.1.table ≡ self.table) × (result.1.whole ≡ true) }
        ensures left { IsFirst self.sharing self.table
            → (id : ℕ)
            → id < 2 ^ 63 - 1
            → is_held (held_after result.1.moves) id ≡ false
            → published_in result.1.moves id ≡ left_of T.row (values result.1.contents id) }
    {
        // Taken apart here, so that the pointers are copied once.
        let Self {
            buckets,
            ids,
            first: _,
            alloc: _,
        } = self;
        let (pointers, reserved, book) = buckets.into_parts();
        let book = ids.with_history(book);
        (Buckets::from_parts(pointers, reserved).into_iter(), book)
    }

    /// Begins another sharing of the same buckets, with a name: an owner who has the table alone
    /// ends the one before. Ids and values stay, and from then on the history says nothing of values.
    pub fn renew(&mut self)
        ensures table { self.new.table ≡ self.old.table }
        ensures sharing { IsSome self.new.sharing × (self.new.sharing ≢ self.old.sharing) }
        ensures later { is_first self.new.sharing self.new.table ≡ false }
        ensures reserved { self.new.reserved ≡ self.old.reserved }
        ensures room { self.new.room ≡ self.old.room }
        ensures grown { self.new.grown_by_ids ≡ self.old.grown_by_ids }
    {
        self.buckets.judged();
        self.buckets.renew();
    }

    /// Drops every value, frees every bucket that isn't reserved, and takes every id back, those of
    /// forgotten `Local`s too. The reserved buckets and the room for ids stay, though no clause
    /// says for how many ids there is room then; in Rust's crate the reserved buckets go too. For
    /// contracts the table is another one from then on, with no history.
    pub fn clear(&mut self)
    where
        T: Drop,
        ensures table { self.new.table ≢ self.old.table }
        ensures sharing { IsSome self.new.sharing × (self.new.sharing ≢ self.old.sharing) }
        ensures first { IsFirst self.new.sharing self.new.table }
        ensures reserved { self.new.reserved ≡ self.old.reserved }
        ensures grown { self.new.grown_by_ids ≡ true }
    {
        let (first, slots) = self.ids.clear();
        self.buckets.clear(slots);
        self.first = first;
    }
}

// By hand, since a derived drop is proved anew in each program that drops a table.
impl<T: Drop> Drop for ThreadLocal<T> {
    #[inline]
    fn drop(self) {
        let Self {
            buckets,
            ids,
            first: _,
            alloc: _,
        } = self;
        drop(buckets);
        drop(ids);
    }
}

impl<T: Sync> ThreadLocal<T> {
    /// The values by ascending id, each lent as `&`, while threads may publish more. A value that
    /// is published at an id that the walk has passed isn't given, and one published ahead of it
    /// may be. Rust's crate promises no order.
    pub fn iter(&self) -> Iter<'_, T>
        ensures { result ≡ fresh self.now.sharing None true }
    {
        Iter::new(&self.buckets, Told::new())
    }

    /// `iter`, with the id of each value: which worker's each is.
    pub fn entries(&self) -> Entries<'_, T>
        ensures { result ≡ fresh self.now.sharing None true }
    {
        self.iter().with_ids()
    }

    /// `iter`, with a token of each value. The token says with which value the slot was published,
    /// and the value lent beside it is this one. So two such walks of one sharing give one value at
    /// one id, and it is the value of every other token of that id (`Token::agrees`).
    pub fn tokens(&self) -> Tokens<'_, T>
        ensures { result ≡ fresh self.now.sharing None true }
    {
        self.iter().with_tokens()
    }

    /// `iter`, which gives what the tokens of a list say: a walk that runs to its end gives the
    /// value of each that is of the table's sharing, at its id. A token of another sharing promises
    /// nothing. `with_ids` and `with_tokens` make `entries` and `tokens` of it.
    pub fn iter_told(&self, told: Told<T>) -> Iter<'_, T>
        ensures { result ≡ fresh_with self.now.sharing None true told }
    {
        Iter::new(&self.buckets, told)
    }

    /// The value that a token's slot was published with. It can't fail, and is one atomic load, of
    /// the bucket's pointer.
    pub fn value<'a>(&'a self, token: &Token<T>) -> &'a T
        requires sharing { token.now.sharing ≡ self.now.sharing }
        requires named { IsSome self.now.sharing }
        ensures { result.now ≡ token.now.value }
    {
        let place = Thread::new(token.id());
        self.buckets.bucket(place.bucket).value(place.index, token)
    }
}

impl<T: Judge + Send> MadeWith<Global> for ThreadLocal<T> {
    ghost is_made_with = { λ table.
        IsSome table.sharing
        × IsFirst table.sharing table.table
        × (table.reserved ≡ 0)
        × (table.room ≡ 58)
        × (table.grown_by_ids ≡ true) };

    /// A table as `new` makes it. Rust has `Default` for it; here the bound shows that the type is
    /// judged.
    fn made_with(alloc: Global) -> ThreadLocal<T> {
        T::judge();
        ThreadLocal::of(alloc, Buckets::new(alloc), SharedIds::new(alloc))
    }
}

impl<T: Drop> IntoIterator for ThreadLocal<T> {
    type Item = T;

    type IntoIter = IntoIter<T>;

    /// The values by ascending id, each moved out. A walk that is dropped early drops the rest.
    #[inline]
    fn into_iter(self) -> IntoIter<T> {
        self.into_iter_and_book().0
    }
}

impl<'a, T> IntoIterator for &'a mut ThreadLocal<T> {
    type Item = &'a mut T;

    type IntoIter = IterMut<'a, T>;

    ghost into_iter_gives = { λ _ walk. iter_mut_given walk ≡ 0 };

    /// The values by ascending id, each lent as `&mut`, as `iter_mut`.
    fn into_iter(self) -> IterMut<'a, T> {
        self.iter_mut()
    }
}

impl<'a, T: Sync> IntoIterator for &'a ThreadLocal<T> {
    type Item = &'a T;

    type IntoIter = Iter<'a, T>;

    ghost into_iter_gives = { λ table walk. walk ≡ fresh table.now.sharing None false };

    /// The values by ascending id, each lent as `&`, as `iter`. The walk's `next` asks that threads
    /// may share the values, which is shown where the walk is used: the check shows it at most
    /// types and at a generic `T: Sync`, and `judge_sync` shows it at the others.
    fn into_iter(self) -> Iter<'a, T> {
        Iter::unshown(&self.buckets, Told::new())
    }
}
