//! A table's buckets while threads share them through a `&`. By value or through a `&mut` they are
//! an owner's `Buckets` again.
ghost use Rattle.std.specs.Prelude.{◌≡◌, ◌≢◌, ◌+◌, ◌-◌, ◌*◌, ◌^◌, ◌<◌, ◌≤◌, ℕ, max, length, true, false, Option, None, Some, IsSome, All};
ghost use Rattle.std.specs.List.{AllPairs};
ghost use Rattle.thread_local_base.specs.Owned.{IsOwned, AreOfFirstBuckets};
ghost use Rattle.thread_local_base.specs.Place.{bucket_of};
ghost use Rattle.thread_local_base.specs.Judged.{Judged};
ghost use Rattle.thread_local_ids.specs.Sharings.{Belongs, first_of, is_first};
ghost use Rattle.thread_local_base.specs.Buckets.{values};
ghost use Rattle.thread_local_base.specs.IdMoves.{held_after};
ghost use mathlib.Core.List.{IsPrefix};
ghost use Rattle.thread_local_ids.specs.TokenLists.{AllOf};
ghost use Rattle.thread_local_shared_buckets.specs.Grown.{only_reserved};
ghost use Rattle.thread_local_shared_buckets.specs.TableView.{TableView, table_view_coded, IsBucketOf};
ghost use Rattle.thread_local_shared_buckets.specs.SharedParts.{parts_own, parts_share};

use crate::SharedBucket;
use crate::announcements::load_announced;
use crate::parts::SharedParts;
use std::marker::{Move, Owns, PhantomData};
use thread_local_buckets::{BucketPointers, Buckets, take_first_bucket};
use thread_local_ids::{Book, Page, SlotRights, Told};

mod lends;

/// The buckets of a table that threads share through a `&`. A contract sees the name of the table,
/// that of the sharing if it has one, the number of reserved slots, and whether each bucket that
/// isn't reserved was made for an id of the table.
///
/// No call takes memory. `clear` and the drop of it drop values, which may wait; no other call waits.
/// The drop frees every block.
pub struct Shared<T> {
    pointers: BucketPointers<T>,
    reserved: usize,
}

impl<T> Owns for Shared<T> {
    ghost Value = { TableView };

    ghost coded = { table_view_coded };

    ghost shr_at = { λ s p κ. parts_share T.row s p κ };
}

impl<T> Move for Shared<T> {
    ghost own_val = { λ s vs. parts_own T.row s vs };
}

impl<T> Shared<T> {
    /// Lets threads share an owner's buckets, of which it takes the pointers and the number of
    /// reserved slots, as the buckets of the table that the page is of. The sharing gets a name.
    pub fn new(pointers: BucketPointers<T>, reserved: usize, page: &Page) -> Shared<T>
        requires judged { Judged T.row }
        requires owned { IsOwned (record { contents = pointers; reserved = reserved }) }
        ensures table { result.table ≡ page.now.table }
        ensures sharing { IsSome result.sharing × Belongs result.sharing result.table }
        ensures reserved { result.reserved ≡ reserved }
        ensures grown { result.grown_by_ids ≡ only_reserved (record { contents = pointers; reserved = reserved }) }
    {
        let _ = page;
        Shared { pointers, reserved }
    }

    /// `new` where no slot has a value, in the first sharing of the table that the rights are of: its
    /// history of ids says what each slot is published with.
    pub fn first(pointers: BucketPointers<T>, reserved: usize, slots: SlotRights) -> Shared<T>
        requires judged { Judged T.row }
        requires owned { IsOwned (record { contents = pointers; reserved = reserved }) }
        requires blank { (id : ℕ) → values pointers id ≡ None }
        ensures table { result.table ≡ slots.table }
        ensures sharing { result.sharing ≡ Some (first_of result.table) }
        ensures reserved { result.reserved ≡ reserved }
        ensures grown { result.grown_by_ids ≡ only_reserved (record { contents = pointers; reserved = reserved }) }
    {
        let _ = slots;
        Shared { pointers, reserved }
    }

    /// Ends the sharing, and begins another one of the same buckets, with a name other than `past`. At
    /// run time it does nothing.
    pub fn renew(&mut self)
        ghost past: { Option ℕ }
        requires judged { Judged T.row }
        ensures table { self.new.table ≡ self.old.table }
        ensures sharing { IsSome self.new.sharing × (self.new.sharing ≢ past) }
        ensures belongs { Belongs self.new.sharing self.new.table }
        ensures later { is_first self.new.sharing self.new.table ≡ false }
        ensures reserved { self.new.reserved ≡ self.old.reserved }
        ensures grown { self.new.grown_by_ids ≡ self.old.grown_by_ids }
    {}

    /// Drops every value, and frees every bucket that isn't reserved. From then on the buckets are
    /// those of the table that the rights are of, in its first sharing.
    pub fn clear(&mut self, slots: SlotRights)
    where
        T: Drop,
        ensures table { self.new.table ≡ slots.table }
        ensures sharing { self.new.sharing ≡ Some (first_of self.new.table) }
        ensures reserved { self.new.reserved ≡ self.old.reserved }
        ensures grown { self.new.grown_by_ids ≡ true }
    {
        self.owner_before_first(slots).clear();
    }

    /// Gives the pointers and the number of reserved slots back to an owner, with all that was lent
    /// while they were shared, and with what the slots were published with in the sharing that ends.
    pub fn into_parts(self) -> (BucketPointers<T>, usize, Book<T>)
        ensures reserved { result.1 ≡ self.reserved }
        ensures owned { IsOwned (record { contents = result.0; reserved = result.1 }) }
        ensures book { (result.2.sharing ≡ self.sharing) × (result.2.contents ≡ result.0) }
    {
        let Self { pointers, reserved } = self;
        let book = Book {
            marker: PhantomData,
        };
        (pointers, reserved, book)
    }

    /// The same memory as `SharedParts`: what an owner sees as a `BucketPointer` is a
    /// `SharedBucket` there. The two structs have fields of the same layout in the same order.
    pub(crate) fn parts(&self) -> &SharedParts<T>
        ensures { result.now ≡ self.now }
    {
        unsafe { &*(self as *const Shared<T> as *const SharedParts<T>) }
    }

    /// The bucket of this number.
    pub fn bucket(&self, bucket: usize) -> &SharedBucket<T>
        requires { bucket < 63 }
        ensures { IsBucketOf self.now bucket result.now }
    {
        &self.parts().pointers.pointers.pointers[bucket]
    }

    /// Shows that the type of the values is judged, as it was when the buckets were shared. At run
    /// time it does nothing.
    pub fn judged(&self)
        ensures judged { Judged T.row }
    {
        self.bucket(0).judged();
    }

    /// How many of the first slots are reserved.
    pub fn reserved(&self) -> usize
        ensures reserved { result ≡ self.now.reserved }
        ensures first { AreOfFirstBuckets result }
    {
        self.parts().reserved
    }

    /// How many slots the buckets have that stand, and a page that shows how many ids were held at
    /// once, as these slots do. It extends a page at hand. It loads which buckets are announced, and
    /// then the pointers of those that aren't reserved, one after another. So a bucket that is
    /// installed meanwhile may be counted or not. Proofs alone use the page and `told`.
    pub fn slots_reached(&self, page: &Page, told: &Told<T>) -> (usize, Page)
        requires { page.now.table ≡ self.now.table }
        ensures reserved { self.now.reserved ≤ result.0 }
        ensures most { result.0 < 2 ^ 63 }
        ensures table { result.1.table ≡ self.now.table }
        ensures early { IsPrefix page.now.moves result.1.moves }
        ensures grown { self.now.grown_by_ids ≡ true
            → result.0 ≤ max self.now.reserved (2 * length (held_after result.1.moves) - 1) }
        ensures told { AllOf self.now.sharing (λ token. 2 ^ bucket_of token.id ≤ result.0) told.now }
        ensures values { IsSome self.now.sharing
            → All (λ token. token.sharing ≡ self.now.sharing) told.now
            → AllPairs (λ one other. one.id ≢ other.id) told.now
            → length told.now ≤ result.0 }
    {
        // That the ids are in range.
        let _ = &told.marker;
        let mut slots = self.reserved();
        let mut seen = page.again();
        // The reserved buckets stand. They are the first ones, so the number of their slots is the
        // word that has their bits.
        let pointers = &self.parts().pointers;
        let announced = load_announced(&pointers.announced, &pointers.pointers.pointers, told);
        let mut left = announced & !(slots as u64);
        'buckets: while left != 0 {
            let (bucket, size) = take_first_bucket(&mut left);
            if let Some(row) = self.bucket(bucket).load(told) {
                slots += size;
                seen = row.reached(&seen);
            }
        }
        (slots, seen)
    }
}

impl<T: Drop> Drop for Shared<T> {
    // Where the call isn't inlined, the caller copies the pointers once more.
    #[inline(always)]
    fn drop(self) {
        let (pointers, _, book) = self.into_parts();
        drop(book);
        drop(pointers);
    }
}

unsafe impl<T: Send> Send for Shared<T> {}

unsafe impl<T: Send> Sync for Shared<T> {}
