//! The pointer of a bucket that threads share: null while the bucket is missing, and to its block
//! of slots once it stands.
ghost use Rattle.std.specs.Prelude.{◌≡◌, ◌^◌, ◌<◌, true, None, IfSome, IsSome};
ghost use Rattle.thread_local_base.specs.Place.{id_at};
ghost use Rattle.thread_local_base.specs.Judged.{Judged};
ghost use Rattle.thread_local_shared_buckets.specs.Shared.{BucketView, bucket_view_coded, bucket_owns, bucket_shares};
ghost use Rattle.thread_local_ids.specs.TokenLists.{NoneIn};

use crate::row::Row;
use std::marker::{Brand, Move, Owns, PhantomData};
use std::sync::atomic::Ordering::SeqCst;
use std::sync::atomic::raw::ptr;
use thread_local_buckets::Chunk;
use thread_local_ids::{Token, Told};

/// A bucket that threads share: its pointer, which an owner sees as a `BucketPointer`. A contract
/// sees its table, the sharing, its number, whether it is reserved, and whether its table grew by
/// ids alone.
pub struct SharedBucket<T> {
    pub at: *mut Chunk<T>,
}

impl<T> Owns for SharedBucket<T> {
    ghost Value = { BucketView };

    ghost coded = { bucket_view_coded };

    ghost shr_at = { λ d p κ. bucket_shares T.row d p κ };
}

impl<T> Move for SharedBucket<T> {
    ghost own_val = { λ d vs. bucket_owns T.row d (λ p. Fields.own_val (record { at = p }) vs) };
}

impl<T> SharedBucket<T> {
    /// The row of the bucket's slots, for as long as the bucket is borrowed, or `None` where the
    /// bucket is missing. A reserved bucket is never missing, nor is one with the slot of a token
    /// of `told`, which proofs alone use.
    ///
    /// It is one atomic load. It never waits and takes no memory.
    pub fn load(&self, told: &Told<T>) -> Option<Row<'_, T>>
        ensures of { IfSome result (λ row. row.of ≡ self.now) }
        ensures reserved { self.now.reserved ≡ true → IsSome result }
        ensures told { result ≡ None → NoneIn self.now.sharing self.now.bucket told.now }
    {
        let _ = told;
        let at = unsafe { ptr::load::<u64, Brand>(&raw const self.at as *const *mut u64, SeqCst) };
        if at.is_null() {
            None
        } else {
            Some(Row {
                at: at as *mut Chunk<T>,
                marker: PhantomData,
            })
        }
    }

    /// Shows that the type of the values is judged, as it was when the bucket was made. At run time
    /// it does nothing.
    pub fn judged(&self)
        ensures judged { Judged T.row }
    {}
}

impl<T: Sync> SharedBucket<T> {
    /// The value that the slot at `index` was published with, as the token says, for as long
    /// as the bucket is borrowed.
    ///
    /// It is one atomic load of the bucket's pointer, which isn't null. It never waits and takes no
    /// memory.
    pub fn value<'a>(&'a self, index: usize, token: &Token<T>) -> &'a T
        requires inside { index < 2 ^ self.now.bucket }
        requires id { token.now.id ≡ id_at self.now.bucket index }
        requires sharing { token.now.sharing ≡ self.now.sharing }
        requires named { IsSome self.now.sharing }
        ensures { result.now ≡ token.now.value }
    {
        let _ = token;
        let at = unsafe { ptr::load::<u64, Brand>(&raw const self.at as *const *mut u64, SeqCst) };
        unsafe { &*(at as *const T).add(index) }
    }
}

unsafe impl<T: Send> Send for SharedBucket<T> {}

unsafe impl<T: Send> Sync for SharedBucket<T> {}
