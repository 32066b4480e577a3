//! The slots of a bucket that stands, seen by any thread: each is empty until its flag is set, and
//! holds its value from then on.
ghost use Rattle.std.specs.Prelude.{◌≡◌, ℕ, ◌+◌, ◌*◌, ◌^◌, ◌<◌, ◌≤◌, true, List, length};
ghost use Rattle.thread_local_base.specs.Bits.{is_set};
ghost use Rattle.thread_local_base.specs.Place.{id_at};
ghost use Rattle.thread_local_ids.specs.TokenLists.{AllOf};
ghost use Rattle.thread_local_base.specs.Judged.{Shareable};
ghost use Rattle.thread_local_buckets.specs.Slots.{flag_word_at};
ghost use Rattle.thread_local_shared_buckets.specs.Shared.{BucketView, bucket_view_coded, row_owns, shown_by};
ghost use mathlib.Core.List.{IsPrefix};
ghost use Rattle.thread_local_base.specs.IdMoves.{held_after};
ghost use denote.Sharing.{said};

use crate::seen::Seen;
use std::marker::{Brand, Model, PhantomData};
use std::sync::atomic::Ordering::SeqCst;
use std::sync::atomic::raw;
use thread_local_buckets::Chunk;
use thread_local_ids::{Page, Told};

/// The slots of a bucket, for as long as the bucket is borrowed. A contract sees which bucket it
/// is, and for each slot a name, under which it is known what the slot holds.
#[derive(Drop)]
pub struct Row<'a, T> {
    pub at: *mut Chunk<T>,
    pub marker: PhantomData<&'a T>,
    pub ghost of: { BucketView } by { bucket_view_coded },
    pub ghost names: { List ℕ },
}

impl<'a, T> Model for Row<'a, T> {
    ghost also_owns = { λ r. row_owns T.row r.of r.names 'a r.at };

    ghost also_shares = { λ r _ κ. said (row_owns T.row r.of r.names 'a r.at) κ };
}

impl<'a, T> Row<'a, T> {
    /// A page of the table's ids that shows how many were held at once for sure, since the bucket stands. It
    /// extends a page at hand. At run time it does nothing.
    pub fn reached(&self, page: &Page) -> Page
        requires { page.now.table ≡ self.now.of.table }
        ensures table { result.table ≡ self.now.of.table }
        ensures early { IsPrefix page.now.moves result.moves }
        ensures shown { shown_by self.now.of ≤ length (held_after result.moves) }
    {
        let _ = page;
        Page {
            marker: PhantomData,
        }
    }

    /// Looks at the slots of a chunk: one atomic load of the word with their flags, which is the word
    /// `flag_word` of the block. It sees all of them at one instant. It never waits and takes no
    /// memory.
    ///
    /// Proofs alone use `told`: what is known of its tokens' slots, this look sees.
    ///
    /// That threads may share a value is a clause and not a bound, since a walk calls this in
    /// `next`, and a trait's method isn't given the bounds of its impl.
    pub fn look(&self, chunk: usize, flag_word: usize, told: &Told<T>) -> Seen<'a, T>
        requires shareable { Shareable T.row }
        requires in_table { self.now.of.bucket < 63 }
        requires inside { chunk * 64 < 2 ^ self.now.of.bucket }
        requires flag_word { flag_word ≡ flag_word_at T.row (2 ^ self.now.of.bucket) chunk }
        ensures of { (result.of ≡ self.now.of) × (result.names ≡ self.now.names) × (result.chunk ≡ chunk) }
        ensures inside { (bit : ℕ)
            → bit < 64
            → is_set result.flags bit ≡ true
            → chunk * 64 + bit < 2 ^ self.now.of.bucket }
        ensures told { AllOf
            self.now.of.sharing
            (λ p. (bit : ℕ)
            → bit < 64
            → chunk * 64 + bit < 2 ^ self.now.of.bucket
            → p.id ≡ id_at self.now.of.bucket (chunk * 64 + bit)
            → is_set result.flags bit ≡ true)
            told.now }
    {
        let _ = told;
        let at = self.at;
        let first = chunk * 64;
        let values = unsafe { (at as *const T).add(first) };
        let word = unsafe { (at as *const u64).add(flag_word) };
        let flags = unsafe { raw::load::<Brand>(word, SeqCst) };
        Seen {
            values,
            flags,
            marker: PhantomData,
        }
    }
}

unsafe impl<T: Send> Send for Row<'_, T> {}

unsafe impl<T: Send> Sync for Row<'_, T> {}
