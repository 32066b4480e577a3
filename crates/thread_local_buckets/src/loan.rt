//! A loan of a table's pointers: each value is still in the loan, or lent out by it for as long as
//! the loan lasts.
ghost use Rattle.std.specs.Prelude.{true, false, [], ◌^◌, ◌≡◌, ◌≤◌, ◌<◌, ◌+◌, ◌*◌, ℕ, length, None, Some, is_some, IsSome};
ghost use base.Fml.{GName, ftrue};
ghost use Rattle.thread_local_base.specs.Place.{id_at};
ghost use Rattle.thread_local_base.specs.Buckets.{Contents, row, stands, IsTable};
ghost use Rattle.thread_local_base.specs.Rows.{value_in, with_slot};
ghost use Rattle.thread_local_base.specs.Code.{contents_coded};
ghost use Rattle.thread_local_base.specs.Bits.{is_set};
ghost use Rattle.thread_local_buckets.specs.Slots.{flag_word_at};
ghost use Rattle.thread_local_buckets.specs.LoanOwns.{loan_owns};

use crate::{Chunk, FlagSource};
use std::marker::{Model, PhantomData};

/// The pointers of an owner's buckets, lent to a walk that writes. It gives the values by ascending
/// place, each at most once.
///
/// Contracts see the contents that it still has. The flag of a slot stays set when its value is
/// given, so the flags are right only for chunks that begin at `given` or later. No call takes
/// memory.
#[derive(Drop)]
pub struct Loan<'a, T> {
    /// The address of the pointers.
    pub pointers: *const *mut Chunk<T>,
    /// The address of the value of the first slot of the chunk that was entered last.
    pub values: *mut T,
    pub marker: PhantomData<&'a mut T>,
    /// The ghost name by which the owner's buckets learn what was written.
    pub ghost name: { GName },
    /// The contents that it still has.
    pub ghost contents: { Contents T } by { contents_coded T.code },
    /// The id after the last one whose value was given.
    pub ghost given: { ℕ },
    /// The bucket of the chunk that was entered last. Before the first it is 63, the number of no bucket.
    pub ghost bucket: { ℕ },
    /// The index of this chunk's first slot.
    pub ghost first: { ℕ },
}

impl<'a, T> Model for Loan<'a, T> {
    ghost also_owns = { λ l. loan_owns 'a T.row l.pointers l.values l.name l.contents l.given l.bucket l.first };

    ghost also_shares = { λ _ _ _. ftrue };
}

impl<'a, T> Loan<'a, T> {
    /// Enters the chunk whose first slot this is.
    #[inline]
    pub fn enter(&mut self, bucket: usize, first: usize)
        requires in_table { bucket < 63 }
        requires in_bucket { first < length (row self.old.contents bucket) }
        ensures name { self.new.name ≡ self.old.name }
        ensures contents { self.new.contents ≡ self.old.contents }
        ensures given { self.new.given ≡ self.old.given }
        ensures bucket { self.new.bucket ≡ bucket }
        ensures first { self.new.first ≡ first }
    {
        let values = unsafe {
            let block = *self.pointers.add(bucket);
            (block as *mut T).add(first)
        };
        self.values = values;
    }

    /// Gives the value of a slot of the chunk that was entered, for as long as the pointers are
    /// lent. `bit` is the number of the slot's flag in the chunk's word.
    #[inline]
    pub fn give(&mut self, bit: usize) -> &'a mut T
        requires in_table { self.old.bucket < 63 }
        requires in_bucket { self.old.first + bit < length (row self.old.contents self.old.bucket) }
        requires ahead { self.old.given ≤ id_at self.old.bucket (self.old.first + bit) }
        requires published { IsSome (value_in self.old.contents self.old.bucket (self.old.first + bit)) }
        ensures value { value_in self.old.contents self.old.bucket (self.old.first + bit) ≡ Some result.now }
        ensures contents { self.new.contents
            ≡ with_slot self.old.contents self.old.bucket (self.old.first + bit) None }
        ensures given { self.new.given ≡ id_at self.old.bucket (self.old.first + bit) + 1 }
        ensures bucket { self.new.bucket ≡ self.old.bucket }
        ensures first { self.new.first ≡ self.old.first }
    {
        unsafe { &mut *self.values.add(bit) }
    }
}

impl<T> FlagSource for Loan<'_, T> {
    type Value = T;

    ghost contents = { λ loan. loan.contents };

    ghost given = { λ loan. loan.given };

    /// Whether the bucket stands.
    #[inline]
    fn stands(&mut self, bucket: usize) -> bool
        requires { bucket < 63 }
        ensures same { self.new ≡ self.old }
        ensures value { result ≡ stands self.old.contents bucket }
        ensures whole { result ≡ true → length (row self.old.contents bucket) ≡ 2 ^ bucket }
        ensures absent { result ≡ false → row self.old.contents bucket ≡ [] }
        ensures table { IsTable self.old.contents }
    {
        let block = unsafe { *self.pointers.add(bucket) };
        !block.is_null()
    }

    /// The flags of a chunk's slots, of which no value has been given yet.
    #[inline]
    fn flags(&mut self, bucket: usize, chunk: usize, flag_word: usize) -> u64
        requires in_table { bucket < 63 }
        requires in_bucket { chunk * 64 < length (row self.old.contents bucket) }
        requires ahead { self.old.given ≤ id_at bucket (chunk * 64) }
        requires flag_word { flag_word ≡ flag_word_at T.row (2 ^ bucket) chunk }
        ensures same { self.new ≡ self.old }
        ensures value { (bit : ℕ)
            → bit < 64
            → is_set result bit ≡ is_some (value_in self.old.contents bucket (chunk * 64 + bit)) }
        ensures table { IsTable self.old.contents }
    {
        let _ = chunk;
        unsafe {
            let block = *self.pointers.add(bucket);
            *(block as *const u64).add(flag_word)
        }
    }
}

unsafe impl<T: Send> Send for Loan<'_, T> {}

// A `&` to a loan gives access to none of the values.
unsafe impl<T> Sync for Loan<'_, T> {}
