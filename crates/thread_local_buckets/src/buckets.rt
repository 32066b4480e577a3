//! The buckets of a table in the hands of their exclusive owner: each bucket stands or doesn't, and
//! each slot has a value or none.
ghost use Rattle.std.specs.Prelude.{◌≡◌, ℕ, ◌^◌, ◌<◌, ◌≤◌, nat_lt, true, false, Option, Err, OnErr, OnOk};
ghost use Rattle.std.specs.Prelude.{IfOk, IfErr, unwrap_or, Some, MatchOption, ◌==◌, if◌then◌else◌};
ghost use Rattle.std.specs.Borrow.{sem};
ghost use Rattle.thread_local_base.specs.Place.{id_at};
ghost use Rattle.thread_local_base.specs.Buckets.{row, stands, slots, values, no_contents};
ghost use Rattle.thread_local_base.specs.Owned.{Owned, IsOwned};
ghost use Rattle.thread_local_base.specs.Rows.{value_in};
ghost use Rattle.thread_local_base.specs.Capacity.{reserves_bucket, reserved_slots};
ghost use Rattle.thread_local_base.specs.Sheet.{moved};
ghost use Rattle.thread_local_base.specs.Walk.{walk, paired, with_value};
ghost use Rattle.thread_local_base.specs.Owner.{with_published, cleared_row, sheet_of, publish_or_keep};

use crate::drain::Drain;
use crate::iter::{IntoEntries, IntoIter};
use crate::iter_mut::{EntriesMut, IterMut};
use crate::loan::Loan;
use crate::{BucketPointers, Chunk, FlagSource, take_first_bucket};
use std::alloc::{AllocError, Global};
use std::marker::{Model, PhantomData};
use thread_local_base::{Thread, bucket_size};

mod walking;

/// Why a capacity couldn't be reserved.
#[derive(Clone, Copy, Debug, PartialEq, Eq)]
pub enum CapacityError {
    /// The capacity is 2^63 or more.
    TooLarge,
    /// Out of memory: for a bucket or, where a whole table is made, for the bits of its ids.
    Memory(AllocError),
}

impl CapacityError {
    /// Refuses a capacity of 2^63 or more as `TooLarge`, and no other.
    pub fn check(capacity: usize) -> Result<(), CapacityError>
        ensures ok { OnOk result (capacity < 2 ^ 63) }
        ensures err { OnErr result (2 ^ 63 ≤ capacity) }
        ensures too_large { IfErr result (λ error. error ≡ CapacityError.TooLarge) }
    {
        if capacity >= 1 << 63 {
            return Err(CapacityError::TooLarge);
        }
        Ok(())
    }
}

/// The buckets of a table in the hands of their exclusive owner: a map from ids to values.
///
/// Contracts see the contents, a row of slots for each of the 63 buckets, empty where the bucket
/// doesn't stand; and the number of reserved slots, whose buckets stand.
///
/// Only `with_capacity` and `insert` take memory, and no call takes a lock. A value's drop may
/// wait: `insert` may drop the value that it is given, and `clear` drops all values, as dropping
/// the buckets does. A bucket of 2^58 bytes or more, and values aligned above 16, are refused as if
/// out of memory.
///
/// The Rust crate has no such type.
#[derive(Drop)]
pub struct Buckets<T> {
    pointers: BucketPointers<T>,
    // How many of the first slots are reserved.
    reserved: usize,
}

impl<T> Model for Buckets<T> {
    ghost use Rattle.thread_local_base.specs.Owned.{Owned, IsOwned};
    ghost use Rattle.thread_local_base.specs.Code.{owned_coded};

    ghost Value = { Owned T };

    ghost coded = { owned_coded T.code };

    ghost view = { λ b. record { contents = b.pointers; reserved = b.reserved } };

    ghost invariant = { λ b. IsOwned (record { contents = b.pointers; reserved = b.reserved }) };
}

impl<T> Buckets<T> {
    ghost use Rattle.thread_local_buckets.specs.Inserting.{LendsInserted};
    ghost use Rattle.thread_local_buckets.specs.Drain.{drain_rest, drain_lender, drain_leaves, DrainCanStep, DrainIsFresh, DrainKeepsAlong};
    ghost use Rattle.thread_local_buckets.specs.Emptied.{owned_emptied};
    ghost use Rattle.thread_local_buckets.specs.IterMut.{iter_mut_rest, iter_mut_name, iter_mut_given, entries_mut_rest, entries_mut_name, entries_mut_given};
    ghost use Rattle.thread_local_buckets.specs.LendingValues.{LendsValues, WouldStand, WouldBePublished};
    ghost use Rattle.thread_local_buckets.specs.Writing.{LendsSlot};

    /// Buckets of which none stands.
    pub fn new(alloc: Global) -> Buckets<T>
        ensures contents { result.contents ≡ no_contents }
        ensures reserved { result.reserved ≡ 0 }
    {
        Buckets {
            pointers: BucketPointers::new(alloc),
            reserved: 0,
        }
    }

    /// Makes the first buckets, one for each binary digit of the capacity, from bucket 0 up, and
    /// reserves their slots. No slot has a value.
    ///
    /// `TooLarge` means a capacity of 2^63 or more, and comes before memory is asked for. `Memory`
    /// means out of memory for a bucket; those made before it are freed, though no clause says so.
    pub fn with_capacity(alloc: Global, capacity: usize) -> Result<Buckets<T>, CapacityError>
    where
        T: Drop,
        ensures empty { IfOk result (λ buckets. (id : ℕ) → values buckets.contents id ≡ None) }
        ensures stands { IfOk result (λ buckets.
            (bucket : ℕ) → stands buckets.contents bucket ≡ reserves_bucket capacity bucket) }
        ensures slots { IfOk result (λ buckets. slots (stands buckets.contents) ≡ reserved_slots capacity) }
        ensures reserved { IfOk result (λ buckets. buckets.reserved ≡ reserved_slots capacity) }
        ensures too_large { 2 ^ 63 ≤ capacity → result ≡ Err CapacityError.TooLarge }
        ensures not_too_large { result ≡ Err CapacityError.TooLarge → 2 ^ 63 ≤ capacity }
    {
        CapacityError::check(capacity)?;
        // As many as the capacity has binary digits.
        let first = if capacity == 0 {
            0
        } else {
            capacity.ilog2() as usize + 1
        };
        let mut pointers = BucketPointers::new(alloc);
        for bucket in 0..first {
            pointers.ensure_bucket(bucket)?;
        }
        Ok(Buckets {
            pointers,
            reserved: bucket_size(first) - 1,
        })
    }

    /// Publishes a value in the slot of a place, and lends it for writing. The bucket is made if it
    /// doesn't stand. If the slot has a value, that one is kept and lent, and the new one is
    /// dropped.
    ///
    /// `Err` means out of memory for the bucket. It gives the value back, and nothing has changed.
    pub fn insert(&mut self, thread: Thread, value: T) -> Result<&mut T, T>
    where
        T: Drop,
        ensures* writes_back { sem 𝓛 (LendsInserted T.row self.entry thread.bucket thread.index result) }
        ensures answers { IfOk result (λ there.
            there.now ≡ unwrap_or (value_in self.old.contents thread.bucket thread.index) value) }

        // Where nothing is written through the reference, the map is as after a move that publishes
        // the value, or keeps the one there. No other bucket is made, whatever is written.
        ensures would_move { sheet_of
            (with_published self.old.contents thread.bucket thread.index
            (unwrap_or (value_in self.old.contents thread.bucket thread.index) value)) ≡
            moved (sheet_of self.old.contents)
            (publish_or_keep (value_in self.old.contents thread.bucket thread.index)
            (id_at thread.bucket thread.index) value) }
        ensures would_stand { (written : T) (bucket : ℕ)
            → stands (with_published self.old.contents thread.bucket thread.index written) bucket
            ≡ (if thread.bucket == bucket then true else stands self.old.contents bucket) }

        ensures err { IfErr result (λ back. back ≡ value) }
        ensures refused { OnErr result (stands self.old.contents thread.bucket ≡ false) }
    {
        match self.pointers.ensure_bucket(thread.bucket) {
            Ok(()) => {
                self.pointers.publish_or_drop(thread, value);
                Ok(self.pointers.get_mut(thread))
            }
            Err(_) => Err(value),
        }
    }

    /// Lends the value in the slot of a place for writing, or returns `None` where there is none.
    pub fn get_mut(&mut self, thread: Thread) -> Option<&mut T>
        ensures* writes_back { sem 𝓛 (LendsSlot T.row self.entry thread.bucket thread.index result) }
        ensures value { MatchOption result (value_in self.old.contents thread.bucket thread.index ≡ None)
            (λ there. value_in self.old.contents thread.bucket thread.index ≡ Some there.now) }

        // Whatever is written through the reference, the map has it at the place's id, and is
        // unchanged elsewhere.
        ensures would_map { (written : T) (id : ℕ)
            → values (with_published self.old.contents thread.bucket thread.index written) id ≡
            with_value (values self.old.contents) (id_at thread.bucket thread.index) written id }
    {
        if self.pointers.is_published(thread) {
            Some(self.pointers.get_mut(thread))
        } else {
            None
        }
    }

    /// How many slots the buckets that stand have together.
    pub fn slots(&mut self) -> usize
        ensures value { result ≡ slots (stands self.old.contents) }
        ensures reserved { self.old.reserved ≤ result }
        ensures same { self.new ≡ self.old }
    {
        let mut slots = 0;
        let mut left = self.pointers.standing();
        'buckets: while left != 0 {
            let (bucket, size) = take_first_bucket(&mut left);
            if self.pointers.stands(bucket) {
                slots += size;
            }
        }
        slots
    }

    /// Takes the buckets apart into their pointers and the number of reserved slots, to be shared
    /// among threads.
    pub fn into_parts(self) -> (BucketPointers<T>, usize)
        ensures pointers { result.0 ≡ self.contents }
        ensures reserved { result.1 ≡ self.reserved }
        ensures owned { IsOwned self }
    {
        let Buckets { pointers, reserved } = self;
        (pointers, reserved)
    }

    /// Makes an owner's buckets of their pointers and the number of reserved slots.
    pub fn from_parts(pointers: BucketPointers<T>, reserved: usize) -> Buckets<T>
        requires { IsOwned (record { contents = pointers; reserved = reserved }) }
        ensures contents { result.contents ≡ pointers }
        ensures reserved { result.reserved ≡ reserved }
    {
        Buckets { pointers, reserved }
    }

    /// A walk over the values by ascending id, each lent as `&mut`. It begins with a count of the
    /// values.
    pub fn iter_mut(&mut self) -> IterMut<'_, T>
        ensures* writes_back { sem 𝓛 (LendsValues T.row self.entry (iter_mut_name result)) }
        ensures rest { iter_mut_rest result ≡ walk (values self.old.contents) }
        ensures fresh { iter_mut_given result ≡ 0 }

        // Whatever is written through the items, the same buckets stand and the same ids have a
        // value.
        ensures would_stand { WouldStand self.old }
        ensures would_be_published { WouldBePublished self.old }
    {
        IterMut {
            entries: self.entries_mut(),
        }
    }

    /// `iter_mut`, with the id of each value. Rust's crate has no such walk.
    pub fn entries_mut(&mut self) -> EntriesMut<'_, T>
        ensures* writes_back { sem 𝓛 (LendsValues T.row self.entry (entries_mut_name result)) }
        ensures rest { entries_mut_rest result ≡ walk (paired (values self.old.contents)) }
        ensures fresh { entries_mut_given result ≡ 0 }

        // Whatever is written through the items, the same buckets stand and the same ids have a
        // value.
        ensures would_stand { WouldStand self.old }
        ensures would_be_published { WouldBePublished self.old }
    {
        let cursor = self.pointers.begin_walk();
        EntriesMut {
            loan: self.lend(),
            cursor,
        }
    }

    /// Lends the pointers for as long as the buckets are borrowed.
    fn lend(&mut self) -> Loan<'_, T>
        ensures* writes_back { sem 𝓛 (LendsValues T.row self.entry result.name) }
        ensures contents { result.contents ≡ self.old.contents }
        ensures given { result.given ≡ 0 }
    {
        let pointers = &raw mut self.pointers;
        Loan {
            pointers: pointers as *const *mut Chunk<T>,
            values: pointers as *mut T,
            marker: PhantomData,
        }
    }

    /// A walk over the values by ascending id, each moved out with its id. It begins with a count
    /// of the values. Rust's crate has no such walk.
    pub fn into_entries(self) -> IntoEntries<T>
        ensures { result ≡ walk (paired (values self.contents)) }
    {
        // Taken apart first: a count in place would have the compiler copy the pointers once more.
        let Buckets {
            mut pointers,
            reserved,
        } = self;
        let cursor = pointers.begin_walk();
        IntoEntries {
            buckets: Buckets { pointers, reserved },
            cursor,
        }
    }

    /// A walk over the values by ascending id, each moved out, while the buckets stay: they need no
    /// memory for the next values at the same ids. It begins with a count of the values.
    ///
    /// Dropping the walk drops the values still to come. A forgotten one leaves these in the
    /// buckets.
    pub fn drain(&mut self) -> Drain<'_, T>
    where
        T: Drop,
        ensures ready { DrainCanStep result }
        ensures rest { drain_rest result ≡ walk (values self.old.contents) }
        ensures fresh { DrainIsFresh result }

        // Once dropped it leaves the same buckets without a value, also after calls of `next`.
        ensures same_reference { drain_lender result ≡ self.entry.ghost_name }
        ensures leaves { drain_leaves result ≡ owned_emptied self.old }
        ensures stays { DrainKeepsAlong result }
        ensures would_be_empty { (id : ℕ) → values (owned_emptied self.old).contents id ≡ None }
        ensures would_stand { (bucket : ℕ)
            → stands (owned_emptied self.old).contents bucket ≡ stands self.old.contents bucket }
    {
        let cursor = self.pointers.begin_walk();
        Drain {
            buckets: self,
            cursor,
        }
    }

    /// Drops every value, and frees every bucket that isn't reserved. Reserved buckets stay, and
    /// aren't allocated again: all their slots are empty.
    pub fn clear(&mut self)
    where
        T: Drop,
        ensures rows { (bucket : ℕ) → row self.new.contents bucket ≡ cleared_row self.old.reserved bucket }
        ensures empty { (id : ℕ) → values self.new.contents id ≡ None }
        ensures stands { (bucket : ℕ)
            → stands self.new.contents bucket ≡ nat_lt (id_at bucket 0) self.old.reserved }
        ensures slots { slots (stands self.new.contents) ≡ self.old.reserved }
        ensures reserved { self.new.reserved ≡ self.old.reserved }
    {
        self.pointers.clear(self.reserved);
    }
}

impl<T: Drop> IntoIterator for Buckets<T> {
    type Item = T;

    type IntoIter = IntoIter<T>;

    ghost into_iter_gives = { λ buckets walked. walked ≡ walk (values buckets.contents) };

    /// A walk over the values by ascending id, each moved out. It begins with a count of the
    /// values.
    fn into_iter(self) -> IntoIter<T> {
        // Taken apart first, as in `into_entries`.
        let Buckets {
            mut pointers,
            reserved,
        } = self;
        let cursor = pointers.begin_walk();
        IntoIter {
            buckets: Buckets { pointers, reserved },
            cursor,
        }
    }
}
