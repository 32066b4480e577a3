//! A claimed slot as it is stored: it points to the bucket's pointer until the bucket is found, and
//! to the slot's value from then on.
ghost use Rattle.std.specs.Prelude.{◌≡◌, ◌≢◌, ◌<◌, ◌^◌, ◌⊎◌, ℕ, Bool, true, false, Option, is_some};
ghost use base.Fml.{fsep};
ghost use base.Stored.{Gv, coded_bool};
ghost use Rattle.std.specs.Coded.{coded_option, coded_ℕ};
ghost use denote.RawPtr.{Ptr, coded_ptr};
ghost use Rattle.thread_local_base.specs.Learnt.{Learnt, learnt_coded, Unknown, Missing, Vacant, Holding, Finds};
ghost use Rattle.thread_local_base.specs.Place.{bucket_of, id_at};
ghost use Rattle.thread_local_base.specs.IdMoves.{left_coded};
ghost use Rattle.thread_local_ids.specs.Rights.{note_owns, taken_id};
ghost use Rattle.thread_local_ids.specs.Taken.{IsRightTo};
ghost use Rattle.thread_local_ids.specs.Sharings.{Belongs};
ghost use Rattle.thread_local_shared_buckets.specs.Announcing.{Announcing, announcing_coded};
ghost use Rattle.thread_local_shared_buckets.specs.Known.{HasLooked, MayLook, state_of, value_held};
ghost use Rattle.thread_local_shared_buckets.specs.Claims.{flag_word_of, claim_fields, claim_owns, claim_shares};

use crate::SharedBucket;
use crate::announcements::Announced;
use std::marker::{Brand, Model, PhantomData};
use std::mem::size_of;
use std::sync::atomic::Ordering::SeqCst;
use std::sync::atomic::raw;
use std::sync::atomic::raw::ptr;
use thread_local_ids::Right;

// `exchange` and what installs a block by it stand in `install`, `token`, `agrees` and `notes` in
// `told`.
mod give_up;
mod install;
mod lasting;
mod told;

/// The number of a claim that has found no bucket.
pub(crate) const MISSING: u64 = 0;

/// The number of a claim whose slot is vacant.
pub(crate) const VACANT: u64 = 1;

/// The number of a claim whose slot holds a value.
pub(crate) const HOLDING: u64 = 2;

/// The slot of an id that is claimed. Contracts see its table, its id with the index in its bucket,
/// whether its bucket is reserved, the sharing, what it has learnt of the slot, and what the id's note
/// says. It stores no index: callers pass the index and, as `flag_word`, the number of the word that has
/// the flag.
pub(crate) struct ClaimedSlot<'a, T> {
    /// The address of the bucket's pointer, and once the bucket is found, of the slot's value.
    at: *const (),
    /// What it has learnt: `MISSING`, `VACANT` or `HOLDING`.
    state: u64,
    /// A claim publishes into a bucket that others share, so its type varies no more than a bucket's.
    marker: PhantomData<&'a SharedBucket<T>>,
    /// The address of the bucket's pointer.
    pub ghost bucket: { Ptr } by { coded_ptr },
    pub ghost table: { ℕ },
    /// The sharing, if it has a name.
    pub ghost sharing: { Option ℕ } by { coded_option coded_ℕ },
    /// The table's word of announced buckets.
    pub ghost word: { Announcing } by { announcing_coded },
    pub ghost id: { ℕ },
    pub ghost index: { ℕ },
    /// Whether the bucket is reserved.
    pub ghost reserved: { Bool } by { coded_bool },
    pub ghost learnt: { Learnt T } by { learnt_coded T.code },
    /// What the id's note says that the slot was published with.
    pub ghost left: { Option Gv } by { left_coded },
}

impl<'a, T> Model for ClaimedSlot<'a, T> {
    ghost also_owns = { λ c.
        fsep
        (claim_owns T.row 'a c.table (claim_fields c.id c.index c.bucket c.at c.sharing c.word c.reserved)
        c.learnt c.state)
        (note_owns c.table c.id c.left) };

    ghost also_shares = { λ c _ κ.
        claim_shares T.row 'a (claim_fields c.id c.index c.bucket c.at c.sharing c.word c.reserved)
        c.learnt c.state κ };
}

impl<'a, T> ClaimedSlot<'a, T> {
    /// A claim to which the right is lent, and which has not looked for its slot yet.
    pub(crate) fn hold(
        bucket: &'a SharedBucket<T>,
        index: usize,
        right: Right,
    ) -> (ClaimedSlot<'a, T>, Right)
        requires right { IsRightTo bucket.now.table (id_at bucket.now.bucket index) right }
        requires here { right.lent ≡ false }
        requires within { index < 2 ^ bucket.now.bucket }
        ensures same_slot { (result.0.table ≡ right.table)
            × (result.0.sharing ≡ bucket.now.sharing)
            × (result.0.word ≡ bucket.now.word)
            × (result.0.id ≡ taken_id right.before)
            × (result.0.index ≡ index) }
        ensures unknown { result.0.learnt ≡ Unknown }
        ensures left { result.0.left ≡ right.left }
        ensures reserved { result.0.reserved ≡ bucket.now.reserved }
        ensures right { result.1 ≡ record right { lent = true } }
    {
        let right = right.lend();
        let _ = index;
        let slot = ClaimedSlot {
            at: bucket as *const SharedBucket<T> as *const (),
            state: MISSING,
            marker: PhantomData,
        };
        (slot, right)
    }

    /// Looks for the bucket, and where it stands, at the slot: one atomic load of the bucket's
    /// pointer, and one of the word `flag_word` of the block, which has the slot's flag. After an
    /// earlier miss it finds the slot empty.
    #[inline]
    pub(crate) fn find(&mut self, index: usize, flag_word: usize)
        requires missing { MayLook self.old.learnt }
        requires index { index ≡ self.old.index }
        requires flag_word { flag_word ≡ flag_word_of T.row self.old.id }
        ensures same { self.new ≡ record self.old { at = self.new.at; state = self.new.state; learnt = self.new.learnt } }
        ensures looked { HasLooked self.new.learnt }
        ensures empty { self.old.learnt ≡ Missing → (self.new.learnt ≡ Missing) ⊎ (self.new.learnt ≡ Vacant) }
        ensures reserved { self.new.reserved ≡ true → self.new.learnt ≢ Missing }
        ensures found { Finds self.old.learnt self.new.learnt }
    {
        let bucket = self.at;
        let at = unsafe {
            let bucket = bucket as *const SharedBucket<T>;
            ptr::load::<u64, Brand>(&raw const (*bucket).at as *const *mut u64, SeqCst)
        };
        if at.is_null() {
            return;
        }
        let word = unsafe { (at as *const u64).add(flag_word) };
        let value = unsafe { (at as *const T).add(index) };
        let flags = unsafe { raw::load::<Brand>(word, SeqCst) };
        self.at = value as *const ();
        // With a flag that is set, the sum is `HOLDING`.
        self.state = VACANT + (flags >> (index % 64) & 1);
    }

    /// Publishes a value in a vacant slot: the value is written, and then the flag is set, by one
    /// atomic addition to the word `flag_word` of the block. The flag is unset, so the addition
    /// changes no other bit, whatever others publish in the same word. The bucket is announced.
    #[inline]
    pub(crate) fn publish(&mut self, index: usize, flag_word: usize, value: T, announced: Announced)
        requires vacant { self.old.learnt ≡ Vacant }
        requires index { index ≡ self.old.index }
        requires flag_word { flag_word ≡ flag_word_of T.row self.old.id }
        requires announced { (announced.by ≡ self.old.word) × (announced.bucket ≡ bucket_of self.old.id) }
        requires sharing { Belongs self.old.sharing self.old.table }
        ensures { self.new ≡ record self.old {
          at = self.new.at;
          state = self.new.state;
          learnt = Holding value;
          left = self.new.left;
        } }
    {
        let at = self.at;
        // The words of flags lie behind the values.
        let distance = flag_word * 8 - index * size_of::<T>();
        let word = unsafe { (at as *const u8).add(distance) } as *const u64;
        let slot = at as *mut T;
        unsafe { slot.write(value) };
        unsafe { raw::fetch_add::<Brand>(word, 1 << (index % 64), SeqCst) };
        self.state = HOLDING;
    }

    /// The number for what it has learnt: `MISSING`, `VACANT` or `HOLDING`.
    pub(crate) fn state(&self) -> u64
        ensures { result ≡ state_of self.now.learnt }
    {
        self.state
    }

    /// The value that the slot holds, for as long as the claim is borrowed.
    pub(crate) fn value(&self) -> &T
        requires published { is_some (value_held self.now.learnt) ≡ true }
        ensures { self.now.learnt ≡ Holding result.now }
    {
        unsafe { &*(self.at as *const T) }
    }
}

unsafe impl<T: Send> Send for ClaimedSlot<'_, T> {}

unsafe impl<T: Sync> Sync for ClaimedSlot<'_, T> {}
