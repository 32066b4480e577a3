//! The word by which threads announce buckets, and what shows that a bucket is announced.
ghost use Rattle.std.specs.Prelude.{◌≡◌, ℕ, ◌*◌, ◌%◌, ◌^◌, ◌<◌, true, false};
ghost use Rattle.thread_local_base.specs.Bits.{is_set};
ghost use Rattle.thread_local_base.specs.SharedWord.{word_shares, word_owns};
ghost use Rattle.thread_local_ids.specs.TokenLists.{NoneIn};
ghost use Rattle.thread_local_shared_buckets.specs.TableView.{AreOfTable, bucket_at};
ghost use Rattle.thread_local_shared_buckets.specs.Announcing.{Announcing, announcing_coded, BeginsWithFirst, announced, lies_with_word};

use crate::SharedBucket;
use std::marker::{Brand, Model, Move, Owns, PhantomData};
use std::sync::atomic::Ordering::SeqCst;
use std::sync::atomic::raw;
use thread_local_base::BUCKETS;
use thread_local_ids::Told;

/// The announced buckets, a bit each. While threads share the word no bit is unset. A contract sees
/// the name under which proofs know which buckets are announced, the word as it was when the sharing
/// began, and the buckets that an owner had made then.
pub struct Announcements {
    word: u64,
}

impl Owns for Announcements {
    ghost Value = { Announcing };

    ghost coded = { announcing_coded };

    ghost shr_at = { λ m p κ. word_shares (lies_with_word m) p κ };
}

impl Move for Announcements {
    ghost own_val = { λ m vs. word_owns (lies_with_word m) (λ n. Fields.own_val (record { word = n }) vs) };
}

/// Shows to proofs that a bucket is announced. It has no bytes.
#[derive(Drop)]
pub struct Announced {
    marker: PhantomData<()>,
    pub ghost by: { Announcing } by { announcing_coded },
    pub ghost bucket: { ℕ },
}

impl Model for Announced {
    ghost also_owns = { λ a. announced a.by a.bucket };
}

impl Announcements {
    /// Announces a bucket: one atomic load where it was announced before, and one more step where it
    /// wasn't. There is none for the first seven buckets, which are announced from the beginning.
    #[inline]
    pub fn announce(&self, bucket: usize) -> Announced
        requires in_table { bucket < 63 }
        requires first { BeginsWithFirst self.now }
        ensures { (result.by ≡ self.now) × (result.bucket ≡ bucket) }
    {
        if bucket < 7 {
            return self.begun(bucket);
        }
        self.set(bucket, 1 << bucket)
    }

    /// Shows that a bucket is announced that was when the sharing began. At run time it does nothing.
    fn begun(&self, bucket: usize) -> Announced
        requires begun { is_set self.now.begun bucket ≡ true }
        ensures { (result.by ≡ self.now) × (result.bucket ≡ bucket) }
    {
        let _ = bucket;
        Announced {
            marker: PhantomData,
        }
    }

    /// Sets the bit of a bucket, which is the one in `mask`, where a load doesn't find it set. It is
    /// never inlined, so that a value in one of the first seven buckets is published in a short way.
    #[inline(never)]
    fn set(&self, bucket: usize, mask: u64) -> Announced
        requires in_table { bucket < 63 }
        requires mask { mask ≡ 1 * 2 ^ bucket % 2 ^ 64 }
        ensures { (result.by ≡ self.now) × (result.bucket ≡ bucket) }
    {
        let word = unsafe { raw::load::<Brand>(&raw const self.word, SeqCst) };
        if word >> bucket & 1 != 1 {
            unsafe { raw::fetch_or::<Brand>(&raw const self.word, mask, SeqCst) };
        }
        Announced {
            marker: PhantomData,
        }
    }
}

/// The announced buckets, a bit each: one atomic load. Each bucket with the slot of a token that the
/// list has is among them, as proofs know from the buckets. Proofs alone use `buckets` and `told`.
pub(crate) fn load_announced<T>(
    word: &Announcements,
    buckets: &[SharedBucket<T>; BUCKETS],
    told: &Told<T>,
) -> u64
    requires buckets { AreOfTable buckets.now word.now }
    requires begun { BeginsWithFirst word.now }
    ensures first { is_set result 0 ≡ true }
    ensures none_past { is_set result 63 ≡ false }
    ensures told { (bucket : ℕ)
        → bucket < 63
        → is_set result bucket ≡ false
        → NoneIn (bucket_at buckets.now 0).sharing bucket told.now }
{
    let _ = buckets;
    let _ = told;
    unsafe { raw::load::<Brand>(&raw const word.word, SeqCst) }
}

unsafe impl Send for Announcements {}

unsafe impl Sync for Announcements {}

unsafe impl Send for Announced {}

unsafe impl Sync for Announced {}
