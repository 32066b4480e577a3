//! What one load of a word of flags saw: which of the 64 slots of a chunk had a value.
ghost use Rattle.std.specs.Prelude.{◌≡◌, ℕ, ◌+◌, ◌-◌, ◌*◌, ◌^◌, ◌<◌, true, List};
ghost use Rattle.thread_local_base.specs.Bits.{is_set};
ghost use Rattle.thread_local_base.specs.Place.{id_at};
ghost use Rattle.thread_local_shared_buckets.specs.Shared.{BucketView, bucket_view_coded, seen_owns};
ghost use denote.Sharing.{said};
ghost use denote.RawPtr.{Ptr, coded_ptr};

use std::marker::{Model, PhantomData};
use thread_local_ids::Token;

/// The flags of a chunk of a row's slots, as one load found them, with the values of those that were
/// set, for as long as the bucket is borrowed. A slot that gets its value later isn't seen. A
/// contract sees which chunk of which bucket it is, and the names of the row's slots.
#[derive(Drop)]
pub struct Seen<'a, T> {
    /// The address of the value of the chunk's first slot.
    pub(crate) values: *const T,
    pub flags: u64,
    pub marker: PhantomData<&'a T>,
    pub ghost of: { BucketView } by { bucket_view_coded },
    pub ghost names: { List ℕ },
    pub ghost chunk: { ℕ },
    /// The address of the bucket's block.
    pub ghost at: { Ptr } by { coded_ptr },
}

impl<'a, T> Model for Seen<'a, T> {
    ghost also_owns = { λ s. seen_owns T.row s.of s.at s.names s.chunk s.flags s.values 'a };

    ghost also_shares = { λ s _ κ. said (seen_owns T.row s.of s.at s.names s.chunk s.flags s.values 'a) κ };
}

impl<'a, T> Seen<'a, T> {
    /// The flags: bit j is set where slot j of the chunk had a value.
    pub fn flags(&self) -> u64
        ensures { result ≡ self.now.flags }
    {
        self.flags
    }

    /// The value of the slot with this bit, whose flag was set, and a token of it, for who knows the
    /// slot's id. The `&` lasts as long as the bucket is borrowed, whoever claims the
    /// slot meanwhile. It is no atomic step.
    #[inline]
    pub fn give(&self, bit: usize, id: usize) -> (Token<T>, &'a T)
        requires within { bit < 64 }
        requires set { is_set self.now.flags bit ≡ true }
        requires id { id ≡ id_at self.now.of.bucket (self.now.chunk * 64 + bit) }
        requires in_range { id < 2 ^ 63 - 1 }
        ensures told { (result.0.sharing ≡ self.now.of.sharing)
            × (result.0.id ≡ id_at self.now.of.bucket (self.now.chunk * 64 + bit))
            × (result.0.value ≡ result.1.now) }
    {
        let values = self.values;
        let value = unsafe { &*values.add(bit) };
        let token = Token {
            id,
            marker: PhantomData,
        };
        (token, value)
    }
}

unsafe impl<T: Send> Send for Seen<'_, T> {}

unsafe impl<T: Send> Sync for Seen<'_, T> {}
