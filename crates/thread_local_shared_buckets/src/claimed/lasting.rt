//! The value of a claim's slot, lent for longer than the claim.
ghost use Rattle.std.specs.Prelude.{◌≡◌, true, is_some};
ghost use Rattle.thread_local_base.specs.Learnt.{Holding};
ghost use Rattle.thread_local_shared_buckets.specs.Known.{value_held};

use super::ClaimedSlot;

impl<'a, T: Sync> ClaimedSlot<'a, T> {
    /// The value that the slot holds, for as long as the bucket is borrowed: it outlives the claim,
    /// since walks may borrow it.
    pub(crate) fn lasting(&self) -> &'a T
        requires published { is_some (value_held self.now.learnt) ≡ true }
        ensures { self.now.learnt ≡ Holding result.now }
    {
        unsafe { &*(self.at as *const T) }
    }
}
