//! A new core fits, is open, and has no `Local` and no walk.
ghost use Rattle.std.specs.Prelude.{◌≡◌, ℕ, ◌^◌, ◌<◌, nat_lt, false, None};
ghost use Rattle.thread_local_base.specs.Sheet.{new_sheet};
ghost use Rattle.thread_local_schedule.specs.Core.{made_core, shadow};
ghost use Rattle.thread_local_schedule.specs.CoreFits.{CoreFits};

/// A new core fits, with any capacity below 2^63, and shows a sheet with no id held and no value.
/// The first seven buckets are announced, and no other, also if it is reserved. It is open, has no
/// `Local` and no walk, and none has come so far.
pub fn made_cores_fit<V, E>()
    ensures fits { (capacity extra : ℕ)
        → capacity < 2 ^ 63
        → CoreFits {V = V} {E = E} (made_core capacity extra) }
    ensures sheet { (capacity extra : ℕ)
        → shadow {V = V} {E = E} (made_core capacity extra)
        ≡ record new_sheet { capacity = capacity } }
    ensures announced { (capacity extra bucket : ℕ)
        → (made_core {V = V} {E = E} capacity extra).table.announced bucket ≡ nat_lt bucket 7 }
    ensures open { (capacity extra : ℕ) → (made_core {V = V} {E = E} capacity extra).ended ≡ false }
    ensures unused { (capacity extra n : ℕ)
        → ((made_core {V = V} {E = E} capacity extra).locals n ≡ None)
        × ((made_core {V = V} {E = E} capacity extra).taken ≡ 0)
        × ((made_core {V = V} {E = E} capacity extra).walks n ≡ None)
        × ((made_core {V = V} {E = E} capacity extra).walked ≡ 0) }
{}
