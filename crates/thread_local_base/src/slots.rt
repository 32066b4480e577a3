//! How many slots the buckets that stand have together.
ghost use Rattle.std.specs.Prelude.{◌≡◌, ℕ, ◌+◌, ◌^◌, ◌<◌, ◌==◌, Bool, true, false, if◌then◌else◌};
ghost use Rattle.thread_local_base.specs.Buckets.{slots};

/// Without buckets there are no slots, and a further bucket adds its own.
pub fn slots_add_up()
    ensures none { slots (λ _. false) ≡ 0 }
    ensures further { (stands : ℕ → Bool) (bucket : ℕ) → bucket < 63 → stands bucket ≡ false
        → slots (λ b. if bucket == b then true else stands b) ≡ slots stands + 2 ^ bucket }
{}
