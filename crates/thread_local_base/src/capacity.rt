//! How many slots a table's capacity reserves: those of one bucket for each binary digit of the
//! capacity.
ghost use Rattle.std.specs.Prelude.{◌≡◌, ℕ, ◌*◌, ◌^◌, ◌<◌, ◌≤◌, ◌↔◌, IsTrue};
ghost use Rattle.thread_local_base.specs.Place.{bucket_of};
ghost use Rattle.thread_local_base.specs.Capacity.{binary_digits, reserves_bucket, reserved_slots, is_reserved};
ghost use Rattle.thread_local_base.specs.Buckets.{slots};

/// A number with k binary digits is less than 2^k and, unless it is 0, at least 2^(k - 1). A
/// capacity with k digits reserves the first k buckets. They have 2^k - 1 slots, which is no fewer
/// than the capacity.
pub fn capacity_reserves_its_digits()
    ensures none { binary_digits 0 ≡ 0 }
    ensures digits { (n : ℕ) → n < 2 ^ binary_digits n }
    ensures no_more { (n : ℕ) → 0 < n → 2 ^ binary_digits n ≤ 2 * n }
    ensures bounded { (n : ℕ) → n < 2 ^ 63 → binary_digits n ≤ 63 }
    ensures enough { (capacity : ℕ) → capacity ≤ reserved_slots capacity }

    // An id is reserved exactly where its bucket is.
    ensures buckets { (capacity id : ℕ)
        → IsTrue (is_reserved capacity id) ↔ IsTrue (reserves_bucket capacity (bucket_of id)) }
    ensures slots { (capacity : ℕ)
        → capacity < 2 ^ 63
        → slots (reserves_bucket capacity) ≡ reserved_slots capacity }
{}
