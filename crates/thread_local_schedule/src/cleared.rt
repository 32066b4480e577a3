//! What a clear and a drain leave of a table.
ghost use Rattle.std.specs.Prelude.{◌≡◌, ℕ, IsTrue};
ghost use Rattle.thread_local_base.specs.Capacity.{reserves_bucket};
ghost use Rattle.thread_local_schedule.specs.Table.{Table, empty_slot, slot_at, bucket_stands};
ghost use Rattle.thread_local_schedule.specs.Fits.{number_at};
ghost use Rattle.thread_local_schedule.specs.Cleared.{cleared, drained};

/// A clear leaves every slot empty, and of the buckets exactly the reserved ones: the same buckets
/// as before, not new ones. The same buckets are announced as before.
pub fn a_clear_keeps_the_reserved<V>()
    ensures empty { (table : Table V) (capacity id : ℕ) → slot_at (cleared table capacity) id ≡ empty_slot }
    ensures stands { (table : Table V) (capacity bucket : ℕ)
        → (IsTrue (reserves_bucket capacity bucket) → IsTrue (bucket_stands table bucket))
        → bucket_stands (cleared table capacity) bucket ≡ reserves_bucket capacity bucket }
    ensures same { (table : Table V) (capacity bucket : ℕ)
        → IsTrue (reserves_bucket capacity bucket)
        → number_at (cleared table capacity) bucket ≡ number_at table bucket }
    ensures made { (table : Table V) (capacity : ℕ) → (cleared table capacity).made ≡ table.made }
    ensures announced { (table : Table V) (capacity : ℕ)
        → (cleared table capacity).announced ≡ table.announced }
{}

/// A drain leaves every slot empty, and every bucket as it stood: the same buckets, not new ones. The
/// same are announced as before.
pub fn a_drain_keeps_every_bucket<V>()
    ensures empty { (table : Table V) (id : ℕ) → slot_at (drained table) id ≡ empty_slot }
    ensures stands { (table : Table V) (bucket : ℕ)
        → bucket_stands (drained table) bucket ≡ bucket_stands table bucket }
    ensures same { (table : Table V) (bucket : ℕ)
        → number_at (drained table) bucket ≡ number_at table bucket }
    ensures made { (table : Table V) → (drained table).made ≡ table.made }
    ensures announced { (table : Table V) → (drained table).announced ≡ table.announced }
{}
