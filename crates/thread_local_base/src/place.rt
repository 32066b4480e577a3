//! The place of an id in a table: its bucket, from 0 to 62, and its index in the bucket.
ghost use Rattle.std.specs.Prelude.{◌≡◌, ℕ, ◌+◌, ◌*◌, ◌-◌, ◌^◌, ◌<◌, ◌≤◌};
ghost use Rattle.thread_local_base.specs.Place.{bucket_of, index_of, id_at};

/// How many buckets a table has.
pub const BUCKETS: usize = 63;

/// How many slots a bucket has. A table's buckets are 0 to 62, which have `bucket_size(63) - 1`
/// slots together.
pub fn bucket_size(bucket: usize) -> usize
    requires { bucket < 64 }
    ensures { result ≡ 2 ^ bucket }
{
    1 << bucket
}

/// The number of the highest set bit.
fn highest_bit(number: usize) -> usize
    requires { 0 < number }
    ensures power { 2 ^ result ≤ number }
    ensures next_power { number < 2 * 2 ^ result }
    ensures bound { result < 64 }
{
    // Bit 0 is the highest of 1 alone. It tells the compiler that the number isn't 0.
    (number | 1).ilog2() as usize
}

/// The place of an id in a table: its bucket, and its index in the bucket. No call waits or takes
/// memory.
///
/// The name is the Rust crate's; no running thread is meant. Unlike there it is public, and
/// `in_table` and `in_bucket` say that the fields are a place.
#[derive(Clone, Copy)]
pub struct Thread {
    /// The bucket, from 0 to 62.
    pub bucket: usize,
    /// The index in the bucket, which has `2^bucket` slots.
    pub index: usize,
    pub ghost in_table: { bucket < 63 },
    pub ghost in_bucket: { index < 2 ^ bucket },
}

impl Thread {
    /// The place of an id. Its bucket is the number of the highest set bit of `id + 1`, and the other
    /// bits are its index.
    pub fn new(id: usize) -> Thread
        requires { id < 2 ^ 63 - 1 }
        ensures bucket { result.bucket ≡ bucket_of id }
        ensures index { result.index ≡ index_of id }
    {
        let number = id + 1;
        let bucket = highest_bit(number);
        Thread {
            bucket,
            // A subtraction would cost another shift.
            index: number ^ bucket_size(bucket),
        }
    }

    /// The id at the place. `new` of it is the place.
    pub fn id(&self) -> usize
        ensures value { result ≡ id_at self.now.bucket self.now.index }
        ensures in_range { result < 2 ^ 63 - 1 }
        ensures bucket { bucket_of result ≡ self.now.bucket }
        ensures index { index_of result ≡ self.now.index }
    {
        self.index + (bucket_size(self.bucket) - 1)
    }

    /// How many slots its bucket has.
    pub fn bucket_size(&self) -> usize
        ensures { result ≡ 2 ^ self.now.bucket }
    {
        bucket_size(self.bucket)
    }
}

/// `place` counts places from id 0 upward. The place of an id is the only solution of an equation,
/// so ids and places correspond one to one.
pub fn is_bijection()
    ensures equation { (id : ℕ) → id + 1 ≡ 2 ^ bucket_of id + index_of id }
    ensures inside { (id : ℕ) → index_of id < 2 ^ bucket_of id }
    ensures only { (id bucket index : ℕ) → id + 1 ≡ 2 ^ bucket + index → index < 2 ^ bucket
        → (bucket ≡ bucket_of id) × (index ≡ index_of id) }
    ensures back { (id : ℕ) → id_at (bucket_of id) (index_of id) ≡ id }
    ensures onto { (bucket index : ℕ) → index < 2 ^ bucket
        → (bucket_of (id_at bucket index) ≡ bucket) × (index_of (id_at bucket index) ≡ index) }

    // The ids below 2^63 - 1 fill the first 63 buckets.
    ensures bounded { (id : ℕ) → id < 2 ^ 63 - 1 → bucket_of id < 63 }
    ensures filled { (bucket index : ℕ) → bucket < 63 → index < 2 ^ bucket → id_at bucket index < 2 ^ 63 - 1 }
{}
