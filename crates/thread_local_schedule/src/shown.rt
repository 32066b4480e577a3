//! What the model's table shows to an owner, and how its events change that.
ghost use Rattle.std.specs.Prelude.{◌≡◌, ℕ, ◌-◌, ◌^◌, ◌<◌, false, Some, option_map, IsTrue, None, unwrap_or};
ghost use Rattle.thread_local_base.specs.Capacity.{reserves_bucket, reserved_slots};
ghost use Rattle.thread_local_base.specs.Place.{bucket_of, index_of};
ghost use Rattle.thread_local_base.specs.Buckets.{Contents, row, stands as stands_for_owner, values, no_contents, IsTable};
ghost use Rattle.thread_local_base.specs.Walk.{walk};
ghost use Rattle.thread_local_base.specs.Owner.{with_bucket, with_published, cleared_row, emptied};
ghost use Rattle.thread_local_base.specs.Refilled.{refilled};
ghost use Rattle.thread_local_schedule.specs.Table.{Table, slot_at, published, bucket_stands, made_table, with_fresh_bucket, with_filled_bucket, with_flag};
ghost use Rattle.thread_local_schedule.specs.OwnerWalk.{owner_walk, rewritten};
ghost use Rattle.thread_local_schedule.specs.Cleared.{cleared, drained};
ghost use Rattle.thread_local_schedule.specs.Shown.{shown};

/// What the table shows to an owner: the buckets that stand, and the values whose flags are set. An owner's walk over the table is the walk over these values.
pub fn a_table_shows_its_contents<V>()
    ensures table { (table : Table V) → IsTable (shown table) }
    ensures stands { (table : Table V) (bucket : ℕ)
        → bucket < 63
        → stands_for_owner (shown table) bucket ≡ bucket_stands table bucket }
    ensures values { (table : Table V) (id : ℕ) → id < 2 ^ 63 - 1 → values (shown table) id ≡ published table id }
    ensures walk { (table : Table V) → owner_walk table ≡ walk (values (shown table)) }
{}

/// The events change what an owner sees as an owner's calls do. To install a bucket with a value in
/// it is an `insert`, and so is to set a flag; an owner's writes change values and no bucket; a
/// drain leaves every bucket and a clear the reserved ones, with all slots empty; and a table of
/// `new` shows what new buckets show.
pub fn events_change_contents_as_calls_do<V>()
    ensures installed { (table : Table V) (bucket number : ℕ)
        → bucket < 63
        → bucket_stands table bucket ≡ false
        → shown (with_fresh_bucket table bucket number) ≡ with_bucket (shown table) bucket }
    ensures filled { (table : Table V) (id number : ℕ) (v : V)
        → id < 2 ^ 63 - 1
        → bucket_stands table (bucket_of id) ≡ false
        → shown (with_filled_bucket table id number v)
        ≡ with_published (shown table) (bucket_of id) (index_of id) v }
    ensures published { (table : Table V) (id : ℕ) (v : V)
        → id < 2 ^ 63 - 1
        → IsTrue (bucket_stands table (bucket_of id))
        → (slot_at table id).written ≡ Some v
        → shown (with_flag table id) ≡ with_published (shown table) (bucket_of id) (index_of id) v }
    ensures rewritten { (table : Table V) (others : ℕ → V → V) (id : ℕ)
        → id < 2 ^ 63 - 1
        → values (shown (rewritten table others)) id ≡ option_map (others id)
        (values (shown table) id) }
    ensures rewritten_stands { (table : Table V) (others : ℕ → V → V) (bucket : ℕ)
        → bucket < 63
        → stands_for_owner (shown (rewritten table others)) bucket
        ≡ stands_for_owner (shown table) bucket }

    // These writes are those of `iter_mut`: each leaves a refilling, and each refilling comes of
    // such writes.
    ensures rewritten_refills { (table : Table V) (others : ℕ → V → V)
        → shown (rewritten table others) ≡ refilled (shown table) (shown (rewritten table others)) }
    ensures refilled_rewrites { (table : Table V) (written : Contents V)
        → shown (rewritten table (λ id. unwrap_or (values written id)))
        ≡ refilled (shown table) written }

    // A drained table shows the same buckets without their values, as what a `Drain` leaves.
    ensures drained { (table : Table V) → shown (drained table) ≡ emptied (shown table) }

    // A cleared table in which the reserved buckets stood shows these with all slots empty, and no
    // other bucket: the same as a table made with the capacity.
    ensures cleared { (table : Table V) (capacity : ℕ)
        →
        ((bucket : ℕ)
        → IsTrue (reserves_bucket capacity bucket)
        → IsTrue (bucket_stands table bucket))
        → shown (cleared table capacity) ≡ shown (made_table capacity) }
    ensures cleared_rows { (table : Table V) (capacity bucket : ℕ)
        → (IsTrue (reserves_bucket capacity bucket) → IsTrue (bucket_stands table bucket))
        → bucket < 63
        → row (shown (cleared table capacity)) bucket ≡ cleared_row (reserved_slots capacity) bucket }

    // A table of `new` shows what new buckets show, and one of a capacity what `with_capacity`
    // makes.
    ensures new { shown (made_table {V = V} 0) ≡ no_contents }
    ensures made_stands { (capacity bucket : ℕ)
        → bucket < 63
        → stands_for_owner (shown (made_table {V = V} capacity)) bucket
        ≡ reserves_bucket capacity bucket }
    ensures made_empty { (capacity id : ℕ) → id < 2 ^ 63 - 1 → values (shown (made_table {V = V} capacity)) id ≡ None }
{}
