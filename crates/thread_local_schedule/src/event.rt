//! What every event needs and does, and which cores schedules reach.
ghost use Rattle.std.specs.Prelude.{◌≡◌, ℕ, ◌+◌, ◌^◌, ◌<◌, ◌≤◌, Bool, true, false, Result, Err, Some, None, IsTrue};
ghost use Rattle.std.specs.Prelude.{IsSome, IsSomeAnd, MatchOption, if◌then◌else◌, max, ◌-◌, []};
ghost use Rattle.thread_local_base.specs.Held.{HoldsAllBelow};
ghost use Rattle.thread_local_base.specs.Place.{bucket_of};
ghost use Rattle.thread_local_base.specs.Learnt.{Unknown, Missing, Standing, Vacant, Holding};
ghost use Rattle.thread_local_base.specs.Answers.{Failed};
ghost use Rattle.thread_local_schedule.specs.Table.{empty_slot, slot_at, bucket_stands};
ghost use Rattle.thread_local_schedule.specs.Cleared.{cleared, drained};
ghost use Rattle.thread_local_base.specs.Capacity.{reserves_bucket};
ghost use Rattle.thread_local_schedule.specs.Local.{Local, LocalStep, BeginGet, BeginGetOr, LoadPointer};
ghost use Rattle.thread_local_schedule.specs.Local.{LookAtFlag, MakeBucket, AnnounceBucket, InstallBucket, WriteValue};
ghost use Rattle.thread_local_schedule.specs.Calls.{gets_of, closure_of, HasNoCall, steps_left, GoesDown, EndsWith};
ghost use Rattle.thread_local_schedule.specs.SharedWalk.{WalkStep};
ghost use Rattle.thread_local_schedule.specs.OwnerWalk.{rewritten};
ghost use Rattle.thread_local_schedule.specs.Core.{Core, made_core, new_core, shadow, peak};
ghost use Rattle.thread_local_schedule.specs.Events.{Event, TakeId, OfLocal, OfWalk, EndWalk, Owner, RewriteTable, Slots};
ghost use Rattle.thread_local_schedule.specs.Events.{DrainTable, ClearTable, is_enabled, happens};
ghost use Rattle.thread_local_schedule.specs.Schedule.{is_take, is_refused, is_granted_take, newcomer, IsReached};

/// What every event needs and does, beside what the other theorems say: so that those aren't about
/// nothing, and no event does more than it says.
pub fn events_say<V, E>()
    // A new table is open. It has room for its capacity and for as many ids more as is chosen, and
    // that of `new` for none. What schedules reach are the tables made with a capacity below 2^63,
    // and what any event makes of a reached one.
    ensures made_open { (capacity extra : ℕ)
        → (made_core {V = V} {E = E} capacity extra).ended ≡ false }
    ensures made_room { (capacity extra : ℕ)
        → (made_core {V = V} {E = E} capacity extra).manager.room ≡ capacity + extra }
    ensures made_new { new_core {V = V} {E = E} ≡ made_core 0 0 }
    ensures reached_first { (capacity extra : ℕ)
        → capacity < 2 ^ 63 → IsReached {V = V} {E = E} (made_core capacity extra) }
    ensures reached_next { (core : Core V E) (event : Event V E)
        → IsReached core → IsReached (happens core event) }

    // Only a Local makes steps of a Local, and only a walk under way goes on and ends.
    ensures lives { (core : Core V E) (n : ℕ) (step : LocalStep V E)
        → IsTrue (is_enabled core (OfLocal n step)) → IsSome (core.locals n) }
    ensures walks { (core : Core V E) (n : ℕ) (step : WalkStep)
        → IsTrue (is_enabled core (OfWalk n step)) → IsSome (core.walks n) }
    ensures ends { (core : Core V E) (n : ℕ)
        → IsTrue (is_enabled core (EndWalk n)) → IsSome (core.walks n) }

    // Until the table has ended, any number of gets may be under way where no publishing call is,
    // and a publishing call begins where no call is. A Local comes with no call under way and has
    // learnt nothing.
    ensures begins_get { (core : Core V E) (n : ℕ) (local : Local V E)
        → core.ended ≡ false → core.locals n ≡ Some local → closure_of local.doing ≡ None
        → IsTrue (is_enabled core (OfLocal n BeginGet)) }
    ensures begins_get_or { (core : Core V E) (n : ℕ) (local : Local V E) (create : Result V E)
        → core.ended ≡ false → core.locals n ≡ Some local → HasNoCall local
        → IsTrue (is_enabled core (OfLocal n (BeginGetOr create))) }
    ensures newcomers { (core : Core V E) (event : Event V E)
        → IsTrue (is_granted_take core event)
        → IsSomeAnd (newcomer core event) (λ local. HasNoCall local × (local.learnt ≡ Unknown)) }

    // A call under way always has an enabled step that brings it nearer to its end. No call has many
    // steps left, and none has more where its bucket is announced.
    ensures goes_on { (core : Core V E) (n : ℕ) (local : Local V E)
        → IsReached core
        → core.ended ≡ false
        → core.locals n ≡ Some local
        → (HasNoCall local → ⊥)
        → (step : LocalStep V E)
        × IsTrue (is_enabled core (OfLocal n step))
        × IsSomeAnd ((happens core (OfLocal n step)).locals n) (λ after.
        GoesDown (core.table, local) ((happens core (OfLocal n step)).table, after)) }
    ensures few_steps { (announced : Bool) (local : Local V E)
        → steps_left announced local.doing local.learnt ≤ gets_of local.doing + 7 }
    ensures announced_fewer { (local : Local V E)
        → steps_left true local.doing local.learnt ≤ steps_left false local.doing local.learnt }

    // A load teaches whether the bucket stands, and a look what is published. Memory is asked for
    // only where the bucket was missing, and only an install makes a bucket stand, that of its
    // Local's id. The closure's error is handed on where the slot is vacant, and also where the call
    // has made a bucket; what was learnt stays.
    ensures loads { (core : Core V E) (n : ℕ) (local : Local V E)
        → IsTrue (is_enabled core (OfLocal n LoadPointer))
        → core.locals n ≡ Some local
        → IsSomeAnd ((happens core (OfLocal n LoadPointer)).locals n) (λ after.
        after.learnt
        ≡ (if bucket_stands core.table (bucket_of local.id) then Standing else Missing)) }
    ensures looks { (core : Core V E) (n : ℕ) (local : Local V E)
        → IsTrue (is_enabled core (OfLocal n LookAtFlag))
        → core.locals n ≡ Some local
        → IsSomeAnd ((happens core (OfLocal n LookAtFlag)).locals n) (λ after.
        MatchOption ((shadow core).values local.id) (after.learnt ≡ Vacant) (λ v.
        after.learnt ≡ Holding v)) }
    ensures asks { (core : Core V E) (n : ℕ) (refused : Bool)
        → IsTrue (is_enabled core (OfLocal n (MakeBucket refused)))
        → IsSomeAnd (core.locals n) (λ local. local.learnt ≡ Missing) }
    ensures installs { (core : Core V E) (event : Event V E) (bucket : ℕ)
        → bucket_stands core.table bucket ≡ false
        → IsTrue (bucket_stands (happens core event).table bucket)
        → (n : ℕ)
        × (event ≡ OfLocal n InstallBucket)
        × IsSomeAnd (core.locals n) (λ local. bucket_of local.id ≡ bucket) }
    ensures fails { (core : Core V E) (n : ℕ) (local : Local V E) (e : E)
        → IsReached core
        → core.ended ≡ false
        → core.locals n ≡ Some local
        → closure_of local.doing ≡ Some (Err e)
        → local.learnt ≡ Vacant
        → IsTrue (is_enabled core (OfLocal n WriteValue))
        × IsSomeAnd ((happens core (OfLocal n WriteValue)).locals n) (EndsWith (Failed e) local) }

    // A bucket is announced before it comes to stand, and before a value is published in it, by the
    // step for it of a Local whose bucket it is. It stays so.
    ensures announces { (core : Core V E) (event : Event V E) (bucket : ℕ)
        → core.table.announced bucket ≡ false
        → IsTrue ((happens core event).table.announced bucket)
        → (n : ℕ)
        × (event ≡ OfLocal n AnnounceBucket)
        × IsSomeAnd (core.locals n) (λ local. bucket_of local.id ≡ bucket) }
    ensures stays_announced { (core : Core V E) (event : Event V E) (bucket : ℕ)
        → IsTrue (core.table.announced bucket)
        → IsTrue ((happens core event).table.announced bucket) }
    ensures announced_before { (core : Core V E) (event : Event V E) (bucket : ℕ)
        → IsReached core
        → bucket_stands core.table bucket ≡ false
        → IsTrue (bucket_stands (happens core event).table bucket)
        → IsTrue (core.table.announced bucket) }
    ensures announced_first { (core : Core V E) (event : Event V E) (id : ℕ) (v : V)
        → IsReached core
        → (shadow core).values id ≡ None
        → (shadow (happens core event)).values id ≡ Some v
        → IsTrue (core.table.announced (bucket_of id)) }

    // An owner's count changes nothing, and an owner's writes change the table and nothing else.
    // A drain leaves the ids and every bucket, with all slots empty.
    ensures slots { (core : Core V E) → happens core (Owner Slots) ≡ core }
    ensures rewrites { (core : Core V E) (others : ℕ → V → V)
        → IsTrue (is_enabled core (Owner (RewriteTable others)))
        → happens core (Owner (RewriteTable others))
        ≡ record core { table = rewritten core.table others } }
    ensures drained_core { (core : Core V E) → IsTrue (is_enabled core (Owner DrainTable))
        → happens core (Owner DrainTable) ≡ record core { table = drained core.table } }
    ensures drained_stands { (core : Core V E) (bucket : ℕ)
        → IsTrue (is_enabled core (Owner DrainTable))
        → bucket_stands (happens core (Owner DrainTable)).table bucket
        ≡ bucket_stands core.table bucket }
    ensures drained_slots { (core : Core V E) (id : ℕ)
        → IsTrue (is_enabled core (Owner DrainTable))
        → slot_at (happens core (Owner DrainTable)).table id ≡ empty_slot }

    // A clear leaves no id held and the table cleared, and changes nothing else. So exactly the
    // reserved buckets stand afterwards, and every slot is empty.
    ensures cleared_core { (core : Core V E) → IsTrue (is_enabled core (Owner ClearTable))
        → happens core (Owner ClearTable) ≡ record core {
          manager = record { held = []; room = core.manager.room };
          table = cleared core.table core.capacity;
        } }
    ensures cleared_stands { (core : Core V E) (bucket : ℕ)
        → IsReached core
        → IsTrue (is_enabled core (Owner ClearTable))
        → bucket_stands (happens core (Owner ClearTable)).table bucket
        ≡ reserves_bucket (shadow core).capacity bucket }
    ensures cleared_slots { (core : Core V E) (id : ℕ)
        → IsTrue (is_enabled core (Owner ClearTable))
        → slot_at (happens core (Owner ClearTable)).table id ≡ empty_slot }

    // Whether memory is refused is chosen at each request: a call that may ask for it may get it
    // and may be refused, and comes nearer to its end by either. A take for which no room is left
    // is refused exactly where memory is, while an id is left.
    ensures memory_is_chosen { (core : Core V E) (n : ℕ) (local : Local V E) (refused other : Bool)
        → IsTrue (is_enabled core (OfLocal n (MakeBucket refused)))
        → core.locals n ≡ Some local
        → IsTrue (is_enabled core (OfLocal n (MakeBucket other)))
        × IsSomeAnd ((happens core (OfLocal n (MakeBucket other))).locals n) (λ after.
        GoesDown (core.table, local) ((happens core (OfLocal n (MakeBucket other))).table, after)) }
    ensures takes_need_memory { (core : Core V E) (refused : Bool) (growth : ℕ)
        → IsReached core
        → core.ended ≡ false
        → HoldsAllBelow (peak core) (shadow core).held
        → peak core ≡ core.manager.room
        → peak core < 2 ^ 63 - 1
        → is_refused core (TakeId refused growth) ≡ refused }

    // A call that is out of memory ends in a refusal. The room changes by takes alone, and never
    // falls: a take makes room for the peak, and for as many ids more as is chosen.
    ensures out_of_memory { (core : Core V E) (n : ℕ)
        → IsTrue (is_enabled core (OfLocal n (MakeBucket true)))
        → IsTrue (is_refused core (OfLocal n (MakeBucket true))) }
    ensures room_stays { (core : Core V E) (event : Event V E)
        → is_take event ≡ false → (happens core event).manager.room ≡ core.manager.room }
    ensures room_grows { (core : Core V E) (event : Event V E)
        → core.manager.room ≤ (happens core event).manager.room }
    ensures room_of_take { (core : Core V E) (refused : Bool) (growth : ℕ)
        → IsTrue (is_granted_take core (TakeId refused growth))
        → let after = happens core (TakeId refused growth) in
        after.manager.room ≡ max core.manager.room (peak after) + growth }
{}
