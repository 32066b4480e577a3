//! What each event changes of what is seen.
ghost use Rattle.std.specs.Prelude.{◌≡◌, ◌≢◌, ℕ, ◌↔◌, ◌⊎◌, ◌==◌, true, false, Some, Result, Ok, Err, IsErr, IsTrue, IsSomeAnd, option_map};
ghost use Rattle.std.specs.Prelude.{if◌then◌else◌};
ghost use Rattle.thread_local_base.specs.Place.{bucket_of};
ghost use Rattle.thread_local_base.specs.Held.{with_least, without};
ghost use Rattle.thread_local_base.specs.Walk.{with_value};
ghost use Rattle.thread_local_base.specs.Learnt.{Vacant, Holding};
ghost use Rattle.thread_local_schedule.specs.Table.{slot_at, bucket_stands};
ghost use Rattle.thread_local_schedule.specs.Local.{Local, Gets, Started, Private, Filled, Written, MakeBucket, FillBucket};
ghost use Rattle.thread_local_schedule.specs.Local.{AnnounceBucket, InstallBucket, WriteValue, SetFlag};
ghost use Rattle.thread_local_schedule.specs.Fits.{number_at};
ghost use Rattle.thread_local_schedule.specs.Numbers.{own_number};
ghost use Rattle.thread_local_schedule.specs.Core.{Core, shadow};
ghost use Rattle.thread_local_schedule.specs.Events.{Event, OfLocal, GiveBack, Owner, RewriteTable, DrainTable};
ghost use Rattle.thread_local_schedule.specs.Events.{ClearTable, is_enabled, happens};
ghost use Rattle.thread_local_schedule.specs.Schedule.{is_granted_take, IsReached};

/// What each event changes of the held ids and the published values, of the buckets that stand, of
/// the slots and of what its `Local` has learnt. What a drain and a clear change stands in
/// [`crate::every_schedule`], and what a walk's steps change in [`crate::every_walk`].
pub fn events_change<V, E>()
    // A granted take holds the least free id, and a give back frees its Local's. The flag publishes
    // what was written, at the Local's id. So does an install with the value of its bucket, if that
    // has one, where none stood; where one stood, nothing is published. An owner's writes replace
    // values. No other event but a drain and a clear changes any of this.
    ensures takes { (core : Core V E) (event : Event V E)
        → IsReached core
        → IsTrue (is_granted_take core event)
        → shadow (happens core event)
        ≡ record (shadow core) { held = with_least (shadow core).held } }
    ensures gives_back { (core : Core V E) (n : ℕ) (local : Local V E)
        → IsReached core
        → IsTrue (is_enabled core (GiveBack n))
        → core.locals n ≡ Some local
        → shadow (happens core (GiveBack n))
        ≡ record (shadow core) { held = without (shadow core).held local.id } }
    ensures publishes { (core : Core V E) (n : ℕ) (local : Local V E) (v : V)
        → IsReached core
        → IsTrue (is_enabled core (OfLocal n SetFlag))
        → core.locals n ≡ Some local
        → local.doing ≡ Written v true
        → shadow (happens core (OfLocal n SetFlag))
        ≡ record (shadow core) { values = with_value (shadow core).values local.id v } }
    ensures installs_value { (core : Core V E) (n : ℕ) (local : Local V E) (v : V) (number : ℕ)
        → IsReached core
        → IsTrue (is_enabled core (OfLocal n InstallBucket))
        → core.locals n ≡ Some local
        → local.doing ≡ Filled (Ok v) number true
        → bucket_stands core.table (bucket_of local.id) ≡ false
        → shadow (happens core (OfLocal n InstallBucket))
        ≡ record (shadow core) { values = with_value (shadow core).values local.id v } }
    ensures installs_nothing { (core : Core V E) (n : ℕ) (local : Local V E) (e : E) (number : ℕ)
        → IsReached core
        → IsTrue (is_enabled core (OfLocal n InstallBucket))
        → core.locals n ≡ Some local
        → local.doing ≡ Filled (Err e) number true
        → shadow (happens core (OfLocal n InstallBucket)) ≡ shadow core }
    ensures installs_beside { (core : Core V E) (n : ℕ) (local : Local V E)
        → IsReached core
        → IsTrue (is_enabled core (OfLocal n InstallBucket))
        → core.locals n ≡ Some local
        → IsTrue (bucket_stands core.table (bucket_of local.id))
        → shadow (happens core (OfLocal n InstallBucket)) ≡ shadow core }
    ensures rewrites { (core : Core V E) (others : ℕ → V → V)
        → IsReached core
        → IsTrue (is_enabled core (Owner (RewriteTable others)))
        → shadow (happens core (Owner (RewriteTable others)))
        ≡ record (shadow core) {
          values = λ id. option_map (others id) ((shadow core).values id);
        } }
    ensures sheet_stays { (core : Core V E) (event : Event V E)
        → IsReached core
        →
        (IsTrue (is_enabled core event)
        → (is_granted_take core event ≡ false)
        × ((n : ℕ) → event ≢ GiveBack n)
        × ((n : ℕ) → event ≢ OfLocal n SetFlag)
        × ((n : ℕ) → event ≢ OfLocal n InstallBucket)
        × ((others : ℕ → V → V) → event ≢ Owner (RewriteTable others))
        × (event ≢ Owner DrainTable)
        × (event ≢ Owner ClearTable))
        → shadow (happens core event) ≡ shadow core }

    // A value is published where it is written and its flag is set, and only there. It is written
    // in the slot of the Local's id, and its flag set there. The call that has written it knows
    // whether its bucket is announced.
    ensures shows { (core : Core V E) (id : ℕ) (v : V)
        → ((shadow core).values id ≡ Some v)
        ↔ (IsTrue (slot_at core.table id).flag × ((slot_at core.table id).written ≡ Some v)) }
    ensures writes { (core : Core V E) (n : ℕ) (local : Local V E) (v : V)
        → IsReached core
        → IsTrue (is_enabled core (OfLocal n WriteValue))
        → core.locals n ≡ Some local
        → local.doing ≡ Started (Ok v)
        → slot_at (happens core (OfLocal n WriteValue)).table local.id
        ≡ record (slot_at core.table local.id) { written = Some v } }
    ensures wrote { (core : Core V E) (n : ℕ) (local : Local V E) (v : V)
        → IsTrue (is_enabled core (OfLocal n WriteValue))
        → core.locals n ≡ Some local
        → local.doing ≡ Started (Ok v)
        → IsSomeAnd ((happens core (OfLocal n WriteValue)).locals n)
        (λ after. after.doing ≡ Written v (core.table.announced (bucket_of local.id))) }
    ensures sets_flag { (core : Core V E) (n : ℕ) (local : Local V E)
        → IsReached core
        → IsTrue (is_enabled core (OfLocal n SetFlag))
        → core.locals n ≡ Some local
        → slot_at (happens core (OfLocal n SetFlag)).table local.id
        ≡ record (slot_at core.table local.id) { flag = true } }

    // A call makes its bucket empty. To fill it changes nothing of the table: the call puts in the
    // closure's value, if there is one, and then knows whether the bucket is announced. Where it
    // isn't, the call announces that bucket and no other; and so does one that has written its
    // value.
    ensures makes { (core : Core V E) (n : ℕ) (local : Local V E) (create : Result V E)
        → IsTrue (is_enabled core (OfLocal n (MakeBucket false)))
        → core.locals n ≡ Some local
        → local.doing ≡ Started create
        → IsSomeAnd ((happens core (OfLocal n (MakeBucket false))).locals n)
        (λ after. after.doing ≡ Private create core.table.made) }
    ensures fills { (core : Core V E) (n : ℕ) (local : Local V E) (create : Result V E) (number : ℕ)
        → IsTrue (is_enabled core (OfLocal n FillBucket))
        → core.locals n ≡ Some local
        → local.doing ≡ Private create number
        → IsSomeAnd ((happens core (OfLocal n FillBucket)).locals n)
        (λ after. after.doing ≡ Filled create number (core.table.announced (bucket_of local.id))) }
    ensures fill_stays { (core : Core V E) (n : ℕ) (local : Local V E)
        → IsTrue (is_enabled core (OfLocal n FillBucket))
        → core.locals n ≡ Some local
        → (happens core (OfLocal n FillBucket)).table ≡ core.table }
    ensures announces { (core : Core V E) (n : ℕ) (local : Local V E) (bucket : ℕ)
        → IsTrue (is_enabled core (OfLocal n AnnounceBucket))
        → core.locals n ≡ Some local
        → (happens core (OfLocal n AnnounceBucket)).table.announced bucket
        ≡ (if bucket_of local.id == bucket then true else core.table.announced bucket) }
    ensures announced { (core : Core V E) (n : ℕ) (local : Local V E) (create : Result V E) (number : ℕ)
        → IsTrue (is_enabled core (OfLocal n AnnounceBucket))
        → core.locals n ≡ Some local
        → local.doing ≡ Filled create number false
        → IsSomeAnd ((happens core (OfLocal n AnnounceBucket)).locals n)
        (λ after. after.doing ≡ Filled create number true) }
    ensures announced_beside { (core : Core V E) (n : ℕ) (local : Local V E) (v : V)
        → IsTrue (is_enabled core (OfLocal n AnnounceBucket))
        → core.locals n ≡ Some local
        → local.doing ≡ Written v false
        → IsSomeAnd ((happens core (OfLocal n AnnounceBucket)).locals n)
        (λ after. after.doing ≡ Written v true) }

    // An install makes the bucket of its Local's id stand, and no other: where none stood, it is
    // the one that the call has made.
    ensures installs { (core : Core V E) (n : ℕ) (local : Local V E) (bucket : ℕ)
        → IsTrue (is_enabled core (OfLocal n InstallBucket))
        → core.locals n ≡ Some local
        → bucket_stands (happens core (OfLocal n InstallBucket)).table bucket
        ≡ (if bucket_of local.id == bucket then true else bucket_stands core.table bucket) }
    ensures installs_own { (core : Core V E) (n : ℕ) (local : Local V E)
        → IsTrue (is_enabled core (OfLocal n InstallBucket))
        → core.locals n ≡ Some local
        → bucket_stands core.table (bucket_of local.id) ≡ false
        → number_at (happens core (OfLocal n InstallBucket)).table (bucket_of local.id)
        ≡ own_number local.doing }

    // After an install the slot is known to hold the bucket's value, and the call has ended. Where
    // another bucket stood, or the bucket has no value, the slot is known to be empty, and the call
    // goes on. After the flag is set it is known to hold the value.
    ensures installed { (core : Core V E) (n : ℕ) (local : Local V E) (v : V) (number : ℕ)
        → IsTrue (is_enabled core (OfLocal n InstallBucket))
        → core.locals n ≡ Some local
        → local.doing ≡ Filled (Ok v) number true
        → bucket_stands core.table (bucket_of local.id) ≡ false
        → IsSomeAnd ((happens core (OfLocal n InstallBucket)).locals n)
        (λ after. (after.learnt ≡ Holding v) × (after.doing ≡ Gets 0)) }
    ensures installed_empty { (core : Core V E) (n : ℕ) (local : Local V E) (create : Result V E) (number : ℕ)
        → IsTrue (is_enabled core (OfLocal n InstallBucket))
        → core.locals n ≡ Some local
        → local.doing ≡ Filled create number true
        → IsTrue (bucket_stands core.table (bucket_of local.id)) ⊎ IsErr create
        → IsSomeAnd ((happens core (OfLocal n InstallBucket)).locals n)
        (λ after. (after.learnt ≡ Vacant) × (after.doing ≡ Started create)) }
    ensures holds { (core : Core V E) (n : ℕ) (local : Local V E) (v : V)
        → IsTrue (is_enabled core (OfLocal n SetFlag))
        → core.locals n ≡ Some local
        → local.doing ≡ Written v true
        → IsSomeAnd ((happens core (OfLocal n SetFlag)).locals n)
        (λ after. after.learnt ≡ Holding v) }
{}
