//! When each step can happen, and when it can't.
ghost use Rattle.std.specs.Prelude.{◌≡◌, ◌≢◌, ℕ, suc, ◌<◌, ◌⊎◌, ◌↔◌, Bool, true, false, Some, None, Result, IsTrue};
ghost use Rattle.thread_local_base.specs.Learnt.{Unknown, Missing, Standing, Vacant, Holding};
ghost use Rattle.thread_local_schedule.specs.Local.{Local, Gets, Started, Private, Filled, Written, BeginGet, BeginGetOr};
ghost use Rattle.thread_local_schedule.specs.Local.{LoadPointer, LookAtFlag, MakeBucket, FillBucket, AnnounceBucket, InstallBucket};
ghost use Rattle.thread_local_schedule.specs.Local.{WriteValue, SetFlag, Reply};
ghost use Rattle.thread_local_schedule.specs.SharedWalk.{SharedWalk, Pass, Load, Look};
ghost use Rattle.thread_local_schedule.specs.Core.{Core};
ghost use Rattle.thread_local_schedule.specs.Events.{OfLocal, OfWalk, is_enabled};
ghost use Rattle.thread_local_schedule.specs.Schedule.{IsReached};

/// When each step of a `Local` and of a walk can happen in a table that hasn't ended, and when it
/// can't, by what the `Local` does and has learnt, and where the walk is. What other events need
/// stands in [`crate::every_schedule`] and [`crate::every_walk`].
pub fn steps_happen<V, E>()
    // A get begins where only gets are under way, and a publishing call where no call is.
    ensures get_begins { (core : Core V E) (n : ℕ) (local : Local V E)
        → core.ended ≡ false → core.locals n ≡ Some local
        → IsTrue (is_enabled core (OfLocal n BeginGet))
        ↔ ((count : ℕ) × (local.doing ≡ Gets count)) }
    ensures get_or_begins { (core : Core V E) (n : ℕ) (local : Local V E) (create : Result V E)
        → core.ended ≡ false → core.locals n ≡ Some local
        → IsTrue (is_enabled core (OfLocal n (BeginGetOr create))) ↔ (local.doing ≡ Gets 0) }

    // A Local loads its pointer until it has learnt that its bucket stands, and then looks at its
    // flag once: in a get, in a publishing call that has neither a bucket of its own nor written,
    // and where no call is under way, as the running `local` does once for each new Local.
    ensures loads { (core : Core V E) (n : ℕ) (local : Local V E)
        → core.ended ≡ false → core.locals n ≡ Some local
        → IsTrue (is_enabled core (OfLocal n LoadPointer))
        ↔ ((((count : ℕ) × (local.doing ≡ Gets count))
        ⊎ ((create : Result V E) × (local.doing ≡ Started create)))
        × ((local.learnt ≡ Unknown) ⊎ (local.learnt ≡ Missing))) }
    ensures looks { (core : Core V E) (n : ℕ) (local : Local V E)
        → core.ended ≡ false → core.locals n ≡ Some local
        → IsTrue (is_enabled core (OfLocal n LookAtFlag))
        ↔ ((((count : ℕ) × (local.doing ≡ Gets count))
        ⊎ ((create : Result V E) × (local.doing ≡ Started create)))
        × (local.learnt ≡ Standing)) }

    // A publishing call that found its bucket missing asks for memory, whatever stands by now. It
    // fills the bucket that it has made, with a value or with nothing; announces it, where it doesn't
    // know that to be announced; and then offers it. One that found its slot empty writes its value
    // or hands on the closure's error. It announces the bucket in the same way, and only then sets
    // the flag over what it has written.
    ensures asks { (core : Core V E) (n : ℕ) (local : Local V E) (refused : Bool)
        → core.ended ≡ false → core.locals n ≡ Some local
        → IsTrue (is_enabled core (OfLocal n (MakeBucket refused)))
        ↔ (((create : Result V E) × (local.doing ≡ Started create)) × (local.learnt ≡ Missing)) }
    ensures fills { (core : Core V E) (n : ℕ) (local : Local V E)
        → core.ended ≡ false → core.locals n ≡ Some local
        → IsTrue (is_enabled core (OfLocal n FillBucket))
        ↔ ((create : Result V E) × (number : ℕ) × (local.doing ≡ Private create number)) }
    ensures announces { (core : Core V E) (n : ℕ) (local : Local V E)
        → core.ended ≡ false → core.locals n ≡ Some local
        → IsTrue (is_enabled core (OfLocal n AnnounceBucket))
        ↔ (((create : Result V E) × (number : ℕ) × (local.doing ≡ Filled create number false))
        ⊎ ((v : V) × (local.doing ≡ Written v false))) }
    ensures installs { (core : Core V E) (n : ℕ) (local : Local V E)
        → IsReached core → core.ended ≡ false → core.locals n ≡ Some local
        → IsTrue (is_enabled core (OfLocal n InstallBucket))
        ↔ ((create : Result V E) × (number : ℕ) × (local.doing ≡ Filled create number true)) }
    ensures writes { (core : Core V E) (n : ℕ) (local : Local V E)
        → core.ended ≡ false → core.locals n ≡ Some local
        → IsTrue (is_enabled core (OfLocal n WriteValue))
        ↔ (((create : Result V E) × (local.doing ≡ Started create)) × (local.learnt ≡ Vacant)) }
    ensures sets { (core : Core V E) (n : ℕ) (local : Local V E)
        → IsReached core → core.ended ≡ false → core.locals n ≡ Some local
        → IsTrue (is_enabled core (OfLocal n SetFlag))
        ↔ ((v : V) × (local.doing ≡ Written v true)) }

    // A get ends that has learnt what its slot shows, and a publishing call that found a value.
    ensures replies { (core : Core V E) (n : ℕ) (local : Local V E)
        → core.ended ≡ false → core.locals n ≡ Some local
        → IsTrue (is_enabled core (OfLocal n Reply))
        ↔ ((((count : ℕ) × (local.doing ≡ Gets (suc count)))
        × ((local.learnt ≢ Unknown) × (local.learnt ≢ Standing)))
        ⊎
        (((create : Result V E) × (local.doing ≡ Started create))
        × ((v : V) × (local.learnt ≡ Holding v)))) }

    // Where a walk doesn't look at a slot next and isn't complete, it loads its bucket's pointer or
    // passes the bucket, by whether that was announced when it began.
    ensures walk_loads { (core : Core V E) (n : ℕ) (walk : SharedWalk V)
        → core.ended ≡ false → core.walks n ≡ Some walk
        → IsTrue (is_enabled core (OfWalk n Load))
        ↔ ((walk.cursor.looks ≡ false)
        × (walk.cursor.bucket < 63)
        × IsTrue (walk.announced walk.cursor.bucket)) }
    ensures walk_passes { (core : Core V E) (n : ℕ) (walk : SharedWalk V)
        → core.ended ≡ false → core.walks n ≡ Some walk
        → IsTrue (is_enabled core (OfWalk n Pass))
        ↔ ((walk.cursor.looks ≡ false)
        × (walk.cursor.bucket < 63)
        × (walk.announced walk.cursor.bucket ≡ false)) }
    ensures walk_looks { (core : Core V E) (n : ℕ) (walk : SharedWalk V)
        → core.ended ≡ false → core.walks n ≡ Some walk
        → IsTrue (is_enabled core (OfWalk n Look)) ↔ IsTrue walk.cursor.looks }
{}
