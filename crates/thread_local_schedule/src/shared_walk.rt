//! What holds of shared walks over every schedule.
ghost use Rattle.std.specs.Prelude.{◌≡◌, ℕ, ◌≤◌, false, map, Contains, Some, None, is_some, IsTrue};
ghost use Rattle.std.specs.Prelude.{IsSomeAnd, suc, ◌++◌, [], ◌∷◌};
ghost use Rattle.std.specs.List.Sorted.{IsStrictlyIncreasing};
ghost use Rattle.thread_local_base.specs.Cursor.{is_complete, cursor_id, after_load, after_look};
ghost use Rattle.thread_local_schedule.specs.Table.{bucket_stands};
ghost use Rattle.thread_local_schedule.specs.SharedWalk.{SharedWalk, begun_walk, next_step, Pass, Load, Look, with_pair, buckets_among};
ghost use Rattle.thread_local_schedule.specs.Core.{Core, shadow};
ghost use Rattle.thread_local_schedule.specs.Events.{Event, BeginWalk, OfWalk, EndWalk, is_enabled, happens};
ghost use Rattle.thread_local_schedule.specs.Schedule.{begins_walk, is_of_walk, IsReached};

/// What holds of a shared walk over every schedule, whatever happens between its steps: a complete
/// one gives every value that was published when it began, and only published ones, by strictly
/// ascending id; it reads each slot at most once; and it loads which buckets are announced once, as
/// it begins, and then the pointer of each of these once: at most 63, whatever it gives.
pub fn every_walk<V, E>()
    // A walk comes only where one begins, with what is announced and published then. Only its own
    // steps and its end change it, and it can go on until it is complete.
    ensures begins { (core : Core V E)
        → IsTrue (is_enabled core BeginWalk)
        → (happens core BeginWalk).walks core.walked ≡ Some (begun_walk core.table) }
    ensures comes { (core : Core V E) (event : Event V E) (n : ℕ) (shared : SharedWalk V)
        → IsReached core
        → core.walks n ≡ None
        → (happens core event).walks n ≡ Some shared
        → (shared ≡ begun_walk core.table) × IsTrue (begins_walk event) × (n ≡ core.walked) }
    ensures others { (core : Core V E) (event : Event V E) (n : ℕ) (shared : SharedWalk V)
        → IsReached core
        → is_of_walk n event ≡ false
        → core.walks n ≡ Some shared
        → (happens core event).walks n ≡ Some shared }
    ensures goes_on { (core : Core V E) (n : ℕ) (shared : SharedWalk V)
        → core.ended ≡ false → core.walks n ≡ Some shared → is_complete shared.cursor ≡ false
        → IsTrue (is_enabled core (OfWalk n (next_step shared))) }
    ensures ends { (core : Core V E) (n : ℕ)
        → IsTrue (is_enabled core (EndWalk n)) → (happens core (EndWalk n)).walks n ≡ None }
    ensures may_end { (core : Core V E) (n : ℕ) (shared : SharedWalk V)
        → core.ended ≡ false → core.walks n ≡ Some shared → IsTrue (is_enabled core (EndWalk n)) }

    // Its record: what was announced and published when it began, what it gave and read, and how
    // often it loaded a pointer. A pass loads nothing.
    ensures pass_adds { (core : Core V E) (n : ℕ) (before : SharedWalk V)
        → IsReached core
        → IsTrue (is_enabled core (OfWalk n Pass))
        → core.walks n ≡ Some before
        → IsSomeAnd ((happens core (OfWalk n Pass)).walks n) (λ after.
        (after.announced ≡ before.announced)
        × (after.first ≡ before.first)
        × (after.given ≡ before.given)
        × (after.read ≡ before.read)
        × (after.loads ≡ before.loads)) }
    ensures load_adds { (core : Core V E) (n : ℕ) (before : SharedWalk V)
        → IsReached core
        → IsTrue (is_enabled core (OfWalk n Load))
        → core.walks n ≡ Some before
        → IsSomeAnd ((happens core (OfWalk n Load)).walks n) (λ after.
        (after.announced ≡ before.announced)
        × (after.first ≡ before.first)
        × (after.given ≡ before.given)
        × (after.read ≡ before.read)
        × (after.loads ≡ suc before.loads)) }
    ensures look_adds { (core : Core V E) (n : ℕ) (before : SharedWalk V)
        → IsReached core
        → IsTrue (is_enabled core (OfWalk n Look))
        → core.walks n ≡ Some before
        → let id = cursor_id before.cursor in
        IsSomeAnd ((happens core (OfWalk n Look)).walks n) (λ after.
        (after.announced ≡ before.announced)
        × (after.first ≡ before.first)
        × (after.given ≡ with_pair before.given id ((shadow core).values id))
        × (after.read ≡ before.read ++ id ∷ [])
        × (after.loads ≡ before.loads)) }
    // Its cursor goes on by whether its bucket stands. A pass goes on as where it doesn't.
    ensures pass_moves { (core : Core V E) (n : ℕ) (before : SharedWalk V)
        → IsReached core
        → IsTrue (is_enabled core (OfWalk n Pass))
        → core.walks n ≡ Some before
        → IsSomeAnd ((happens core (OfWalk n Pass)).walks n) (λ after.
        after.cursor ≡ after_load before.cursor false) }
    ensures load_moves { (core : Core V E) (n : ℕ) (before : SharedWalk V)
        → IsReached core
        → IsTrue (is_enabled core (OfWalk n Load))
        → core.walks n ≡ Some before
        → IsSomeAnd ((happens core (OfWalk n Load)).walks n) (λ after.
        after.cursor
        ≡ after_load before.cursor (bucket_stands core.table before.cursor.bucket)) }
    ensures look_moves { (core : Core V E) (n : ℕ) (before : SharedWalk V)
        → IsReached core
        → IsTrue (is_enabled core (OfWalk n Look))
        → core.walks n ≡ Some before
        → IsSomeAnd ((happens core (OfWalk n Look)).walks n) (λ after.
        after.cursor
        ≡ after_look before.cursor (is_some ((shadow core).values (cursor_id before.cursor)))) }
    ensures complete { (core : Core V E) (n : ℕ) (shared : SharedWalk V) → IsReached core
        → core.walks n ≡ Some shared → IsTrue (is_complete shared.cursor)
        → (id : ℕ) (v : V) → shared.first id ≡ Some v → Contains shared.given (id, v) }
    ensures published { (core : Core V E) (n : ℕ) (shared : SharedWalk V) → IsReached core
        → core.walks n ≡ Some shared
        → (id : ℕ) (v : V) → Contains shared.given (id, v) → (shadow core).values id ≡ Some v }
    ensures ascending { (core : Core V E) (n : ℕ) (shared : SharedWalk V) → IsReached core
        → core.walks n ≡ Some shared → IsStrictlyIncreasing (map (λ pair. pair.0) shared.given) }
    ensures reads_once { (core : Core V E) (n : ℕ) (shared : SharedWalk V) → IsReached core
        → core.walks n ≡ Some shared → IsStrictlyIncreasing shared.read }
    ensures loads { (core : Core V E) (n : ℕ) (shared : SharedWalk V) → IsReached core
        → core.walks n ≡ Some shared → shared.loads ≤ 63 }
    ensures loads_announced { (core : Core V E) (n : ℕ) (shared : SharedWalk V) → IsReached core
        → core.walks n ≡ Some shared → IsTrue (is_complete shared.cursor)
        → shared.loads ≡ buckets_among shared.announced 63 }
{}
