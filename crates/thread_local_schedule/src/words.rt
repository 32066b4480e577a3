//! What the words of the theorems say, each from the side on which it promises nothing.
ghost use Rattle.std.specs.Prelude.{◌≡◌, ℕ, ◌+◌, ◌^◌, ◌<◌, ◌⊎◌, Bool, true, false, List, [], Some, None, IsTrue};
ghost use Rattle.std.specs.Prelude.{◌≢◌, max, IsSomeAnd, ◌∷◌, ◌++◌, Result, Ok, Err, ◌↔◌, suc, IsSome, if◌then◌else◌};
ghost use Rattle.thread_local_base.specs.Held.{held_count, HoldsAllBelow, is_held};
ghost use Rattle.thread_local_base.specs.Walk.{walk};
ghost use Rattle.thread_local_schedule.specs.Table.{bucket_stands, published, Table, Slot};
ghost use Rattle.thread_local_schedule.specs.Local.{Local, LocalStep, Doing, MakeBucket, Private, Filled, BeginGet};
ghost use Rattle.thread_local_schedule.specs.Local.{BeginGetOr, LoadPointer, LookAtFlag, FillBucket, AnnounceBucket, InstallBucket, WriteValue};
ghost use Rattle.thread_local_schedule.specs.Local.{SetFlag, Reply, Written};
ghost use Rattle.thread_local_schedule.specs.SharedWalk.{SharedWalk, begun_walk, WalkStep, buckets_among};
ghost use Rattle.thread_local_schedule.specs.Fits.{number_at, IsSameBucket, IsWritten};
ghost use Rattle.thread_local_schedule.specs.Numbers.{own_number};
ghost use Rattle.thread_local_schedule.specs.Core.{Core, installed_slots, private_slots};
ghost use Rattle.thread_local_schedule.specs.Events.{Event, TakeId, OfLocal, GiveBack, Forget, BeginWalk, OfWalk};
ghost use Rattle.thread_local_schedule.specs.Events.{EndWalk, OwnerCall, Owner, is_enabled, happens, run, IntoIter};
ghost use Rattle.thread_local_schedule.specs.Events.{RewriteTable, DrainTable, DropTable, ClearTable};
ghost use Rattle.thread_local_schedule.specs.Schedule.{begins_walk, is_exclusive, is_of, is_of_walk, is_refused};
ghost use Rattle.thread_local_schedule.specs.Schedule.{is_granted_take, newcomer, IsReached, NoneTaken, is_take};
ghost use Rattle.thread_local_schedule.specs.Schedule.{ends_table, IsAlone, move, changes_values};
ghost use Rattle.thread_local_base.specs.Place.{bucket_of};
ghost use Rattle.thread_local_base.specs.Buckets.{slots};
ghost use Rattle.thread_local_schedule.specs.Bounds.{TakesBelow, NothingRefused, most_held, publishings};
ghost use Rattle.thread_local_base.specs.IdMoves.{Take, Give, Publish, noted};
ghost use Rattle.thread_local_base.specs.Sheet.{Sheet, OfHistory, Rewrite, Clear};
ghost use Rattle.thread_local_schedule.specs.TableMoves.{OfSheet, Drain, IsMoveAllowed};
ghost use Rattle.thread_local_schedule.specs.History.{history, is_as_published};
ghost use Rattle.thread_local_base.specs.Answers.{Answer, Refused, Call, Get, GetOr, View, answer, view_after, answers};
ghost use Rattle.thread_local_schedule.specs.Calls.{gets_of, closure_of, HasNoCall, GoesOn, steps_left, GoesDown};
ghost use Rattle.thread_local_schedule.specs.Calls.{EndsWith};

/// What the words say in which the theorems are told, each by what makes it true and by what it
/// makes true: so that no clause holds only because a word in it is true of nothing.
pub fn words_say<V, E>()
    // The installed slots are those of the buckets that stand, a bucket not offered yet has all
    // slots of its id's bucket, a schedule that refuses nothing refuses none of its events, and
    // takes below a number are those that each come while fewer ids are held.
    ensures installed { (core : Core V E)
        → installed_slots core ≡ slots (bucket_stands core.table) }
    ensures private { (id : ℕ) (doing : Doing V E) (number : ℕ)
        → own_number doing ≡ Some number → private_slots id doing ≡ 2 ^ bucket_of id }
    ensures nothing { (core : Core V E) (events later : List (Event V E)) (event : Event V E)
        → NothingRefused core (events ++ event ∷ later)
        → is_refused (run core events) event ≡ false }
    ensures takes { (p : ℕ) (core : Core V E) (events : List (Event V E)) (event : Event V E)
        → TakesBelow p core events
        → (IsTrue (is_take event) → held_count (run core events).manager.held < p)
        → TakesBelow p core (events ++ event ∷ []) }

    // The most ids held at once and the publishings are counted event by event. A clear begins both
    // anew, and a drain the publishings.
    ensures most_at_first { (core : Core V E) → most_held core [] ≡ 0 }
    ensures most_later { (core : Core V E) (events : List (Event V E)) (event : Event V E)
        → (IsTrue (is_enabled (run core events) event) → event ≢ Owner ClearTable)
        → let later = events ++ event ∷ [] in
        most_held core later ≡ max (most_held core events) (held_count (run core later).manager.held) }
    ensures most_cleared { (core : Core V E) (events : List (Event V E))
        → IsTrue (is_enabled (run core events) (Owner ClearTable))
        → most_held core (events ++ Owner ClearTable ∷ []) ≡ 0 }
    ensures none_published { (core : Core V E) → publishings core [] ≡ 0 }
    ensures one_published { (core : Core V E) (events : List (Event V E)) (event : Event V E) (id : ℕ) (v : V)
        → move (run core events) event ≡ Some (OfSheet (OfHistory (Publish id v)))
        → publishings core (events ++ event ∷ []) ≡ suc (publishings core events) }
    ensures published_anew { (core : Core V E) (events : List (Event V E)) (event : Event V E)
        → move (run core events) event ≡ Some (OfSheet Clear)
        → publishings core (events ++ event ∷ []) ≡ 0 }
    ensures drained_anew { (core : Core V E) (events : List (Event V E)) (event : Event V E)
        → move (run core events) event ≡ Some Drain
        → publishings core (events ++ event ∷ []) ≡ 0 }
    ensures as_many_published { (core : Core V E) (events : List (Event V E)) (event : Event V E)
        → ((id : ℕ) (v : V) → move (run core events) event ≢ Some (OfSheet (OfHistory (Publish id v))))
        → move (run core events) event ≢ Some (OfSheet Clear)
        → move (run core events) event ≢ Some Drain
        → publishings core (events ++ event ∷ []) ≡ publishings core events }

    // Which move each event is: no other event moves anything, and none that isn't enabled.
    ensures take_moves { (core : Core V E) (event : Event V E)
        → IsTrue (is_granted_take core event) → move core event ≡ Some (OfSheet (OfHistory Take)) }
    ensures give_moves { (core : Core V E) (n : ℕ) (local : Local V E)
        → IsTrue (is_enabled core (GiveBack n))
        → core.locals n ≡ Some local
        → move core (GiveBack n) ≡ Some (OfSheet (OfHistory (Give local.id))) }
    ensures publish_moves { (core : Core V E) (n : ℕ) (local : Local V E) (v : V)
        → IsTrue (is_enabled core (OfLocal n SetFlag))
        → core.locals n ≡ Some local
        → local.doing ≡ Written v true
        → move core (OfLocal n SetFlag) ≡ Some (OfSheet (OfHistory (Publish local.id v))) }
    ensures install_moves { (core : Core V E) (n : ℕ) (local : Local V E) (v : V) (number : ℕ)
        → IsTrue (is_enabled core (OfLocal n InstallBucket))
        → core.locals n ≡ Some local
        → local.doing ≡ Filled (Ok v) number true
        → bucket_stands core.table (bucket_of local.id) ≡ false
        → move core (OfLocal n InstallBucket) ≡ Some (OfSheet (OfHistory (Publish local.id v))) }
    ensures empty_moves { (core : Core V E) (n : ℕ) (local : Local V E) (e : E) (number : ℕ)
        → IsTrue (is_enabled core (OfLocal n InstallBucket))
        → core.locals n ≡ Some local
        → local.doing ≡ Filled (Err e) number true
        → move core (OfLocal n InstallBucket) ≡ None }
    ensures beside_moves { (core : Core V E) (n : ℕ) (local : Local V E)
        → IsTrue (is_enabled core (OfLocal n InstallBucket))
        → core.locals n ≡ Some local
        → IsTrue (bucket_stands core.table (bucket_of local.id))
        → move core (OfLocal n InstallBucket) ≡ None }
    ensures rewrite_moves { (core : Core V E) (others : ℕ → V → V)
        → IsTrue (is_enabled core (Owner (RewriteTable others)))
        → move core (Owner (RewriteTable others)) ≡ Some (OfSheet (Rewrite others)) }
    ensures drain_moves { (core : Core V E) → IsTrue (is_enabled core (Owner DrainTable))
        → move core (Owner DrainTable) ≡ Some Drain }
    ensures clear_moves { (core : Core V E) → IsTrue (is_enabled core (Owner ClearTable))
        → move core (Owner ClearTable) ≡ Some (OfSheet Clear) }
    ensures no_moves { (core : Core V E) (event : Event V E)
        →
        (IsTrue (is_enabled core event)
        → (is_granted_take core event ≡ false)
        × ((n : ℕ) → event ≢ GiveBack n)
        × ((n : ℕ) → event ≢ OfLocal n SetFlag)
        × ((n : ℕ) → event ≢ OfLocal n InstallBucket)
        × ((others : ℕ → V → V) → event ≢ Owner (RewriteTable others))
        × (event ≢ Owner DrainTable)
        × (event ≢ Owner ClearTable))
        → move core event ≡ None }

    // In the history a granted take notes a take, a give back notes the id, and a publishing notes
    // the id and the value. A clear begins anew, and all else notes nothing.
    ensures no_history { (core : Core V E) → history core [] ≡ [] }
    ensures one_take { (core : Core V E) (events : List (Event V E)) (event : Event V E)
        → IsTrue (is_granted_take (run core events) event)
        → history core (events ++ event ∷ []) ≡ noted (history core events) Take }
    ensures one_give { (core : Core V E) (events : List (Event V E)) (n : ℕ) (local : Local V E)
        → IsTrue (is_enabled (run core events) (GiveBack n))
        → (run core events).locals n ≡ Some local
        → history core (events ++ GiveBack n ∷ []) ≡ noted (history core events) (Give local.id) }
    ensures one_publish { (core : Core V E) (events : List (Event V E)) (event : Event V E) (id : ℕ) (v : V)
        → move (run core events) event ≡ Some (OfSheet (OfHistory (Publish id v)))
        → history core (events ++ event ∷ []) ≡ noted (history core events) (Publish id v) }
    ensures history_anew { (core : Core V E) (events : List (Event V E))
        → IsTrue (is_enabled (run core events) (Owner ClearTable))
        → history core (events ++ Owner ClearTable ∷ []) ≡ [] }
    ensures no_more_noted { (core : Core V E) (events : List (Event V E)) (event : Event V E)
        → (IsTrue (is_enabled (run core events) event)
        → (is_granted_take (run core events) event ≡ false)
        × ((n : ℕ) → event ≢ GiveBack n)
        × ((id : ℕ) (v : V)
        → move (run core events) event ≢ Some (OfSheet (OfHistory (Publish id v))))
        × (event ≢ Owner ClearTable))
        → history core (events ++ event ∷ []) ≡ history core events }

    // Each value is as it was published until a rewrite or a drain, and from a clear on again. No
    // other event changes that.
    ensures published_at_first { (core : Core V E) → is_as_published core [] ≡ true }
    ensures rewritten { (core : Core V E) (events : List (Event V E)) (others : ℕ → V → V)
        → IsTrue (is_enabled (run core events) (Owner (RewriteTable others)))
        → is_as_published core (events ++ Owner (RewriteTable others) ∷ []) ≡ false }
    ensures drained { (core : Core V E) (events : List (Event V E))
        → IsTrue (is_enabled (run core events) (Owner DrainTable))
        → is_as_published core (events ++ Owner DrainTable ∷ []) ≡ false }
    ensures cleared { (core : Core V E) (events : List (Event V E))
        → IsTrue (is_enabled (run core events) (Owner ClearTable))
        → is_as_published core (events ++ Owner ClearTable ∷ []) ≡ true }
    ensures published_as_before { (core : Core V E) (events : List (Event V E)) (event : Event V E)
        → (IsTrue (is_enabled (run core events) event) → changes_values event ≡ false)
        → is_as_published core (events ++ event ∷ []) ≡ is_as_published core events }

    // What makes an event a take, an owner's call, one of this Local or walk, the beginning of a
    // walk, a change of the values or the end of a table.
    ensures take { (event : Event V E) → IsTrue (is_take event)
        → (refused : Bool) × (growth : ℕ) × (event ≡ TakeId refused growth) }
    ensures owners { (event : Event V E) → IsTrue (is_exclusive event)
        → (call : OwnerCall V) × (event ≡ Owner call) }
    ensures of_local { (n : ℕ) (event : Event V E) → IsTrue (is_of n event)
        → ((step : LocalStep V E) × (event ≡ OfLocal n step))
        ⊎ ((event ≡ GiveBack n) ⊎ (event ≡ Forget n)) }
    ensures of_walk { (n : ℕ) (event : Event V E) → IsTrue (is_of_walk n event)
        → ((step : WalkStep) × (event ≡ OfWalk n step)) ⊎ (event ≡ EndWalk n) }
    ensures walk_begins { (event : Event V E) → IsTrue (begins_walk event) → event ≡ BeginWalk }
    ensures values_change { (event : Event V E) → IsTrue (changes_values event)
        → ((others : ℕ → V → V) × (event ≡ Owner (RewriteTable others)))
        ⊎ ((event ≡ Owner DrainTable) ⊎ (event ≡ Owner ClearTable)) }
    ensures table_ends { (event : Event V E) → IsTrue (ends_table event)
        → (event ≡ Owner IntoIter) ⊎ (event ≡ Owner DropTable) }

    // A take that is enabled is granted or refused, a bucket that gets its memory isn't refused,
    // and the newcomer is the Local that comes.
    ensures ungranted { (core : Core V E) (refused : Bool) (growth : ℕ)
        → IsTrue (is_enabled core (TakeId refused growth))
        → is_granted_take core (TakeId refused growth) ≡ false
        → IsTrue (is_refused core (TakeId refused growth)) }
    ensures made { (core : Core V E) (n : ℕ)
        → is_refused core (OfLocal n (MakeBucket false)) ≡ false }
    ensures newcomer { (core : Core V E) (event : Event V E) (n : ℕ) (local : Local V E)
        → IsReached core
        → core.locals n ≡ None
        → (happens core event).locals n ≡ Some local
        → newcomer core event ≡ Some local }

    // The number at a place is that of the bucket that stands there, and a call's own number that
    // of the bucket that it has made. A bucket that stands in two tables is the same where it has
    // one number in both.
    ensures number_at { (table : Table V) (bucket number : ℕ)
        → (number_at table bucket ≡ Some number)
        ↔ IsSomeAnd (table.pointers bucket) (λ here. here.number ≡ number) }
    ensures same_bucket { (old new : Table V) (bucket : ℕ) → IsSameBucket old new bucket
        → IsTrue (bucket_stands new bucket) × (number_at new bucket ≡ number_at old bucket) }
    ensures own { (create : Result V E) (number : ℕ)
        → own_number (Private create number) ≡ Some number }
    ensures own_filled { (create : Result V E) (number : ℕ) (announced : Bool)
        → own_number (Filled create number announced) ≡ Some number }
    ensures own_slots { (id number : ℕ) (create : Result V E)
        → private_slots id (Private create number) ≡ 2 ^ bucket_of id }
    ensures filled_slots { (id number : ℕ) (create : Result V E) (announced : Bool)
        → private_slots id (Filled create number announced) ≡ 2 ^ bucket_of id }

    // None is taken by no event, and by one more where that is no granted take. No event is a take
    // that comes too late.
    ensures no_event { (core : Core V E) → NoneTaken core [] }
    ensures none_taken { (core : Core V E) (events : List (Event V E)) (event : Event V E)
        → NoneTaken core events
        → is_granted_take (run core events) event ≡ false
        → NoneTaken core (events ++ event ∷ []) }
    ensures no_take { (p : ℕ) (core : Core V E) → TakesBelow p core [] }

    // A schedule leads on by its last event, and calls are answered one after another, each by the
    // view that the one before leaves.
    ensures run_none { (core : Core V E) → run core [] ≡ core }
    ensures run_more { (core : Core V E) (events : List (Event V E)) (event : Event V E)
        → run core (events ++ event ∷ []) ≡ happens (run core events) event }
    ensures answers_none { (view : View V) → answers {V = V} {E = E} view [] ≡ [] }
    ensures answers_more { (view : View V) (call : Call V E) (calls : List (Call V E))
        → answers view (call ∷ calls)
        ≡ answer view call ∷ answers (view_after view call) calls }

    // A walk begins at the first slot, with what is announced and published, and has loaded no
    // pointer, and read and given nothing. The buckets among some are counted one by one.
    ensures begun { (table : Table V) → let walk = begun_walk table in
        (walk.cursor ≡ record { bucket = 0; index = 0; looks = false })
        × (walk.announced ≡ table.announced)
        × (walk.first ≡ published table)
        × (walk.loads ≡ 0)
        × (walk.read ≡ [])
        × (walk.given ≡ []) }
    ensures none_among { (these : ℕ → Bool) → buckets_among these 0 ≡ 0 }
    ensures one_among { (these : ℕ → Bool) (bucket : ℕ)
        → buckets_among these (suc bucket)
        ≡ buckets_among these bucket + (if these bucket then 1 else 0) }

    // There is nobody else where the table is alone; a Local without a call has no get and no
    // closure under way; all ids below a number are held where each is; a slot is written where its
    // flag says so; and what a move requires.
    ensures alone { (core : Core V E) (n : ℕ)
        → IsAlone core → (core.locals n ≡ None) × (core.walks n ≡ None) }
    ensures nobody { (core : Core V E)
        → ((n : ℕ) → core.locals n ≡ None)
        → ((n : ℕ) → core.walks n ≡ None)
        → IsAlone core }
    ensures no_call { (local : Local V E) → HasNoCall local
        → (gets_of local.doing ≡ 0) × (closure_of local.doing ≡ None) }
    ensures all_below { (n id : ℕ) (held : List Bool) → HoldsAllBelow n held → id < n
        → IsTrue (is_held held id) }
    ensures written { (slot : Slot V) → IsWritten slot → IsTrue slot.flag → IsSome slot.written }
    ensures allows_give { (sheet : Sheet V) (id : ℕ)
        → IsMoveAllowed sheet (OfSheet (OfHistory (Give id))) → IsTrue (is_held sheet.held id) }
    ensures allows_publish { (sheet : Sheet V) (id : ℕ) (v : V)
        → IsMoveAllowed sheet (OfSheet (OfHistory (Publish id v)))
        → (sheet.values id ≡ None) × IsTrue (is_held sheet.held id) }

    // What a step does to the calls of its Local: a get begins, a publishing call begins, none
    // begins or ends, one is refused memory, one ends or goes on, or a get or a publishing call
    // ends.
    ensures step_keeps { (step : LocalStep V E) (before after : Local V E) → GoesOn step before after
        → (after.id ≡ before.id) × (after.start ≡ before.start) }
    ensures get_begins { (before after : Local V E) → GoesOn BeginGet before after
        → (gets_of after.doing ≡ suc (gets_of before.doing))
        × (closure_of after.doing ≡ closure_of before.doing)
        × (after.calls ≡ before.calls) }
    ensures publishing_begins { (create : Result V E) (before after : Local V E)
        → GoesOn (BeginGetOr create) before after
        → (closure_of before.doing ≡ None)
        × (gets_of after.doing ≡ gets_of before.doing)
        × (closure_of after.doing ≡ Some create)
        × (after.calls ≡ before.calls) }
    ensures calls_stay { (before after : Local V E)
        → GoesOn LoadPointer before after
        ⊎ (GoesOn LookAtFlag before after
        ⊎ (GoesOn (MakeBucket false) before after
        ⊎ (GoesOn FillBucket before after ⊎ GoesOn AnnounceBucket before after)))
        → (gets_of after.doing ≡ gets_of before.doing)
        × (closure_of after.doing ≡ closure_of before.doing)
        × (after.calls ≡ before.calls) }
    ensures memory_refused { (before after : Local V E) → GoesOn (MakeBucket true) before after
        → (closure_of after.doing ≡ None)
        × (gets_of after.doing ≡ gets_of before.doing)
        × IsSomeAnd (closure_of before.doing) (λ create.
        after.calls ≡ before.calls ++ GetOr create true ∷ [])
        × (after.answered ≡ before.answered ++ Refused ∷ []) }
    ensures install_goes { (before after : Local V E) → GoesOn InstallBucket before after
        → ((gets_of after.doing ≡ gets_of before.doing)
        × (closure_of after.doing ≡ closure_of before.doing)
        × (after.calls ≡ before.calls))
        ⊎
        ((closure_of after.doing ≡ None)
        × (gets_of after.doing ≡ gets_of before.doing)
        × IsSomeAnd (closure_of before.doing) (λ create.
        after.calls ≡ before.calls ++ GetOr create false ∷ [])) }
    ensures writes { (before after : Local V E) → GoesOn WriteValue before after
        → ((gets_of after.doing ≡ gets_of before.doing)
        × (closure_of after.doing ≡ closure_of before.doing)
        × (after.calls ≡ before.calls))
        ⊎
        ((closure_of after.doing ≡ None)
        × (gets_of after.doing ≡ gets_of before.doing)
        × IsSomeAnd (closure_of before.doing) (λ create.
        after.calls ≡ before.calls ++ GetOr create false ∷ [])) }
    ensures sets_flag { (before after : Local V E) → GoesOn SetFlag before after
        → (closure_of after.doing ≡ None)
        × (gets_of after.doing ≡ gets_of before.doing)
        × IsSomeAnd (closure_of before.doing) (λ create.
        after.calls ≡ before.calls ++ GetOr create false ∷ []) }
    ensures replies { (before after : Local V E) → GoesOn Reply before after
        → ((gets_of before.doing ≡ suc (gets_of after.doing))
        × (closure_of after.doing ≡ closure_of before.doing)
        × (after.calls ≡ before.calls ++ Get ∷ []))
        ⊎
        ((closure_of after.doing ≡ None)
        × (gets_of after.doing ≡ gets_of before.doing)
        × IsSomeAnd (closure_of before.doing) (λ create.
        after.calls ≡ before.calls ++ GetOr create false ∷ [])) }
    ensures goes_down { (table later : Table V) (before after : Local V E)
        → GoesDown (table, before) (later, after)
        → steps_left (later.announced (bucket_of after.id)) after.doing after.learnt
        < steps_left (table.announced (bucket_of before.id)) before.doing before.learnt }
    ensures ends_with { (told : Answer V E) (before after : Local V E)
        → EndsWith told before after
        → HasNoCall after × (after.answered ≡ before.answered ++ told ∷ []) }
{}
