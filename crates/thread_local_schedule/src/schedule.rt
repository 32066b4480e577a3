//! What holds of a table over every schedule of atomic steps.
ghost use Rattle.std.specs.Prelude.{◌≡◌, ◌≢◌, ℕ, ◌-◌, ◌^◌, ◌<◌, ◌≤◌, ◌⊎◌, Bool, false, List, [], length, Contains};
ghost use Rattle.std.specs.Prelude.{Some, None, IsTrue, IfSome, IsSomeAnd, ◌*◌, max, ◌∷◌, true, slice_get};
ghost use Rattle.std.specs.Prelude.{if◌then◌else◌};
ghost use Rattle.std.specs.List.{AllByRecursion};
ghost use Rattle.thread_local_base.specs.Held.{is_held, least, HoldsAllBelow, held_count};
ghost use Rattle.thread_local_base.specs.Place.{bucket_of};
ghost use Rattle.thread_local_base.specs.Walk.{walk};
ghost use Rattle.thread_local_base.specs.Cursor.{is_complete};
ghost use Rattle.thread_local_base.specs.Capacity.{reserves_bucket, is_reserved, reserved_slots};
ghost use Rattle.thread_local_base.specs.IdMoves.{held_from, published_in, or_else};
ghost use Rattle.thread_local_base.specs.Sheet.{new_sheet};
ghost use Rattle.thread_local_schedule.specs.TableMoves.{moved_by_if, IsMoveAllowed};
ghost use Rattle.thread_local_schedule.specs.History.{history, is_as_published};
ghost use Rattle.thread_local_base.specs.Answers.{answers, first_view, Answer, Refused, Found, Answered};
ghost use Rattle.thread_local_schedule.specs.Table.{slot_at, bucket_stands};
ghost use Rattle.thread_local_schedule.specs.Local.{Local, LocalStep, MakeBucket};
ghost use Rattle.thread_local_schedule.specs.OwnerWalk.{owner_walk};
ghost use Rattle.thread_local_schedule.specs.Fits.{IsWritten, number_at, IsSameBucket};
ghost use Rattle.thread_local_schedule.specs.Calls.{HasNoCall, GoesOn};
ghost use Rattle.thread_local_schedule.specs.Numbers.{own_number};
ghost use Rattle.thread_local_schedule.specs.Core.{Core, shadow, peak, made_core, new_core, installed_slots};
ghost use Rattle.thread_local_schedule.specs.Core.{private_slots};
ghost use Rattle.thread_local_schedule.specs.Events.{Event, TakeId, OfLocal, GiveBack, Forget, BeginWalk};
ghost use Rattle.thread_local_schedule.specs.Events.{OwnerCall, Owner, DrainTable, ClearTable, is_enabled, happens, run};
ghost use Rattle.thread_local_schedule.specs.Events.{IntoIter, DropTable, RewriteTable};
ghost use Rattle.thread_local_schedule.specs.Schedule.{move, is_exclusive, is_of, IsAlone, is_refused, changes_values};
ghost use Rattle.thread_local_schedule.specs.Schedule.{is_granted_take, newcomer, IsReached, NoneTaken, ends_table};
ghost use Rattle.thread_local_base.specs.Buckets.{slots};
ghost use Rattle.thread_local_schedule.specs.Bounds.{most_held, publishings, TakesBelow, NothingRefused};
ghost use Rattle.thread_local_schedule.specs.Story.{after_publishing, after_walking, after_next, after_all};

/// What holds of a table over every schedule of atomic steps, from a table of `new` and from one of
/// each capacity below 2^63: each `Local` gets the least id not held; a slot's first published
/// value stays until a call of the exclusive owner; that owner walks exactly the published values,
/// each once, by ascending id; the history of takes, gives and publishings says which ids are held,
/// and, until a rewrite or a drain, which values there are; and the most ids held at once bounds,
/// with the capacity, what is installed, made, published and refused.
///
/// A clause about a reached core holds after every event of every schedule. Each call of a table's
/// owner is an event, and so is the drop, but for `buckets_mut`, which may leave any buckets, also
/// with a book, for `renew`, and for a `drain` whose walk is forgotten part way.
pub fn every_schedule<V, E>()
    // The sheet that users see changes by its moves alone, and an event that isn't enabled changes
    // nothing.
    ensures moves { (core : Core V E) (event : Event V E) → IsReached core
        → shadow (happens core event) ≡ moved_by_if (shadow core) (move core event) }
    ensures allowed { (core : Core V E) (event : Event V E) → IsReached core
        → IfSome (move core event) (IsMoveAllowed (shadow core)) }
    ensures idle { (core : Core V E) (event : Event V E)
        → is_enabled core event ≡ false → happens core event ≡ core }

    // Until the table has ended, a take and the beginning of a walk are always enabled, and an
    // owner's call exactly where there is no Local and no walk is under way.
    ensures takes { (core : Core V E) (refused : Bool) (growth : ℕ)
        → core.ended ≡ false → IsTrue (is_enabled core (TakeId refused growth)) }
    ensures walks_begin { (core : Core V E)
        → core.ended ≡ false → IsTrue (is_enabled core BeginWalk) }
    ensures alone { (core : Core V E) (call : OwnerCall V) → IsReached core
        → IsTrue (is_enabled core (Owner call)) → IsAlone core }
    ensures owners_call { (core : Core V E) (call : OwnerCall V)
        → core.ended ≡ false → IsAlone core → IsTrue (is_enabled core (Owner call)) }

    // A Local gives its id back, or is forgotten, exactly where no call of it is under way. It is
    // gone then, and the id of a forgotten one is still held.
    ensures gives_back { (core : Core V E) (n : ℕ)
        → IsTrue (is_enabled core (GiveBack n)) → IsSomeAnd (core.locals n) HasNoCall }
    ensures given_back { (core : Core V E) (n : ℕ)
        → IsTrue (is_enabled core (GiveBack n)) → (happens core (GiveBack n)).locals n ≡ None }
    ensures forgets { (core : Core V E) (n : ℕ)
        → IsTrue (is_enabled core (Forget n)) → IsSomeAnd (core.locals n) HasNoCall }
    ensures forgotten { (core : Core V E) (n : ℕ)
        → IsTrue (is_enabled core (Forget n)) → (happens core (Forget n)).locals n ≡ None }
    ensures still_held { (core : Core V E) (n : ℕ) (local : Local V E)
        → IsReached core
        → core.locals n ≡ Some local
        → IsTrue (is_held (shadow (happens core (Forget n))).held local.id) }
    ensures may_leave { (core : Core V E) (n : ℕ) (local : Local V E)
        → core.ended ≡ false → core.locals n ≡ Some local → HasNoCall local
        → IsTrue (is_enabled core (GiveBack n)) × IsTrue (is_enabled core (Forget n)) }

    // Each Local gets the least id that isn't held. While the Local exists the id is held, and no
    // other Local has it. Only a granted take makes a Local.
    ensures comes { (core : Core V E) (event : Event V E) (n : ℕ) (local : Local V E)
        → IsReached core
        → core.locals n ≡ None
        → (happens core event).locals n ≡ Some local
        → IsTrue (is_granted_take core event) × (n ≡ core.taken) }
    ensures least { (core : Core V E) (event : Event V E) → IsReached core
        → IsTrue (is_granted_take core event)
        → IsSomeAnd (newcomer core event) (λ local. local.id ≡ least (shadow core).held) }
    ensures held { (core : Core V E) (n : ℕ) (local : Local V E) → IsReached core
        → core.locals n ≡ Some local → IsTrue (is_held (shadow core).held local.id) }
    ensures unshared { (core : Core V E) (m n : ℕ) (a b : Local V E) → IsReached core
        → core.locals m ≡ Some a → core.locals n ≡ Some b → a.id ≡ b.id → m ≡ n }

    // A slot's first published value stays until an owner's call, and an owner's walk gives the
    // published values.
    ensures first_values_stay { (core : Core V E) (event : Event V E) (id : ℕ) (v : V)
        → IsReached core
        → is_exclusive event ≡ false
        → (shadow core).values id ≡ Some v
        → (shadow (happens core event)).values id ≡ Some v }
    ensures owner_walk { (core : Core V E) → IsReached core
        → owner_walk core.table ≡ walk (shadow core).values }

    // A slot whose flag is set holds what was written.
    ensures flagged { (core : Core V E) (id : ℕ)
        → IsReached core → IsWritten (slot_at core.table id) }

    // A Local begins with what its slot holds when its id is taken. Its answers are those of that
    // view and of its own calls. A call that has begun is under way until it ends and is recorded,
    // once, as it began; no other call is recorded.
    ensures start { (core : Core V E) (event : Event V E) → IsReached core
        → IsTrue (is_granted_take core event)
        → IsSomeAnd (newcomer core event)
        (λ local. (local.start ≡ first_view (shadow core) local.id) × (local.calls ≡ [])) }
    ensures answers { (core : Core V E) (n : ℕ) (local : Local V E) → IsReached core
        → core.locals n ≡ Some local → local.answered ≡ answers local.start local.calls }
    ensures goes_on { (core : Core V E) (n : ℕ) (step : LocalStep V E) (before : Local V E)
        → IsTrue (is_enabled core (OfLocal n step)) → core.locals n ≡ Some before
        → IsSomeAnd ((happens core (OfLocal n step)).locals n) (GoesOn step before) }
    ensures others { (core : Core V E) (event : Event V E) (n : ℕ) (local : Local V E)
        → IsReached core
        → is_of n event ≡ false
        → core.locals n ≡ Some local
        → (happens core event).locals n ≡ Some local }

    // The held ids are those that the history since the table was made or cleared leaves held.
    ensures history { (capacity extra : ℕ) (events : List (Event V E))
        → capacity < 2 ^ 63
        → (shadow (run (made_core capacity extra) events)).held
        ≡ held_from [] (history (made_core capacity extra) events) }

    // The values are those that this history says, if no rewrite and no drain came since then. From
    // any reached core on, until a rewrite, a drain or a clear, they are those that were there and
    // those that the history from then on says.
    ensures as_published { (capacity extra : ℕ) (events : List (Event V E)) (id : ℕ)
        → capacity < 2 ^ 63
        → IsTrue (is_as_published (made_core capacity extra) events)
        → published_in (history (made_core capacity extra) events) id
        ≡ (shadow (run (made_core capacity extra) events)).values id }
    ensures published_since { (core : Core V E) (events : List (Event V E)) (id : ℕ)
        → IsReached core
        → AllByRecursion (λ event. changes_values event ≡ false) events
        → (shadow (run core events)).values id
        ≡ or_else ((shadow core).values id) (published_in (history core events) id) }

    // A drain leaves no value, and the held ids and the capacity as they are.
    ensures drained { (core : Core V E)
        → IsReached core
        → IsTrue (is_enabled core (Owner DrainTable))
        → shadow (happens core (Owner DrainTable)) ≡ record (shadow core) { values = λ _. None } }

    // After `clear` the sheet is that of `new` with the same capacity. The next Local gets id 0,
    // finds no value, and knows its bucket to stand exactly where id 0 is reserved.
    ensures cleared { (core : Core V E)
        → IsReached core
        → IsTrue (is_enabled core (Owner ClearTable))
        → shadow (happens core (Owner ClearTable))
        ≡ record new_sheet { capacity = (shadow core).capacity } }
    ensures after_clear { (core : Core V E) (events : List (Event V E)) (event : Event V E)
        → IsReached core
        → IsTrue (is_enabled core (Owner ClearTable))
        → let after = happens core (Owner ClearTable) in NoneTaken after events
        → IsTrue (is_granted_take (run after events) event)
        → IsSomeAnd (newcomer (run after events) event) (λ local.
        (local.id ≡ 0)
        × (local.start ≡ record { value = None; known = is_reserved (shadow core).capacity 0 })) }

    // A take is refused only where all ids are held, or where all ids below the peak are held, no
    // room is left and memory is refused. A refused take changes nothing.
    ensures refused_take { (core : Core V E) (refused : Bool) (growth : ℕ)
        → IsReached core
        → IsTrue (is_refused core (TakeId refused growth))
        → HoldsAllBelow (2 ^ 63 - 1) (shadow core).held
        ⊎
        (HoldsAllBelow (peak core) (shadow core).held
        × (peak core ≡ core.manager.room)
        × IsTrue refused) }
    ensures refusal { (core : Core V E) (refused : Bool) (growth : ℕ)
        → IsTrue (is_refused core (TakeId refused growth))
        → happens core (TakeId refused growth) ≡ core }

    // After `into_iter` or the drop no event is enabled, and nothing else ends a table.
    ensures into_iter_ends { (core : Core V E) → IsTrue (is_enabled core (Owner IntoIter))
        → (happens core (Owner IntoIter)).ended ≡ true }
    ensures drop_ends { (core : Core V E) → IsTrue (is_enabled core (Owner DropTable))
        → (happens core (Owner DropTable)).ended ≡ true }
    ensures ended { (core : Core V E) (event : Event V E)
        → core.ended ≡ true → is_enabled core event ≡ false }
    ensures stays_open { (core : Core V E) (event : Event V E)
        → core.ended ≡ false → ends_table event ≡ false → (happens core event).ended ≡ false }

    // A bucket that stands is the same one until a clear, and a reserved bucket is so always. No
    // bucket stands at two places, and one that a call has made and not yet offered stands nowhere,
    // and is that call's alone.
    ensures bucket_stays { (core : Core V E) (event : Event V E) (bucket : ℕ)
        → IsReached core
        → event ≢ Owner ClearTable
        → IsTrue (bucket_stands core.table bucket)
        → IsSameBucket core.table (happens core event).table bucket }
    ensures reserved_stands { (core : Core V E) (bucket : ℕ)
        → IsReached core
        → IsTrue (reserves_bucket (shadow core).capacity bucket)
        → IsTrue (bucket_stands core.table bucket) }
    ensures reserved_stays { (core : Core V E) (event : Event V E) (bucket : ℕ)
        → IsReached core
        → IsTrue (reserves_bucket (shadow core).capacity bucket)
        → IsSameBucket core.table (happens core event).table bucket }
    ensures at_one_place { (core : Core V E) (a b : ℕ) → IsReached core
        → IsTrue (bucket_stands core.table a)
        → number_at core.table a ≡ number_at core.table b
        → a ≡ b }
    ensures stands_nowhere { (core : Core V E) (n : ℕ) (local : Local V E) (number bucket : ℕ)
        → IsReached core
        → core.locals n ≡ Some local
        → own_number local.doing ≡ Some number
        → number_at core.table bucket ≢ Some number }
    ensures one_call { (core : Core V E) (m n : ℕ) (a b : Local V E) (number : ℕ) → IsReached core
        → core.locals m ≡ Some a → core.locals n ≡ Some b
        → own_number a.doing ≡ Some number → own_number b.doing ≡ Some number → m ≡ n }

    // The bucket of each published value is announced, and so is each that stands and isn't reserved.
    // The first seven are so always.
    ensures announced { (core : Core V E) (id : ℕ) (v : V) → IsReached core
        → (shadow core).values id ≡ Some v → IsTrue (core.table.announced (bucket_of id)) }
    ensures standing_announced { (core : Core V E) (bucket : ℕ) → IsReached core
        → IsTrue (bucket_stands core.table bucket)
        → reserves_bucket (shadow core).capacity bucket ≡ false
        → IsTrue (core.table.announced bucket) }
    ensures first_announced { (core : Core V E) (bucket : ℕ)
        → IsReached core → bucket < 7 → IsTrue (core.table.announced bucket) }

    // The peak is the most ids held at once. Each id taken lies below it, and the manager has room
    // for that many.
    ensures peak { (capacity extra : ℕ) (events : List (Event V E))
        → capacity < 2 ^ 63
        → peak (run (made_core capacity extra) events) ≡ most_held (made_core capacity extra) events }
    ensures below_peak { (core : Core V E) (n : ℕ) (local : Local V E) → IsReached core
        → core.locals n ≡ Some local → local.id < peak core }
    ensures ids { (core : Core V E) (n : ℕ) (local : Local V E) → IsReached core
        → core.locals n ≡ Some local → local.id < 2 ^ 63 - 1 }
    ensures room { (core : Core V E) → IsReached core → peak core ≤ core.manager.room }

    // The capacity never changes.
    ensures capacity { (capacity extra : ℕ) (events : List (Event V E)) → capacity < 2 ^ 63
        → (shadow (run (made_core capacity extra) events)).capacity ≡ capacity }

    // The peak bounds the installed slots, those made but not installed yet, and the values.
    ensures slots_of_new { (events : List (Event V E))
        → installed_slots (run new_core events) ≤ 2 * peak (run new_core events) - 1 }
    ensures no_slots { (events : List (Event V E))
        → peak (run new_core events) ≡ 0 → installed_slots (run new_core events) ≡ 0 }
    ensures slots_of_capacity { (capacity extra : ℕ) (events : List (Event V E)) → capacity < 2 ^ 63
        → installed_slots (run (made_core capacity extra) events)
        ≤ 2 * max capacity (peak (run (made_core capacity extra) events)) - 1 }
    ensures slots_of_cleared { (core : Core V E)
        → IsReached core
        → IsTrue (is_enabled core (Owner ClearTable))
        → installed_slots (happens core (Owner ClearTable)) ≡ reserved_slots (shadow core).capacity }
    ensures private_slots { (core : Core V E) (n : ℕ) (local : Local V E) → IsReached core
        → core.locals n ≡ Some local → private_slots local.id local.doing ≤ peak core }
    ensures values { (core : Core V E) → IsReached core → length (walk (shadow core).values) ≤ peak core }

    // Since a table was made, cleared or drained there were as many publishings as there are
    // values, and so at most as many as ids were held at once.
    ensures publishings { (capacity extra : ℕ) (events : List (Event V E))
        → capacity < 2 ^ 63
        → publishings (made_core capacity extra) events ≡ length
        (walk (shadow (run (made_core capacity extra) events)).values) }
    ensures few_publishings { (capacity extra : ℕ) (events : List (Event V E))
        → capacity < 2 ^ 63
        → publishings (made_core capacity extra) events ≤ peak
        (run (made_core capacity extra) events) }

    // While fewer ids than the capacity are held no take is refused. At a reserved id no publishing
    // is refused, also after a clear.
    ensures within_capacity { (core : Core V E) (refused : Bool) (growth : ℕ) → IsReached core
        → held_count (shadow core).held < (shadow core).capacity
        → is_refused core (TakeId refused growth) ≡ false }
    ensures reserved_publishes { (core : Core V E) (n : ℕ) (local : Local V E) (refused : Bool)
        → IsReached core
        → core.locals n ≡ Some local
        → IsTrue (is_reserved (shadow core).capacity local.id)
        → is_refused core (OfLocal n (MakeBucket refused)) ≡ false }
    ensures reserved_answers { (core : Core V E) (n : ℕ) (local : Local V E) (told : Answer V E)
        → IsReached core
        → core.locals n ≡ Some local
        → IsTrue (is_reserved (shadow core).capacity local.id)
        → Contains local.answered told
        → told ≢ Refused }

    // If each take comes while fewer than p ids are held, a table from `new` has at most 2p - 1
    // slots, and one of a capacity of p or more refuses nothing.
    ensures slots { (p : ℕ) (events : List (Event V E)) → TakesBelow p new_core events
        → installed_slots (run new_core events) ≤ 2 * p - 1 }
    ensures refuses_nothing { (capacity extra p : ℕ) (events : List (Event V E)) → capacity < 2 ^ 63
        → p ≤ capacity → TakesBelow p (made_core capacity extra) events
        → NothingRefused (made_core capacity extra) events }

    // One schedule from `new` to `clear`, computed: it shows that the events do occur, since each
    // of its cores is reached. Four Locals publish in a new table. A walk gives the four values;
    // the next Local finds the first and keeps it; an owner's walk gives the four; and `clear`
    // leaves the sheet of `new`.
    ensures four_are_reached { (a b c d : V)
        → IsReached (after_publishing {E = E} a b c d)
        × IsReached (after_walking {E = E} a b c d)
        × IsReached (after_next {E = E} a b c d)
        × IsReached (after_all {E = E} a b c d) }
    ensures four_values { (a b c d : V)
        → (shadow (after_publishing {E = E} a b c d)).values ≡ slice_get (a ∷ b ∷ c ∷ d ∷ []) }
    ensures seven_slots { (a b c d : V) → installed_slots (after_publishing {E = E} a b c d) ≡ 7 }
    ensures walk_of_four { (a b c d : V)
        → IsSomeAnd ((after_walking {E = E} a b c d).walks 0) (λ shared.
        IsTrue (is_complete shared.cursor)
        × (shared.given ≡ (0, a) ∷ (1, b) ∷ (2, c) ∷ (3, d) ∷ [])) }
    ensures next_of_four { (a b c d : V) → IsSomeAnd ((after_next {E = E} a b c d).locals 4)
        (λ local. (local.id ≡ 0) × (local.start.value ≡ Some a)
        × (local.answered ≡ Found (Some a) ∷ Answered a ∷ [])) }
    ensures owner_of_four { (a b c d : V) (others : ℕ → V → V)
        → IsTrue (is_enabled (after_all {E = E} a b c d) (Owner (RewriteTable others)))
        × (owner_walk (after_all {E = E} a b c d).table ≡ a ∷ b ∷ c ∷ d ∷ []) }
    ensures clear_of_four { (a b c d : V)
        → IsTrue (is_enabled (after_all {E = E} a b c d) (Owner ClearTable))
        × (shadow (happens (after_all {E = E} a b c d) (Owner ClearTable)) ≡ new_sheet) }
{}
