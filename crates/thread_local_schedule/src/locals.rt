//! What each atomic step of a `Local` keeps, and what its calls answer.
ghost use Rattle.std.specs.Prelude.{◌≡◌, ◌≢◌, ℕ, ◌∷◌, [], Bool, false, Some, None, Result, Err, IsTrue, IsSome};
ghost use Rattle.std.specs.Prelude.{IfSome, IsSomeAnd, MatchOption, if◌then◌else◌};
ghost use Rattle.thread_local_base.specs.Place.{bucket_of};
ghost use Rattle.thread_local_base.specs.Learnt.{Missing, Standing, Vacant, Holding};
ghost use Rattle.thread_local_base.specs.Answers.{Found, Answered, Refused, Failed};
ghost use Rattle.thread_local_schedule.specs.Table.{Table, made_table, published, bucket_stands};
ghost use Rattle.thread_local_schedule.specs.Local.{Local, LocalStep, BeginGet, BeginGetOr, LoadPointer};
ghost use Rattle.thread_local_schedule.specs.Local.{LookAtFlag, MakeBucket, InstallBucket, WriteValue, fresh_local};
ghost use Rattle.thread_local_schedule.specs.Local.{local_step, local_steps, five_calls};
ghost use Rattle.thread_local_schedule.specs.Fits.{AllWritten, LocalFits, ChangesOnly, StepFits, value_set};
ghost use Rattle.thread_local_schedule.specs.Calls.{closure_of, HasNoCall, GoesOn, HasLearnt, GoesDown, EndsWith};
ghost use Rattle.thread_local_schedule.specs.Numbers.{NumbersGo};

/// What each step of a `Local` keeps, whatever other `Local`s did before it.
pub fn every_local_step<V, E>()
    // An enabled step leaves the Local fitting its table, and changes no slot and no bucket but its
    // own. A value that it publishes comes into an announced bucket.
    ensures fits { (table : Table V) (local : Local V E) (step : LocalStep V E)
        → AllWritten table → LocalFits table local
        → IfSome (local_step table local step) (StepFits table local (value_set table local step)) }
    // It changes the calls under way and the numbers of buckets as it says, and loses none.
    ensures calls { (table : Table V) (local : Local V E) (step : LocalStep V E)
        → IfSome (local_step table local step) (λ after. GoesOn step local after.1) }
    ensures numbers { (table : Table V) (local : Local V E) (step : LocalStep V E)
        → IfSome (local_step table local step) (NumbersGo table local) }
    // A bucket of the call's own means that it found the bucket missing, and a written value that
    // it found the slot vacant.
    ensures learnt { (table : Table V) (local : Local V E) (step : LocalStep V E)
        → HasLearnt local.doing local.learnt
        → IfSome (local_step table local step)
        (λ after. HasLearnt after.1.doing after.1.learnt) }
    ensures others { (old new : Table V) (id : ℕ) (local : Local V E)
        → ChangesOnly old new id → id ≢ local.id → LocalFits old local → LocalFits new local }

    // A get begins where no publishing call is under way, and a publishing call where no call is. A
    // call under way can go on, and can come to its end.
    ensures begins_get { (table : Table V) (local : Local V E)
        → closure_of local.doing ≡ None → IsSome (local_step table local BeginGet) }
    ensures begins_get_or { (table : Table V) (local : Local V E) (create : Result V E)
        → HasNoCall local → IsSome (local_step table local (BeginGetOr create)) }
    ensures goes_on { (table : Table V) (local : Local V E)
        → HasLearnt local.doing local.learnt
        → (HasNoCall local → ⊥)
        → (step : LocalStep V E)
        × IsSomeAnd (local_step table local step) (GoesDown (table, local)) }

    // A load teaches whether the bucket stands, and a look what the slot shows. Memory is asked for
    // only where the bucket was missing, only an install makes a bucket stand, and the closure's
    // error is handed on.
    ensures loads { (table : Table V) (local : Local V E)
        → IfSome (local_step table local LoadPointer) (λ after.
        after.1.learnt
        ≡ (if bucket_stands table (bucket_of local.id) then Standing else Missing)) }
    ensures looks { (table : Table V) (local : Local V E)
        → IfSome (local_step table local LookAtFlag) (λ after.
        MatchOption (published table local.id) (after.1.learnt ≡ Vacant) (λ v.
        after.1.learnt ≡ Holding v)) }
    ensures asks { (table : Table V) (local : Local V E) (refused : Bool)
        → IsSome (local_step table local (MakeBucket refused)) → local.learnt ≡ Missing }
    ensures installs { (table : Table V) (local : Local V E) (step : LocalStep V E) (bucket : ℕ)
        → bucket_stands table bucket ≡ false
        → IfSome (local_step table local step) (λ after.
        IsTrue (bucket_stands after.0 bucket)
        → (step ≡ InstallBucket) × (bucket_of local.id ≡ bucket)) }
    ensures fails { (table : Table V) (local : Local V E) (e : E)
        → HasLearnt local.doing local.learnt
        → closure_of local.doing ≡ Some (Err e)
        → local.learnt ≡ Vacant
        → IsSomeAnd (local_step table local WriteValue) (λ after.
        EndsWith (Failed e) local after.1) }

    // In a new table a Local is first refused memory, then hands on an error, then publishes, and
    // answers that value from then on.
    ensures answers { (v w : V) (e : E)
        → IsSomeAnd
        (local_steps (made_table 0) (fresh_local 0 (record { value = None; known = false }))
        (five_calls v w e))
        (λ after.
        (published after.0 0 ≡ Some v)
        ×
        (after.1.answered ≡ Refused ∷ Failed e ∷ Answered v ∷ Found (Some v) ∷ Answered
        v ∷ [])) }
{}
