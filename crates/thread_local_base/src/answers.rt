//! What each call of a `Local` returns, by what it knows of its slot: the value, and whether the
//! bucket is known to stand.
ghost use Rattle.std.specs.Prelude.{◌≡◌, ◌↔◌, ◌⊎◌, ℕ, Bool, true, false, Option, Some, None, Result, Ok, Err, IsTrue, IsSome, MatchOption, if◌then◌else◌};
ghost use Rattle.thread_local_base.specs.Capacity.{is_reserved};
ghost use Rattle.thread_local_base.specs.Sheet.{Sheet};
ghost use Rattle.thread_local_base.specs.Learnt.{Learnt, Missing, Standing, Vacant, Holding};
ghost use Rattle.thread_local_base.specs.Learnt.{Finds, learnt_by_load, learnt_by_look, learnt_by_install, learnt_by_publish};
ghost use Rattle.thread_local_base.specs.Answers.{View, first_view, view_of, Get, GetOr, Found, Answered, Refused, Failed, answer, view_after, Says};

/// A call's answer and the view after it depend only on the call and the view before it.
pub fn calls_answer_by_their_view<V, E>()
    ensures get { (view : View V) → Says {E = E} view Get (Found view.value) view }
    ensures held { (view : View V) (v : V) (create : Result V E) (refused : _) → view.value ≡ Some v
        → Says view (GetOr create refused) (Answered v) view }

    // Where there is no value: out of memory, if the bucket isn't known to stand; else what the
    // closure returns. After its error the bucket is known to stand.
    ensures refused { (view : View V) (create : Result V E) → view.value ≡ None → view.known ≡ false
        → Says view (GetOr create true) Refused view }
    ensures created { (view : View V) (v : V)
        → view.value ≡ None
        → Says {E = E} view (GetOr (Ok v) false) (Answered v)
        (record { value = Some v; known = true }) }
    ensures failed { (view : View V) (e : E) → view.value ≡ None
        → Says view (GetOr (Err e) false) (Failed e) (record { value = None; known = true }) }
    ensures known { (view : View V) (create : Result V E)
        → view.known ≡ true
        → (answer view (GetOr create true) ≡ answer view (GetOr create false))
        × (view_after view (GetOr create true) ≡ view_after view (GetOr create false)) }
{}

/// What a `Local` knows when it takes an id: the value that the sheet shows at the id, and whether
/// the bucket is known to stand.
pub fn a_first_view_shows_its_sheet<V>()
    ensures value { (sheet : Sheet V) (id : ℕ) → (first_view sheet id).value ≡ sheet.values id }
    ensures known { (sheet : Sheet V) (id : ℕ)
        → IsTrue (first_view sheet id).known ↔
        (IsTrue (is_reserved sheet.capacity id) ⊎ IsSome (sheet.values id)) }
{}

/// A load teaches whether the bucket stands, wherever that isn't known, so also where the bucket
/// was missing before. A look at a slot whose bucket stands teaches what the slot shows.
pub fn loads_and_looks_teach_what_they_see<V>()
    ensures load { (before after : Learnt V) (stands : Bool)
        → learnt_by_load before stands ≡ Some after
        → after ≡ (if stands then Standing else Missing) }
    ensures may_load { (before : Learnt V) (stands : Bool)
        → IsSome (learnt_by_load before stands) ↔ ((view_of before).known ≡ false) }
    ensures look { (before after : Learnt V) (shown : Option V)
        → learnt_by_look before shown ≡ Some after
        → MatchOption shown (after ≡ Vacant) (λ v. after ≡ Holding v) }
    ensures may_look { (before : Learnt V) (shown : Option V)
        → IsSome (learnt_by_look before shown) ↔ (before ≡ Standing) }
{}

/// The steps of a call lead from the view of what was learnt before it to the view after it.
pub fn steps_lead_to_the_view_after<V, E>()
    // A load and a look show the value, where the bucket stands.
    ensures found { (before after : Learnt V) (finds : Finds before after)
        → view_of after
        ≡ record { value = if finds.stands then finds.shown else None; known = finds.stands } }
    // A publication ends with its value, whether the bucket stood or was installed.
    ensures published { (vacant holding : Learnt V) (v : V)
        → learnt_by_publish vacant v ≡ Some holding
        → Says {E = E} (view_of vacant) (GetOr (Ok v) false) (Answered v) (view_of holding) }
    ensures installed { (missing vacant holding : Learnt V) (v : V)
        → learnt_by_install missing ≡ Some vacant → learnt_by_publish vacant v ≡ Some holding
        → Says {E = E} (view_of missing) (GetOr (Ok v) false) (Answered v) (view_of holding) }
    // The closure's error leaves a vacant slot, whether the bucket stood or was installed.
    ensures failed { (before : Learnt V) (e : E) → (view_of before).value ≡ None
        → Says (view_of before) (GetOr (Err e) false) (Failed e) (view_of {V = V} Vacant) }
{}
