//! The main theorem: what a table is for, in one contract.
ghost use Rattle.std.specs.Prelude.{◌≡◌, ℕ, ◌-◌, ◌*◌, ◌^◌, ◌<◌, ◌≤◌, ◌↔◌, false, List, [], map, Contains, Some, IsTrue, IsSomeAnd};
ghost use Rattle.std.specs.List.{AllByRecursion};
ghost use Rattle.std.specs.List.Sorted.{IsStrictlyIncreasing};
ghost use Rattle.thread_local_base.specs.Held.{least};
ghost use Rattle.thread_local_base.specs.IdMoves.{held_from};
ghost use Rattle.thread_local_base.specs.Walk.{walk, paired};
ghost use Rattle.thread_local_schedule.specs.OwnerWalk.{owner_walk};
ghost use Rattle.thread_local_schedule.specs.Core.{made_core, new_core, shadow, installed_slots};
ghost use Rattle.thread_local_schedule.specs.Events.{Event, OwnerCall, Owner, is_enabled, run};
ghost use Rattle.thread_local_schedule.specs.Schedule.{is_exclusive, is_granted_take, newcomer, IsAlone};
ghost use Rattle.thread_local_schedule.specs.History.{history};
ghost use Rattle.thread_local_schedule.specs.Bounds.{TakesBelow, NothingRefused};

/// What a table is for, over every schedule of atomic steps from a table of any capacity below
/// 2^63: each `Local` gets the least id not held; a slot's first published value stays until an
/// owner's call; an owner is alone, and walks exactly the published values, each once, by ascending
/// id; and where each take comes while fewer than p ids are held, that bounds the slots and, within
/// the capacity, rules out refusals.
///
/// The schedules are of tables that never lend their buckets by `buckets_mut`, which may leave any
/// buckets: the owner's calls are those that `every_schedule` names.
pub fn headline<V, E>()
    // Each Local gets the least id that isn't held.
    ensures least_id { (capacity extra : ℕ) (events : List (Event V E)) (event : Event V E)
        → capacity < 2 ^ 63
        → let core = run (made_core capacity extra) events in
        IsTrue (is_granted_take core event)
        → IsSomeAnd (newcomer core event) (λ local. local.id ≡ least (shadow core).held) }

    // That is the least id that the history since the table was made or cleared leaves free.
    ensures history { (capacity extra : ℕ) (events : List (Event V E))
        → capacity < 2 ^ 63
        → (shadow (run (made_core capacity extra) events)).held
        ≡ held_from [] (history (made_core capacity extra) events) }
    ensures least_after { (capacity extra : ℕ) (events : List (Event V E)) (event : Event V E)
        → capacity < 2 ^ 63
        → let core = run (made_core capacity extra) events in
        IsTrue (is_granted_take core event)
        → IsSomeAnd (newcomer core event) (λ local.
        local.id ≡ least (held_from [] (history (made_core capacity extra) events))) }

    // A first published value stays until an owner's call, and that comes to somebody who has the
    // table alone.
    ensures first_value { (capacity extra : ℕ) (before between : List (Event V E)) (id : ℕ) (v : V)
        → capacity < 2 ^ 63
        → let core = run (made_core capacity extra) before in
        (shadow core).values id ≡ Some v
        → AllByRecursion (λ event. is_exclusive event ≡ false) between
        → (shadow (run core between)).values id ≡ Some v }
    ensures alone { (capacity extra : ℕ) (events : List (Event V E)) (call : OwnerCall V)
        → capacity < 2 ^ 63
        → let core = run (made_core capacity extra) events in
        IsTrue (is_enabled core (Owner call))
        → IsAlone core }

    // That owner walks exactly the published values, each once, by ascending id.
    ensures owner { (capacity extra : ℕ) (events : List (Event V E))
        → capacity < 2 ^ 63
        → let core = run (made_core capacity extra) events in
        let pairs = walk (paired (shadow core).values) in
        (owner_walk core.table ≡ map (λ pair. pair.1) pairs)
        × IsStrictlyIncreasing (map (λ pair. pair.0) pairs)
        × ((id : ℕ) (v : V) → Contains pairs (id, v) ↔ ((shadow core).values id ≡ Some v)) }

    // If each take comes while fewer than p ids are held, a table from `new` has at most 2p - 1
    // slots, and one of a capacity of p or more refuses nothing, however often either is cleared.
    ensures slots { (p : ℕ) (events : List (Event V E)) → TakesBelow p new_core events
        → installed_slots (run new_core events) ≤ 2 * p - 1 }
    ensures refuses_nothing { (capacity extra p : ℕ) (events : List (Event V E)) → capacity < 2 ^ 63
        → p ≤ capacity → TakesBelow p (made_core capacity extra) events
        → NothingRefused (made_core capacity extra) events }
{}
