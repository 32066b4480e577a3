//! The laws of held ids: which id a take gets, what taking and giving back change, which ids a
//! history leaves held, and when a take is refused.
ghost use Rattle.std.specs.Prelude.{◌≡◌, ◌≢◌, ℕ, ◌+◌, ◌-◌, ◌^◌, ◌≤◌, ◌↔◌, ◌==◌, Bool, true, false, List, [], length, IsTrue, if◌then◌else◌, None, Some};
ghost use base.Stored.{Gv};
ghost use mathlib.Core.List.{IsPrefix};
ghost use Rattle.thread_local_base.specs.IdMoves.{IdMove, Take, Give, Publish, held_after, noted, published_in};
ghost use Rattle.thread_local_base.specs.Held.{Manager, is_held, least, with_least, without};
ghost use Rattle.thread_local_base.specs.Held.{held_count, HoldsAllBelow, is_granted, Takes, NeedsMemory, IsExhausted};

/// `least` is the least free id: it isn't held, and every lower id is.
pub fn least_is_least()
    ensures free { (held : List Bool) → is_held held (least held) ≡ false }
    ensures lower { (held : List Bool) → HoldsAllBelow (least held) held }
    ensures only { (held : List Bool) (id : ℕ)
        → is_held held id ≡ false
        → HoldsAllBelow id held
        → id ≡ least held }
    ensures bounded { (held : List Bool) → least held ≤ length held }
{}

/// Taking an id makes the least free id held, and changes no other.
pub fn taking_changes_the_least()
    ensures at { (held : List Bool) (id : ℕ)
        → is_held (with_least held) id ≡ (if least held == id then true else is_held held id) }
    ensures peak { (held : List Bool) → length (with_least held)
        ≡ (if least held == length held then length held + 1 else length held) }
    ensures count { (held : List Bool) → held_count (with_least held) ≡ held_count held + 1 }
{}

/// Giving an id back frees that id, and changes no other.
pub fn giving_changes_that_id()
    ensures at { (held : List Bool) (given id : ℕ)
        → is_held (without held given) id ≡ (if given == id then false else is_held held id) }
    ensures peak { (held : List Bool) (given : ℕ) → length (without held given) ≡ length held }
    ensures count { (held : List Bool) (given : ℕ) → IsTrue (is_held held given)
        → held_count (without held given) + 1 ≡ held_count held }
{}

/// After no move no id is held. One move more takes the least free id, or frees the one that it
/// gives back. The peak of a history is no less than that of any beginning of it.
pub fn a_history_leaves_ids_held()
    ensures none { held_after [] ≡ [] }
    ensures take { (moves : List IdMove) → held_after (noted moves Take) ≡ with_least (held_after moves) }
    ensures give { (moves : List IdMove) (id : ℕ)
        → held_after (noted moves (Give id)) ≡ without (held_after moves) id }
    ensures peak { (before later : List IdMove) → IsPrefix before later
        → length (held_after before) ≤ length (held_after later) }
{}

/// An id is taken only where a take is granted. A take is refused in two cases: it needs memory and
/// gets none, or every id is held, which no memory helps.
pub fn takes_are_granted()
    ensures taken { (old new : Manager) (id : ℕ) → Takes old new id → IsTrue (is_granted old false) }
    ensures memory { (manager : Manager)
        → length manager.held ≤ manager.room
        → manager.room ≤ 2 ^ 63 - 1
        → NeedsMemory manager ↔
        (IsTrue (is_granted manager false) × (is_granted manager true ≡ false)) }
    ensures exhausted { (manager : Manager)
        → length manager.held ≤ manager.room
        → manager.room ≤ 2 ^ 63 - 1
        → IsExhausted manager ↔ (is_granted manager false ≡ false) }
{}

/// A history that publishes nothing says nothing of an id. Takes and returns publish nothing, the
/// first value that is published of an id stays, and one of another id changes nothing.
pub fn a_published_value_stays()
    ensures none { (id : ℕ) → published_in {V = Gv} [] id ≡ None }
    ensures take { (moves : List IdMove) (id : ℕ) → published_in (noted moves Take) id ≡ published_in moves id }
    ensures give { (moves : List IdMove) (given id : ℕ)
        → published_in (noted moves (Give given)) id ≡ published_in moves id }
    ensures publish { (moves : List IdMove) (id : ℕ) (value : Gv)
        → published_in moves id ≡ None
        → published_in (noted moves (Publish id value)) id ≡ Some value }
    ensures other { (moves : List IdMove) (other id : ℕ) (value : Gv)
        → other ≢ id
        → published_in (noted moves (Publish other value)) id ≡ published_in moves id }
    ensures stays { (before later : List IdMove) (id : ℕ) (value : Gv)
        → IsPrefix before later
        → published_in before id ≡ Some value
        → published_in later id ≡ Some value }
{}
