//! What a walk over a table gives: each value once, by ascending id.
ghost use Rattle.std.specs.Prelude.{◌≡◌, ◌≢◌, ℕ, ◌-◌, ◌^◌, ◌<◌, ◌↔◌, List, length, map, Contains, IsPermutation, Option, Some};
ghost use Rattle.std.specs.List.{AllPairs};
ghost use Rattle.std.specs.List.Sorted.{IsStrictlyIncreasing};
ghost use Rattle.thread_local_base.specs.Walk.{walk, paired};

/// A walk gives exactly the values of the map at the ids below 2^63 - 1, each once, by ascending
/// id.
pub fn walk_lists_the_map<V>()
    ensures values { (values : ℕ → Option V) → map (λ pair. pair.1) (walk (paired values)) ≡ walk values }
    ensures exact { (values : ℕ → Option V) (id : ℕ) (v : V)
        → Contains (walk (paired values)) (id, v) ↔ ((id < 2 ^ 63 - 1) × (values id ≡ Some v)) }
    ensures ascending { (values : ℕ → Option V) → IsStrictlyIncreasing (map (λ pair. pair.0) (walk (paired values))) }
{}

/// Different ids, each with its value in the map, are all of the map where there are as many of
/// them as values: a walk gives their values, in some order.
pub fn as_many_are_all<V>()
    ensures { (values : ℕ → Option V) (entries : List (ℕ × V))
        → AllPairs (λ one other. one.0 ≢ other.0) entries
        → ((id : ℕ) (v : V) → Contains entries (id, v) → (id < 2 ^ 63 - 1) × (values id ≡ Some v))
        → length entries ≡ length (walk values)
        → IsPermutation (map (λ entry. entry.1) entries) (walk values) }
{}
