//! `Judged`: it is known of a type whether a `&` to its values names a thread. Showing it does
//! nothing at run time.
ghost use Rattle.std.specs.Prelude.{◌≡◌};
ghost use Rattle.thread_local_base.specs.Judged.{Shareable, Judged, JudgedEverywhere};

mod cells;
mod containers;
mod plain;

/// Shows the fact for a type that threads may share, and that a `&` to its values names no thread.
///
/// At a generic `T: Sync`, and at most types, the check finds both by itself.
pub fn judge_sync<T: Sync>()
    ensures shareable { Shareable T.row }
    ensures judged { Judged T.row }
{}

/// A type for which the fact can be shown by `T::judge()`. Numbers, texts, times, atomics and cells
/// have an impl, and so have containers and tuples of types that have one.
///
/// Maps, `Arc`, `ArcStr` and locks have none: a ghost member can't cite std's proofs that threads
/// may share them. Call `judge_sync` for them.
pub trait Judge {
    /// The fact for every address of a value, as containers of the type need it.
    ghost everywhere: { JudgedEverywhere Self.row };

    /// Shows the fact.
    final fn judge()
        ensures judged { Judged Self.row }
        ensures everywhere { JudgedEverywhere Self.row }
    {}
}

/// Shows that no type refutes the fact, so that asking for it excludes none.
pub fn never_refuted<T>()
    ensures never { (Judged T.row → ⊥) → ⊥ }
{}

/// Shows that any two proofs of the fact are equal.
pub fn judged_alike<T>()
    ensures alike { (a b : Judged T.row) → a ≡ b }
{}
