//! What each step of a shared walk keeps, and what an owner's walk gives.
ghost use Rattle.std.specs.Prelude.{◌≡◌, ℕ, ◌-◌, ◌^◌, Some, option_map, IsTrue, IfSome};
ghost use Rattle.thread_local_base.specs.Walk.{walk};
ghost use Rattle.thread_local_base.specs.Cursor.{cursor_id, is_complete};
ghost use Rattle.thread_local_schedule.specs.Table.{Table, published};
ghost use Rattle.thread_local_schedule.specs.SharedWalk.{SharedWalk, WalkStep, begun_walk, walk_step};
ghost use Rattle.thread_local_schedule.specs.Fits.{AllAnnounced};
ghost use Rattle.thread_local_schedule.specs.WalkFits.{WalkFits, Adds};
ghost use Rattle.thread_local_schedule.specs.OwnerWalk.{owner_walk, rewritten};

/// What each step of a shared walk keeps, whatever others publish in between.
pub fn every_walk_step<V>()
    ensures begins { (table : Table V)
        → AllAnnounced table → WalkFits table (begun_walk table) }
    ensures fits { (table : Table V) (walk : SharedWalk V) (step : WalkStep)
        → WalkFits table walk → IfSome (walk_step table walk step) (WalkFits table) }
    ensures adds { (table : Table V) (walk : SharedWalk V) (step : WalkStep)
        → WalkFits table walk → IfSome (walk_step table walk step) (Adds table step walk) }

    // What others publish leaves the walk fitting. A complete walk has passed every id.
    ensures others { (old new : Table V) (walk : SharedWalk V)
        → ((id : ℕ) (v : V) → published old id ≡ Some v → published new id ≡ Some v)
        → WalkFits old walk → WalkFits new walk }
    ensures complete { (table : Table V) (walk : SharedWalk V)
        → WalkFits table walk
        → IsTrue (is_complete walk.cursor)
        → cursor_id walk.cursor ≡ 2 ^ 63 - 1 }
{}

/// An owner's walk gives the published values by ascending id, and its writes change these values
/// and nothing else.
pub fn owner_walks<V>()
    ensures walk { (table : Table V) → owner_walk table ≡ walk (published table) }
    ensures rewritten { (table : Table V) (others : ℕ → V → V) (id : ℕ)
        → published (rewritten table others) id ≡ option_map (others id) (published table id) }
{}
