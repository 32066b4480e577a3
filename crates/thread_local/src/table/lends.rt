//! Stands apart since, as a limit of the toolchain, no clause in a type's own file names its `the_row`.
//! Here a table lends its buckets to an owner.
ghost use Rattle.std.specs.Prelude.{◌≡◌, ◌≤◌, ◌-◌, ◌^◌, IsNone};
ghost use types.Logic.{sem};
ghost use Rattle.std.specs.Borrow.{follows, follows_so};
ghost use Rattle.std.specs.Option.{ghost_name_of};
ghost use Rattle.thread_local_buckets.specs.Drain.{drain_lender, drain_leaves, DrainCanStep, DrainIsFresh, DrainKeepsAlong};
ghost use Rattle.thread_local_buckets.specs.contracts.buckets.Buckets.{the_row as owner_row};
ghost use Rattle.thread_local.specs.Tables.{view_with};
ghost use Rattle.thread_local.specs.Owners.{KeepsReserved};
ghost use Rattle.thread_local.specs.contracts.table.ThreadLocal.{the_row};

use super::ThreadLocal;
use thread_local_base::Thread;
use thread_local_base::manager::IDS;
use thread_local_buckets::{Buckets, Drain};
use thread_local_ids::Book;

impl<T> ThreadLocal<T> {
    /// The buckets, for the exclusive owner. A contract knows the number of reserved slots, and not
    /// which values there are: the calls of `Buckets` say what they find and what they change.
    pub fn buckets_mut(&mut self) -> &mut Buckets<T>
        ensures* writes_back { sem 𝓛
            (follows (the_row T.row) (owner_row T.row) self.entry.ghost_name result.ghost_name
            (view_with self.old result.now)) }
        ensures reserved { result.now.reserved ≡ self.old.reserved }
    {
        self.buckets_mut_and_book().0
    }

    /// `buckets_mut`, with the book of the sharing that ends. So the walks `iter_mut`, `entries_mut`
    /// and `drain` of the buckets give the values that the book tells.
    pub fn buckets_mut_and_book(&mut self) -> (&mut Buckets<T>, Book<T>)
        ensures* writes_back { sem 𝓛
            (follows (the_row T.row) (owner_row T.row) self.entry.ghost_name result.0.ghost_name
            (view_with self.old result.0.now)) }
        ensures reserved { result.0.now.reserved ≡ self.old.reserved }
        ensures book { (result.1.sharing ≡ self.old.sharing)
            × (result.1.contents ≡ result.0.now.contents) }
    {
        self.buckets.owner_and_book()
    }

    /// The values by ascending id, each moved out, while buckets and ids stay. `drain` of the
    /// buckets that `buckets_mut` lends is the same walk, and says which values it gives; this call
    /// doesn't.
    pub fn drain(&mut self) -> Drain<'_, T>
    where
        T: Drop,
        ensures* writes_back { sem 𝓛
            (follows (the_row T.row) (owner_row T.row) self.entry.ghost_name (drain_lender result)
            (view_with self.old (drain_leaves result))) }
        ensures ready { DrainCanStep result }
        ensures fresh { DrainIsFresh result }
        ensures reserved { (drain_leaves result).reserved ≡ self.old.reserved }
        ensures stays { DrainKeepsAlong result }
    {
        self.buckets.owner().drain()
    }

    /// Lends the value at an id for writing, or answers `None` where there is none: it is `get_mut`
    /// of the buckets that `buckets_mut` lends, whose contract says what it finds and what a write
    /// changes. No `Local` has an id of 2^63 - 1 or more.
    pub fn get_mut(&mut self, id: usize) -> Option<&mut T>
        // Whatever is written through the answer, the table keeps its name and its reserved slots.
        ensures* writes_back { sem 𝓛
            (follows_so (the_row T.row) T.row self.entry.ghost_name (ghost_name_of result)
            (λ _. KeepsReserved self.old) (KeepsReserved self.old)) }
        ensures out_of_range { 2 ^ 63 - 1 ≤ id → IsNone result }
    {
        if id >= IDS {
            return None;
        }
        self.buckets.owner().get_mut(Thread::new(id))
    }
}
