//! Stands apart since, as a limit of the toolchain, no clause in a type's own file names its `the_row`.
//! Here shared buckets are lent to an owner through a `&mut`.
ghost use Rattle.std.specs.Prelude.{◌≡◌};
ghost use types.Logic.{sem};
ghost use Rattle.std.specs.Borrow.{follows};
ghost use Rattle.thread_local_buckets.specs.contracts.buckets.Buckets.{the_row as owner_row};
ghost use Rattle.thread_local_shared_buckets.specs.contracts.shared.Shared.{the_row};
ghost use Rattle.thread_local_shared_buckets.specs.AfterLoan.{view_with, view_begun};

use super::Shared;
use std::marker::PhantomData;
use thread_local_buckets::Buckets;
use thread_local_ids::{Book, SlotRights};

impl<T> Shared<T> {
    /// The buckets, lent to an owner with all that was lent while they were shared. Once the loan
    /// ends, they are shared buckets of the same table again. The contract says how many slots are
    /// reserved by then, and nothing about the values.
    pub fn owner(&mut self) -> &mut Buckets<T>
        ensures* writes_back { sem 𝓛
            (follows (the_row T.row) (owner_row T.row) self.entry.ghost_name result.ghost_name
            (view_with self.old result.now)) }
        ensures reserved { result.now.reserved ≡ self.old.reserved }
    {
        self.owner_and_book().0
    }

    /// `owner`, whose end makes the buckets those of the table that the rights are of. They are in its
    /// first sharing if the owner leaves no value.
    pub(super) fn owner_before_first(&mut self, slots: SlotRights) -> &mut Buckets<T>
        ensures* writes_back { sem 𝓛
            (follows (the_row T.row) (owner_row T.row) self.entry.ghost_name result.ghost_name
            (view_begun slots.table)) }
        ensures reserved { result.now.reserved ≡ self.old.reserved }
    {
        let _ = slots;
        unsafe { &mut *(self as *mut Shared<T> as *mut Buckets<T>) }
    }

    /// `owner`, with what the slots were published with in the sharing that ends.
    pub fn owner_and_book(&mut self) -> (&mut Buckets<T>, Book<T>)
        ensures* writes_back { sem 𝓛
            (follows (the_row T.row) (owner_row T.row) self.entry.ghost_name result.0.ghost_name
            (view_with self.old result.0.now)) }
        ensures reserved { result.0.now.reserved ≡ self.old.reserved }
        ensures book { (result.1.sharing ≡ self.old.sharing)
            × (result.1.contents ≡ result.0.now.contents) }
    {
        let book = Book {
            marker: PhantomData,
        };
        let owner = unsafe { &mut *(self as *mut Shared<T> as *mut Buckets<T>) };
        (owner, book)
    }
}
