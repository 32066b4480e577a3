//! The walk over shared buckets that gives each value with its id.
ghost use Rattle.std.specs.Prelude.{◌≡◌, Some, None, IfSome};
ghost use Rattle.std.specs.Iterator.{UpTo};
ghost use Rattle.std.specs.Iterator.SizeHint.{IsWithinCount};
ghost use Rattle.thread_local_shared_buckets.specs.Walks.{CanGo, IsNextWithId, ids_left};

use crate::iter::Iter;
use std::fmt;
use std::iter::FusedIterator;
use std::marker::Model;
use thread_local_buckets::write_struct;

/// What `Iter` gives, each value with the id of its slot: the ids ascend strictly. Contracts see
/// the walk.
///
/// No call waits or takes memory. Rust's crate has no such walk.
#[derive(Drop)]
pub struct Entries<'a, T> {
    walk: Iter<'a, T>,
}

impl<'a, T> Model for Entries<'a, T> {
    ghost use Rattle.thread_local_shared_buckets.specs.Walks.{WalkView, walk_view_coded};

    ghost Value = { WalkView T };

    ghost coded = { walk_view_coded T.code };

    ghost view = { λ entries. entries.walk };
}

impl<'a, T> Iter<'a, T> {
    /// This walk, with the id of each value. It goes on where the walk is.
    pub fn with_ids(self) -> Entries<'a, T>
        ensures { result ≡ self.entry }
    {
        Entries { walk: self }
    }
}

impl<'a, T: Sync> Iterator for Entries<'a, T> {
    type Item = (usize, &'a T);

    ghost can_next = { CanGo T.row };

    ghost next_gives = { IsNextWithId };

    ghost remaining = { ids_left };

    /// The next value that a look finds, and its id, by the same steps as `Iter` goes by.
    fn next(&mut self) -> Option<(usize, &'a T)> {
        match self.walk.next() {
            Some(value) => Some((self.walk.last_id(), value)),
            None => None,
        }
    }

    /// No value is promised, and there is no upper bound, since others publish meanwhile.
    fn size_hint(&self) -> (usize, Option<usize>)
        ensures hint { result ≡ (0, None) }
        ensures lower { IsWithinCount result.0 (ids_left self.now) }
        ensures upper { IfSome result.1 (UpTo (ids_left self.now)) }
    {
        (0, None)
    }
}

impl<T: Sync> FusedIterator for Entries<'_, T> {}

impl<T: fmt::Debug> fmt::Debug for Entries<'_, T> {
    /// The walk's position alone.
    fn fmt<W: fmt::Write>(&self, f: &mut fmt::Formatter<W>) -> fmt::Result {
        write_struct(f, "Entries", "walk", &self.walk)
    }
}
