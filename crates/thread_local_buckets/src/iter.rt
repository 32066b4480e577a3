//! The walks of an owner's buckets that move each value out, by ascending id.
ghost use Rattle.std.specs.Prelude.{◌≡◌, length, Some, IfSome};
ghost use Rattle.std.specs.Iterator.{YieldsFirst, UpTo, item_count};
ghost use Rattle.std.specs.Iterator.SizeHint.{IsWithinCount};

use crate::buckets::Buckets;
pub use crate::drain::Drain;
pub use crate::iter_mut::{EntriesMut, IterMut};
use crate::{OwnerCursor, write_struct};
use std::fmt;
use std::iter::FusedIterator;
use std::marker::Model;

/// The values of a table's buckets with their ids, by ascending id, each moved out. Contracts see
/// the list of those still to come.
///
/// No call takes a lock or memory. Dropping it drops the values still to come, whose drop may wait,
/// and frees every bucket. The Rust crate has no such walk.
#[derive(Drop)]
pub struct IntoEntries<T> {
    pub(crate) buckets: Buckets<T>,
    pub(crate) cursor: OwnerCursor,
}

impl<T> Model for IntoEntries<T> {
    ghost use Rattle.std.specs.Prelude.{ℕ, List};
    ghost use Rattle.thread_local_base.specs.Buckets.{values};
    ghost use Rattle.thread_local_base.specs.Walk.{walk, paired};

    ghost Value = { List (ℕ × T) };

    ghost use Rattle.thread_local_buckets.specs.Cursor.{IsOwnerWalk};

    ghost view = { λ it. walk (paired (values it.buckets.contents)) };

    ghost invariant = { λ it. IsOwnerWalk it.buckets.contents it.cursor };
}

impl<T: Drop> Iterator for IntoEntries<T> {
    type Item = (usize, T);

    ghost next_gives = { YieldsFirst (λ rest. rest) };

    ghost remaining = { item_count (λ rest. rest) };

    /// The next value, with its id.
    #[inline(always)]
    fn next(&mut self) -> Option<(usize, T)> {
        if self.cursor.is_over() {
            return None;
        }
        Some(self.buckets.take_next(&mut self.cursor))
    }

    /// The number of values still to come, as both bounds.
    fn size_hint(&self) -> (usize, Option<usize>)
        ensures exact { result ≡ (length self.now, Some (length self.now)) }
        ensures lower { IsWithinCount result.0 (item_count (λ rest. rest) self.now) }
        ensures upper { IfSome result.1 (UpTo (item_count (λ rest. rest) self.now)) }
    {
        let left = self.len();
        (left, Some(left))
    }
}

impl<T: Drop> ExactSizeIterator for IntoEntries<T> {
    /// The number of values still to come. They were counted when the walk was made.
    fn len(&self) -> usize {
        self.cursor.len()
    }
}

impl<T: Drop> FusedIterator for IntoEntries<T> {}

impl<T: fmt::Debug> fmt::Debug for IntoEntries<T> {
    /// Shows only where the walk is.
    fn fmt<W: fmt::Write>(&self, f: &mut fmt::Formatter<W>) -> fmt::Result {
        write_struct(f, "IntoEntries", "raw", &self.cursor.raw())
    }
}

/// The values of a table's buckets, by ascending id, each moved out. Contracts see the list of
/// those still to come.
///
/// It keeps the flags of the 64 slots that it is in, without those of the values that it gave.
///
/// No call takes a lock or memory. Dropping it drops the values still to come, whose drop may wait,
/// and frees every bucket. The Rust crate promises no order.
#[derive(Drop)]
pub struct IntoIter<T> {
    pub(crate) buckets: Buckets<T>,
    pub(crate) cursor: OwnerCursor,
}

impl<T> Model for IntoIter<T> {
    ghost use Rattle.std.specs.Prelude.{List};
    ghost use Rattle.thread_local_base.specs.Buckets.{values};
    ghost use Rattle.thread_local_base.specs.Walk.{walk};

    ghost Value = { List T };

    ghost use Rattle.thread_local_buckets.specs.Cursor.{IsOwnerWalk};

    ghost view = { λ it. walk (values it.buckets.contents) };

    ghost invariant = { λ it. IsOwnerWalk it.buckets.contents it.cursor };
}

impl<T: Drop> Iterator for IntoIter<T> {
    type Item = T;

    ghost next_gives = { YieldsFirst (λ rest. rest) };

    ghost remaining = { item_count (λ rest. rest) };

    /// The next value, whose flag is cleared before it moves out.
    #[inline(always)]
    fn next(&mut self) -> Option<T> {
        if self.cursor.is_over() {
            return None;
        }
        let (_, value) = self.buckets.take_next(&mut self.cursor);
        Some(value)
    }

    /// The number of values still to come, as both bounds.
    fn size_hint(&self) -> (usize, Option<usize>)
        ensures exact { result ≡ (length self.now, Some (length self.now)) }
        ensures lower { IsWithinCount result.0 (item_count (λ rest. rest) self.now) }
        ensures upper { IfSome result.1 (UpTo (item_count (λ rest. rest) self.now)) }
    {
        let left = self.len();
        (left, Some(left))
    }
}

impl<T: Drop> ExactSizeIterator for IntoIter<T> {
    /// The number of values still to come. They were counted when the walk was made.
    fn len(&self) -> usize {
        self.cursor.len()
    }
}

impl<T: Drop> FusedIterator for IntoIter<T> {}

impl<T: fmt::Debug> fmt::Debug for IntoIter<T> {
    /// Shows only where the walk is. The Rust crate shows the table.
    fn fmt<W: fmt::Write>(&self, f: &mut fmt::Formatter<W>) -> fmt::Result {
        write_struct(f, "IntoIter", "raw", &self.cursor.raw())
    }
}
