//! The walk that moves each value out of an owner's buckets, by ascending id, and leaves the
//! buckets.
ghost use Rattle.std.specs.Prelude.{◌≡◌, ◌<◌, ◌^◌, Some, IfSome};
ghost use Rattle.std.specs.Iterator.{UpTo, at_most};
ghost use Rattle.std.specs.Iterator.SizeHint.{IsWithinCount};
ghost use Rattle.thread_local_buckets.specs.Cursor.{values_left};
ghost use Rattle.thread_local_base.specs.Owner.{emptied};

use crate::buckets::Buckets;
use crate::{OwnerCursor, write_struct};
use std::fmt;
use std::iter::FusedIterator;

/// The values of a table's buckets, by ascending id, each moved out. The buckets stay.
///
/// No call takes a lock or memory. Dropping it drops the values still to come, whose drop may wait.
/// `next` requires that the walk comes of `drain` (`DrainCanStep`). The Rust crate has no such walk.
pub struct Drain<'a, T> {
    pub(crate) buckets: &'a mut Buckets<T>,
    pub(crate) cursor: OwnerCursor,
    // The cursor has counted fewer values than there are ids.
    pub(crate) ghost few: { values_left cursor < 2 ^ 63 },
    // Where no value is left to give, the buckets have none.
    pub(crate) ghost ends: { values_left cursor ≡ 0 → emptied buckets.now.contents ≡ buckets.now.contents },
}

impl<'a, T: Drop> Drop for Drain<'a, T> {
    ghost use Rattle.thread_local_buckets.specs.Drain.{drain_leaves};

    // Where it is inlined, a walk that has given all its values ends without a call.
    #[inline]
    fn drop(self)
        ensures leaves { self.exit.0.now ≡ drain_leaves self.entry }
    {
        let Drain { buckets, cursor } = self;
        if !cursor.is_over() {
            buckets.drop_rest();
        }
    }
}

impl<'a, T: Drop> Iterator for Drain<'a, T> {
    ghost use Rattle.thread_local_buckets.specs.Drain.{drain_left, DrainCanStep, DrainSteps};

    type Item = T;

    ghost can_next = { DrainCanStep };

    ghost next_gives = { DrainSteps };

    ghost remaining = { λ drain. at_most (drain_left drain) };

    /// The next value, whose flag is cleared before it moves out.
    fn next(&mut self) -> Option<T> {
        if self.cursor.is_over() {
            return None;
        }
        let (_, value) = self.buckets.take_next(&mut self.cursor);
        Some(value)
    }

    /// The number of values still to come, as both bounds.
    fn size_hint(&self) -> (usize, Option<usize>)
        ensures exact { result ≡ (drain_left self.now, Some (drain_left self.now)) }
        ensures lower { IsWithinCount result.0 (at_most (drain_left self.now)) }
        ensures upper { IfSome result.1 (UpTo (at_most (drain_left self.now))) }
    {
        let left = self.len();
        (left, Some(left))
    }
}

impl<T: Drop> ExactSizeIterator for Drain<'_, T> {
    /// The number of values still to come. They were counted when the walk was made.
    fn len(&self) -> usize {
        self.cursor.len()
    }
}

impl<T: Drop> FusedIterator for Drain<'_, T> {}

impl<T: fmt::Debug> fmt::Debug for Drain<'_, T> {
    /// Shows only where the walk is.
    fn fmt<W: fmt::Write>(&self, f: &mut fmt::Formatter<W>) -> fmt::Result {
        write_struct(f, "Drain", "raw", &self.cursor.raw())
    }
}
