//! The walks of an owner's buckets that lend each value as `&mut`, by ascending id.
ghost use Rattle.std.specs.Prelude.{◌≡◌, ◌<◌, length, Some, IfSome};
ghost use types.Logic.{sem};
ghost use Rattle.std.specs.Iterator.{YieldsFirstMut, YieldsFirstBy, UpTo, item_count};
ghost use Rattle.std.specs.Iterator.SizeHint.{IsWithinCount};
ghost use Rattle.thread_local_base.specs.Buckets.{values};
ghost use Rattle.thread_local_base.specs.Walk.{walk};
ghost use Rattle.thread_local_buckets.specs.IterMut.{iter_mut_rest, iter_mut_name, iter_mut_given, entries_mut_rest};
ghost use Rattle.thread_local_buckets.specs.Cursor.{HasRead, MayRead};
ghost use Rattle.thread_local_buckets.specs.LendingValues.{LendsValues};
ghost use Rattle.thread_local_buckets.specs.Entered.{IsEntered};

use crate::buckets::Buckets;
use crate::loan::Loan;
use crate::{OwnerCursor, write_struct};
use std::fmt;
use std::iter::FusedIterator;
use std::marker::Model;

/// The values of a table's buckets with their ids, by ascending id, each lent as `&mut`. Contracts
/// see those still to come, the name of their loan, and the id after the last one that was given.
///
/// No call takes memory or waits. The Rust crate has no such walk.
#[derive(Drop)]
pub struct EntriesMut<'a, T> {
    pub(crate) loan: Loan<'a, T>,
    pub(crate) cursor: OwnerCursor,
}

impl<'a, T> Model for EntriesMut<'a, T> {
    ghost use Rattle.std.specs.Prelude.{ℕ, List, ◌<◌, ◌≤◌};
    ghost use base.Fml.{GName};
    ghost use Rattle.thread_local_base.specs.Buckets.{values};
    ghost use Rattle.thread_local_base.specs.Walk.{walk, paired};

    ghost Value = { List (ℕ × T) × (GName × ℕ) };

    ghost use Rattle.thread_local_base.specs.Owner.{NoneBelow};
    ghost use Rattle.thread_local_buckets.specs.Cursor.{read_to, IsOwnerWalk};
    ghost use Rattle.thread_local_buckets.specs.Entered.{IsEntered};

    ghost view = { λ it. (walk (paired (values it.loan.contents)), (it.loan.name, it.loan.given)) };

    ghost invariant = { λ it.
        IsOwnerWalk it.loan.contents it.cursor
        × NoneBelow (values it.loan.contents) it.loan.given
        × (it.loan.given ≤ read_to it.cursor.raw)
        × (0 < it.cursor.rest → IsEntered it.loan it.cursor.raw) };
}

/// Reads on where no flag is at hand, and enters the chunk whose flags it reads.
#[inline]
fn lead<T>(loan: &mut Loan<'_, T>, cursor: &mut OwnerCursor)
    requires may_read { MayRead loan.old.contents loan.old.given cursor.old }
    requires entered { 0 < cursor.old.rest → IsEntered loan.old cursor.old.raw }
    ensures name { loan.new.name ≡ loan.old.name }
    ensures contents { loan.new.contents ≡ loan.old.contents }
    ensures given { loan.new.given ≡ loan.old.given }
    ensures read { HasRead loan.old.contents loan.old.given cursor.old cursor.new }
    ensures entered { IsEntered loan.new cursor.new.raw }
{
    if cursor.rest == 0 {
        cursor.read_on(loan);
        loan.enter(cursor.raw.bucket, cursor.raw.index - 64);
    }
}

impl<'a, T> Iterator for EntriesMut<'a, T> {
    type Item = (usize, &'a mut T);

    ghost next_gives = { YieldsFirstBy (λ entry. (entry.0, entry.1.now)) entries_mut_rest };

    ghost remaining = { item_count entries_mut_rest };

    /// The next value, with its id. Its flag stays set.
    #[inline]
    fn next(&mut self) -> Option<(usize, &'a mut T)> {
        if self.cursor.is_over() {
            return None;
        }
        lead(&mut self.loan, &mut self.cursor);
        let bit = self.cursor.pass(&mut self.loan);
        let item = self.loan.give(bit);
        let index = self.cursor.raw.index - 64 + bit;
        Some((index + (self.cursor.raw.bucket_size - 1), item))
    }

    /// The number of values still to come, as both bounds.
    fn size_hint(&self) -> (usize, Option<usize>)
        ensures exact { result ≡ (length (entries_mut_rest self.now), Some (length (entries_mut_rest self.now))) }
        ensures lower { IsWithinCount result.0 (item_count entries_mut_rest self.now) }
        ensures upper { IfSome result.1 (UpTo (item_count entries_mut_rest self.now)) }
    {
        let left = self.len();
        (left, Some(left))
    }
}

impl<T> ExactSizeIterator for EntriesMut<'_, T> {
    /// The number of values still to come. They were counted when the walk was made.
    fn len(&self) -> usize {
        self.cursor.len()
    }
}

impl<T> FusedIterator for EntriesMut<'_, T> {}

impl<T: fmt::Debug> fmt::Debug for EntriesMut<'_, T> {
    /// Shows only where the walk is.
    fn fmt<W: fmt::Write>(&self, f: &mut fmt::Formatter<W>) -> fmt::Result {
        write_struct(f, "EntriesMut", "raw", &self.cursor.raw())
    }
}

/// The values of a table's buckets, by ascending id, each lent as `&mut`. Contracts see those still
/// to come, the name of their loan, and the id after the last one that was given.
///
/// No call takes memory or waits. The Rust crate promises no order.
#[derive(Drop)]
pub struct IterMut<'a, T> {
    pub(crate) entries: EntriesMut<'a, T>,
}

impl<'a, T> Model for IterMut<'a, T> {
    ghost use Rattle.std.specs.Prelude.{ℕ, List, map};
    ghost use base.Fml.{GName};

    ghost Value = { List T × (GName × ℕ) };

    ghost view = { λ it. (map (λ entry. entry.1) it.entries.0, it.entries.1) };
}

impl<'a, T> IntoIterator for &'a mut Buckets<T> {
    type Item = &'a mut T;

    type IntoIter = IterMut<'a, T>;

    ghost into_iter_gives = { λ buckets walked. iter_mut_rest walked ≡ walk (values buckets.now.contents) };

    /// The same as `iter_mut`.
    fn into_iter(self) -> IterMut<'a, T>
        ensures* writes_back { sem 𝓛 (LendsValues T.row self.entry (iter_mut_name result)) }
        ensures into_iter_gives { iter_mut_rest result ≡ walk (values self.old.contents) }
        ensures fresh { iter_mut_given result ≡ 0 }
    {
        self.iter_mut()
    }
}

impl<'a, T> Iterator for IterMut<'a, T> {
    type Item = &'a mut T;

    ghost next_gives = { YieldsFirstMut iter_mut_rest };

    ghost remaining = { item_count iter_mut_rest };

    /// The next value, whose flag stays set.
    // Where it is inlined, the walk's state stays in registers.
    #[inline]
    fn next(&mut self) -> Option<&'a mut T> {
        match self.entries.next() {
            Some((_, item)) => Some(item),
            None => None,
        }
    }

    /// The number of values still to come, as both bounds.
    fn size_hint(&self) -> (usize, Option<usize>)
        ensures exact { result ≡ (length (iter_mut_rest self.now), Some (length (iter_mut_rest self.now))) }
        ensures lower { IsWithinCount result.0 (item_count iter_mut_rest self.now) }
        ensures upper { IfSome result.1 (UpTo (item_count iter_mut_rest self.now)) }
    {
        let left = self.len();
        (left, Some(left))
    }
}

impl<T> ExactSizeIterator for IterMut<'_, T> {
    /// The number of values still to come. They were counted when the walk was made.
    fn len(&self) -> usize {
        self.entries.len()
    }
}

impl<T> FusedIterator for IterMut<'_, T> {}

impl<T: fmt::Debug> fmt::Debug for IterMut<'_, T> {
    /// Shows only where the walk is.
    fn fmt<W: fmt::Write>(&self, f: &mut fmt::Formatter<W>) -> fmt::Result {
        write_struct(f, "IterMut", "raw", &self.entries.cursor.raw())
    }
}
