//! The calls of a pool's owner: walks over the values that nobody holds, by ascending id.
ghost use Rattle.std.specs.Prelude.{◌≡◌, length};
ghost use Rattle.std.specs.Iterator.{at_most};
ghost use Rattle.thread_local.specs.IterMut.{iter_mut_rest, iter_mut_given};
ghost use Rattle.thread_local.specs.Drain.{drain_left, DrainCanStep, DrainIsFresh};

use crate::Pool;
use std::cell::Cell;
use thread_local::iter::{Drain, IntoIter, IterMut};

impl<T> Pool<T> {
    /// The values by ascending id, each lent as `&mut`. The value of a forgotten `Pooled` isn't in
    /// the pool. Takes no memory and no lock, as no call of the walk does.
    pub fn iter_mut(&mut self) -> PoolIterMut<'_, T>
        ensures fresh { iter_mut_given result.cells ≡ 0 }
    {
        PoolIterMut {
            cells: self.table.iter_mut(),
        }
    }

    /// The values by ascending id, each moved out, while the cells stay: the next values need no
    /// memory at the same ids. Dropping the walk drops the values still to come, whose drop may
    /// wait.
    pub fn drain(&mut self) -> PoolDrain<'_, T>
    where
        T: Drop,
        ensures ready { DrainCanStep result.cells }
        ensures fresh { DrainIsFresh result.cells }
    {
        PoolDrain {
            cells: self.table.drain(),
        }
    }

    /// How many slots the pool's table has: no fewer than there are values.
    pub fn slots(&mut self) -> usize {
        self.table.slots()
    }

    /// Drops the values, whose drop may wait, and takes the ids back, also those of forgotten
    /// `Pooled`s, as `ThreadLocal::clear` does.
    pub fn clear(&mut self)
    where
        T: Drop,
    {
        self.table.clear();
    }
}

impl<T: Drop> IntoIterator for Pool<T> {
    type Item = T;

    type IntoIter = PoolIntoIter<T>;

    /// The values by ascending id, each moved out. A walk that is dropped early drops the rest.
    fn into_iter(self) -> PoolIntoIter<T> {
        let Self { table, alloc: _ } = self;
        PoolIntoIter {
            cells: table.into_iter(),
        }
    }
}

impl<'a, T> IntoIterator for &'a mut Pool<T> {
    type Item = &'a mut T;

    type IntoIter = PoolIterMut<'a, T>;

    ghost into_iter_gives = { λ _ walk. iter_mut_given walk.cells ≡ 0 };

    /// The values by ascending id, each lent as `&mut`.
    fn into_iter(self) -> PoolIterMut<'a, T> {
        self.iter_mut()
    }
}

/// The walk of `Pool::iter_mut`.
#[derive(Drop)]
pub struct PoolIterMut<'a, T> {
    cells: IterMut<'a, Cell<Option<T>>>,
}

impl<'a, T> Iterator for PoolIterMut<'a, T> {
    type Item = &'a mut T;

    ghost remaining = { λ it. at_most (length (iter_mut_rest it.cells)) };

    /// The value of the next cell that has one.
    fn next(&mut self) -> Option<&'a mut T> {
        self.cells.find_map(|cell| cell.get_mut().as_mut())
    }

    /// At most as many values as cells are still to come.
    fn size_hint(&self) -> (usize, Option<usize>) {
        (0, Some(self.cells.len()))
    }
}

/// The walk of a `Pool` by value. Its drop drops the values still to come.
#[derive(Drop)]
pub struct PoolIntoIter<T> {
    cells: IntoIter<Cell<Option<T>>>,
}

impl<T: Drop> Iterator for PoolIntoIter<T> {
    type Item = T;

    ghost remaining = { λ it. at_most (length it.cells) };

    /// The value of the next cell that has one.
    fn next(&mut self) -> Option<T> {
        self.cells.find_map(Cell::into_inner)
    }

    /// At most as many values as cells are still to come.
    fn size_hint(&self) -> (usize, Option<usize>) {
        (0, Some(self.cells.len()))
    }
}

/// The walk of `Pool::drain`. Its drop drops the values still to come.
#[derive(Drop)]
pub struct PoolDrain<'a, T: Drop> {
    cells: Drain<'a, Cell<Option<T>>>,
}

impl<T: Drop> Iterator for PoolDrain<'_, T> {
    type Item = T;

    ghost can_next = { λ it. DrainCanStep it.cells };

    ghost remaining = { λ it. at_most (drain_left it.cells) };

    /// The value of the next cell that has one.
    fn next(&mut self) -> Option<T> {
        self.cells.find_map(Cell::into_inner)
    }

    /// At most as many values as cells are still to come.
    fn size_hint(&self) -> (usize, Option<usize>) {
        (0, Some(self.cells.len()))
    }
}
