//! Stands apart since, as a limit of the toolchain, no clause in a type's own file names its `the_row`.
//! Here a guard lends its value, as `&` and as `&mut`, and an owner's lock lends it as `&mut`.
ghost use Rattle.std.specs.Prelude.{◌≡◌, []};
ghost use mir.Syntax.{named};
ghost use types.Logic.{sem};
ghost use Rattle.std.specs.Borrow.{follows};
ghost use Rattle.thread_local_ids.specs.contracts.locks.lock.Lock.{the_row as lock_row};
ghost use Rattle.thread_local_ids.specs.contracts.locks.lock.LockGuard.{the_row};
ghost use Rattle.thread_local_ids.specs.Guarded.{guard_with_value, lock_of};

use super::{FREE, Fits, Lock, LockGuard};
use std::ops::{Deref, DerefMut};

impl<V: Fits> Deref for LockGuard<'_, V> {
    type Target = V;

    ghost deref_gives = { λ guard value. value ≡ guard.value };

    fn deref(&self) -> &V
        ensures { result.now ≡ self.now.value }
    {
        unsafe { &(*self.lock).value }
    }
}

impl<V: Fits> DerefMut for LockGuard<'_, V> {
    ghost deref_mut_gives = { λ guard value. value ≡ guard.value };

    fn deref_mut(&mut self) -> &mut V
        ensures* writes_back { sem 𝓛
            (follows (the_row (record { mir = named 1; lft = [] }) V.row V.Fits) V.row
            self.entry.ghost_name result.ghost_name (guard_with_value self.old)) }
        ensures value { result.now ≡ self.old.value }
    {
        unsafe { &mut *(&raw const (*self.lock).value as *mut V) }
    }
}

impl<V: Fits> Lock<V> {
    /// The value, of which nothing is known, since a guard may have been forgotten. The lock is free
    /// from then on, and its tag is that of the value that is left there.
    #[inline]
    pub fn get_mut(&mut self) -> &mut V
        requires { (value : V) → V.fits value }
        ensures* writes_back { sem 𝓛
            (follows (lock_row V.row V.Fits) V.row self.entry.ghost_name result.ghost_name
            (lock_of V.tag)) }
    {
        self.word = FREE;
        &mut self.value
    }
}
