//! Stands apart since, as a limit of the toolchain, no clause in a type's own file names its `the_row`.
//! Here pooled values and buffers are reached.
ghost use Rattle.std.specs.Prelude.{◌≡◌, []};
ghost use types.Logic.{sem};
ghost use denote.Follow.{follows};
ghost use mir.Syntax.{named};
ghost use Rattle.thread_local_pool.specs.Bytes.{bytes_row};
ghost use Rattle.thread_local_pool.specs.Pooled.{with_pooled};
ghost use Rattle.thread_local_pool.specs.contracts.Buffer.{the_row};
ghost use Rattle.thread_local_pool.specs.contracts.Pooled.{the_row as pooled_row};

use crate::{Buffer, Pooled};
use std::ops::{Deref, DerefMut};
use std::sync::Wait;

impl<'a, T, R: Wait> Deref for Pooled<'a, T, R> {
    type Target = T;

    ghost deref_gives = { λ pooled value. value ≡ pooled.value };

    /// The value, for reading.
    fn deref(&self) -> &T
        ensures { result.now ≡ self.now.value }
    {
        &self.value
    }
}

impl<'a, T, R: Wait> DerefMut for Pooled<'a, T, R> {
    ghost deref_mut_gives = { λ pooled value. value ≡ pooled.value };

    /// The value, for writing: the pool gets back what is left in it.
    fn deref_mut(&mut self) -> &mut T
        ensures* writes_back { sem 𝓛
            (follows (pooled_row (record { mir = named 1; lft = [] }) T.row R.row) T.row
            self.entry.ghost_name result.ghost_name (with_pooled self.old)) }
        ensures value { result.now ≡ self.old.value }
    {
        &mut self.value
    }
}

impl<'a, R: Wait> Buffer<'a, R> {
    /// The bytes, for writing: the buffer keeps what is left in them.
    pub fn bytes_mut(&mut self) -> &mut Vec<u8>
        ensures* writes_back { sem 𝓛
            (follows (the_row (record { mir = named 1; lft = [] }) R.row) bytes_row
            self.entry.ghost_name result.ghost_name (λ left. left.items)) }
        ensures bytes { result.now.items ≡ self.old }
    {
        &mut self.bytes
    }
}
