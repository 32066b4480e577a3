//! Stands apart since, as a limit of the toolchain, no clause in a type's own file names its `the_row`.
//! Here a padded value is reached.
ghost use Rattle.std.specs.Prelude.{◌≡◌};
ghost use Rattle.std.specs.Borrow.{Lends, sem};
ghost use Rattle.thread_local.specs.contracts.padded.Padded.{the_row};

use super::Padded;
use std::ops::{Deref, DerefMut};

impl<T> Deref for Padded<T> {
    type Target = T;

    ghost deref_gives = { λ padded value. value ≡ padded };

    /// The value, for reading.
    fn deref(&self) -> &T
        ensures { result.now ≡ self.now }
    {
        &self.value
    }
}

impl<T> DerefMut for Padded<T> {
    ghost deref_mut_gives = { λ padded value. value ≡ padded };

    /// The value, for writing.
    fn deref_mut(&mut self) -> &mut T
        ensures* writes_back { sem 𝓛 (Lends (the_row T.row) T.row self.entry result (λ left. left)) }
        ensures value { result.now ≡ self.old }
    {
        &mut self.value
    }
}
