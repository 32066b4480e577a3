//! What a `LocalError` is made from by `?`, and what it prints.
ghost use Rattle.std.specs.Prelude.{◌≡◌, Some, alloc_error};
ghost use Rattle.thread_local_base.specs.Text.{local_error_text};
ghost use Rattle.thread_local_base.specs.declared.manager.LocalError.TheVariants.{Memory};

use crate::manager::LocalError;
use std::alloc::{AllocError, AllocFailed};
use std::error::Error;
use std::fmt;

impl From<AllocError> for LocalError {
    ghost from_gives = { λ refused error. error ≡ Memory refused };

    fn from(refused: AllocError) -> LocalError {
        LocalError::Memory(refused)
    }
}

impl<T: Drop> From<AllocFailed<T>> for LocalError {
    ghost from_gives = { λ _ error. error ≡ Memory alloc_error };

    fn from(_: AllocFailed<T>) -> LocalError {
        LocalError::Memory(AllocError)
    }
}

impl fmt::Display for LocalError {
    ghost output = { λ error. Some (local_error_text error) };

    fn fmt<W: fmt::Write>(&self, f: &mut fmt::Formatter<W>) -> fmt::Result {
        f.write_str(match self {
            LocalError::Memory(_) => "memory allocation failed",
            LocalError::Exhausted => "every id is held",
        })
    }
}

impl Error for LocalError {}
