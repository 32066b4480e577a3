//! What a `CapacityError` is made from by `?`, and what it prints.
ghost use Rattle.std.specs.Prelude.{◌≡◌, Some};
ghost use Rattle.thread_local_buckets.specs.Text.{capacity_error_text};
ghost use Rattle.thread_local_buckets.specs.declared.buckets.CapacityError.TheVariants.{Memory};

use crate::buckets::CapacityError;
use std::alloc::AllocError;
use std::error::Error;
use std::fmt;

impl From<AllocError> for CapacityError {
    ghost from_gives = { λ refused error. error ≡ Memory refused };

    fn from(refused: AllocError) -> CapacityError {
        CapacityError::Memory(refused)
    }
}

impl fmt::Display for CapacityError {
    ghost output = { λ error. Some (capacity_error_text error) };

    fn fmt<W: fmt::Write>(&self, f: &mut fmt::Formatter<W>) -> fmt::Result {
        match self {
            CapacityError::TooLarge => f.write_str("capacity is 2^63 or more"),
            CapacityError::Memory(_) => f.write_str("memory allocation failed"),
        }
    }
}

impl Error for CapacityError {}
