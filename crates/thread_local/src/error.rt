//! Why a slot stays empty, or isn't filled by a value at hand.
ghost use Rattle.std.specs.Prelude.{◌≡◌, Some, alloc_error};
ghost use Rattle.thread_local.specs.Errors.{try_error_text, set_error_text};
ghost use Rattle.thread_local.specs.declared.error.TryError.TheVariants.{Memory};

use std::alloc::AllocError;
use std::error::Error;
use std::fmt;
use thread_local_base::LocalError;

/// Why `get_or_try`, `get_or_try_lasting` and `try_fill` leave the slot empty.
#[derive(Clone, Copy, Debug, Drop, PartialEq, Eq)]
pub enum TryError<E> {
    /// Out of memory for the slot's bucket.
    Memory(AllocError),
    /// The closure's own error.
    Create(E),
}

/// Why `set` and `publish` give their value back.
#[derive(Clone, Copy, Debug, Drop, PartialEq, Eq)]
pub enum SetError<T> {
    /// The slot holds a value.
    Occupied(T),
    /// Out of memory for the slot's bucket.
    Memory(T),
}

impl<E> From<AllocError> for TryError<E> {
    ghost from_gives = { λ refused error. error ≡ Memory refused };

    fn from(refused: AllocError) -> TryError<E> {
        TryError::Memory(refused)
    }
}

/// For a function that takes a `Local` and fills it. That every id is held counts as memory that is
/// out, which a program meets first.
impl<E> From<LocalError> for TryError<E> {
    ghost from_gives = { λ _ error. error ≡ Memory alloc_error };

    fn from(_: LocalError) -> TryError<E> {
        TryError::Memory(AllocError)
    }
}

impl<E: fmt::Display> fmt::Display for TryError<E> {
    ghost output = { try_error_text E.output };

    fn fmt<W: fmt::Write>(&self, f: &mut fmt::Formatter<W>) -> fmt::Result {
        match self {
            TryError::Memory(_) => f.write_str("memory allocation failed"),
            TryError::Create(error) => error.fmt(f),
        }
    }
}

impl<E: Error> Error for TryError<E> {}

impl<T> fmt::Display for SetError<T> {
    ghost output = { λ error. Some (set_error_text error) };

    fn fmt<W: fmt::Write>(&self, f: &mut fmt::Formatter<W>) -> fmt::Result {
        match self {
            SetError::Occupied(_) => f.write_str("the slot holds a value already"),
            SetError::Memory(_) => f.write_str("memory allocation failed"),
        }
    }
}

impl<T: fmt::Debug + Drop> Error for SetError<T> {}
