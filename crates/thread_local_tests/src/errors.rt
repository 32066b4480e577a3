//! What errors print, and what `?` makes of memory that was refused.

use crate::same::assert_same;
use std::alloc::{AllocError, Global};
use std::error::Error;
use thread_local::buckets::CapacityError;
use thread_local::local::{SetError, TryError};
use thread_local::thread_id::LocalError;

/// Whether an error prints this text.
fn says<E: Error>(error: &E, alloc: Global, text: &str) -> bool {
    match format!(in alloc; "{error}") {
        Ok(printed) => printed.as_str() == text,
        Err(_) => false,
    }
}

/// What an error says of memory that was refused.
const REFUSED: &str = "memory allocation failed";

/// Whether the errors of ids and capacities say what they are.
fn refusals_are_told(alloc: Global) -> [bool; 4] {
    [
        says(&LocalError::Exhausted, alloc, "every id is held"),
        says(&LocalError::Memory(AllocError), alloc, REFUSED),
        says(&CapacityError::TooLarge, alloc, "capacity is 2^63 or more"),
        says(&CapacityError::Memory(AllocError), alloc, REFUSED),
    ]
}

/// The same of the errors of `set` and of a closure, which may be an error of ids.
fn errors_of_values_are_told(alloc: Global) -> [bool; 4] {
    let failed = TryError::Create(LocalError::Exhausted);
    [
        says(
            &SetError::Occupied(5),
            alloc,
            "the slot holds a value already",
        ),
        says(&SetError::Memory(5), alloc, REFUSED),
        says(&failed, alloc, "every id is held"),
        says(&TryError::<LocalError>::Memory(AllocError), alloc, REFUSED),
    ]
}

/// What `?` makes of memory that was refused.
fn refused<E: From<AllocError>>() -> Result<(), E> {
    Err(AllocError)?;
    Ok(())
}

/// What `?` makes of an id that was refused.
fn refused_an_id<E: From<LocalError>>() -> Result<(), E> {
    Err(LocalError::Exhausted)?;
    Ok(())
}

#[test]
fn errors_are_made_of_missing_memory(rt: HostRuntime) {
    assert!(rt; matches!(refused::<LocalError>(), Err(LocalError::Memory(_))));
    assert!(rt; matches!(refused::<CapacityError>(), Err(CapacityError::Memory(_))));
    assert!(rt; matches!(refused::<TryError<u8>>(), Err(TryError::Memory(_))));
    assert!(rt; matches!(refused_an_id::<TryError<u8>>(), Err(TryError::Memory(_))));
}

#[test]
fn errors_are_printed(rt: HostRuntime) {
    assert_same(
        &rt,
        (
            refusals_are_told(rt.alloc()),
            errors_of_values_are_told(rt.alloc()),
        ),
        ([true; 4], [true; 4]),
    );
}
